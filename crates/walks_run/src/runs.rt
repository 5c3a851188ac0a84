// A whole run over scratch that is full of what it must not leave, and all that it leaves. The buffers are lent in three steps, since
// a function is checked against all that it lends.
use crate::kept;
use crate::lent::Lent;
use cases::{Line, ROOM, lines};
use kelontsira::run::kelontsira_canny;
use rules::MARK_PENDING;
use std::io;

pub(crate) fn run(rt: &impl Print, line: &Line, lent: &mut Lent) -> io::Result<()> {
    let mut work = [0.0f32; ROOM];
    let mut magnitude = [0.0f32; ROOM];
    let mut gx = [0i16; ROOM];
    let mut gy = [0i16; ROOM];
    called(
        rt,
        line,
        lent,
        line.list(b"work", &mut work),
        line.list(b"magnitude", &mut magnitude),
        line.list(b"gx", &mut gx),
        line.list(b"gy", &mut gy),
    )?;
    kept::scratch(rt, line, b"work", &kept::patterns(&work))?;
    kept::scratch(rt, line, b"magnitude", &kept::patterns(&magnitude))?;
    kept::scratch(rt, line, b"gx", &gx)?;
    kept::scratch(rt, line, b"gy", &gy)
}

fn called(
    rt: &impl Print,
    line: &Line,
    lent: &mut Lent,
    work: &mut [f32],
    magnitude: &mut [f32],
    gx: &mut [i16],
    gy: &mut [i16],
) -> io::Result<()> {
    let mut blurred = [0u8; ROOM];
    let blurred = line.list(b"blurred", &mut blurred);
    let pending = lent.marked(MARK_PENDING);
    let (number, count) = canny(line, lent, work, magnitude, gx, gy, blurred);
    answered(rt, line, number, lent.map)?;
    lines::count(rt, b"  count", line, b"count", count)?;
    lines::count(rt, b"  pending before", line, b"pending", pending)?;
    kept::scratch(rt, line, b"blurred", blurred)?;
    kept::scratch(rt, line, b"marks", lent.marks)?;
    kept::scratch(rt, line, b"stack", lent.stack)?;
    kept::rest_of_map(rt, line, lent.map)
}

// The run's number, and how many edges it counts.
fn canny(
    line: &Line,
    lent: &mut Lent,
    work: &mut [f32],
    magnitude: &mut [f32],
    gx: &mut [i16],
    gy: &mut [i16],
    blurred: &mut [u8],
) -> (u8, usize) {
    let mut pixels = [0u8; ROOM];
    let mut taps = [0.0f32; ROOM];
    let map = &mut *lent.map;
    let n = line.lent(b"map-lent", map.len());
    let size = line.size();
    let mut count = 0;
    let number = kelontsira_canny(
        line.list(b"pixels", &mut pixels),
        size.width,
        size.height,
        line.list(b"taps", &mut taps),
        line.number(b"low"),
        line.number(b"high"),
        work,
        magnitude,
        gx,
        gy,
        blurred,
        lent.marks,
        lent.stack,
        &mut map[..n],
        &mut count,
    );
    (number, count)
}

// A run that is to give a map has it under the case's own name, any other its number.
fn answered(rt: &impl Print, line: &Line, number: u8, map: &[u8]) -> io::Result<()> {
    if line.has(b"map-after") {
        kept::first_of_map(rt, b"", line, map)?;
        return lines::number(rt, b"  its number", line, number);
    }
    lines::number(rt, b"", line, number)?;
    kept::first_of_map(rt, b"  map", line, map)
}
