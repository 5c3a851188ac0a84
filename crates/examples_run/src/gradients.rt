// Sobel's components and its byte, sectors, magnitudes and suppression.
use cases::{Line, ROOM, lines};
use kelontsira::filtering::kelontsira_sobel_byte;
use kelontsira::gradients::{
    kelontsira_gradient_magnitude, kelontsira_magnitude_of, kelontsira_non_maximum_suppression,
    kelontsira_sector, kelontsira_sobel_gradients,
};
use std::io;

pub(crate) fn sobel_byte(rt: &impl Print, line: &Line) -> io::Result<()> {
    lines::number(rt, b"", line, kelontsira_sobel_byte(line.number(b"s")))
}

pub(crate) fn magnitude_of(rt: &impl Print, line: &Line) -> io::Result<()> {
    let got = kelontsira_magnitude_of(line.number(b"s"));
    report::float(rt, b"", got, line.number(b"float"))?;
    Ok(())
}

pub(crate) fn sector(rt: &impl Print, line: &Line) -> io::Result<()> {
    let got = kelontsira_sector(line.number(b"gx"), line.number(b"gy"));
    lines::number(rt, b"", line, got)
}

pub(crate) fn components(rt: &impl Print, line: &Line) -> io::Result<()> {
    let mut pixels = [0u8; ROOM];
    let mut gx = [0i16; ROOM];
    let mut gy = [0i16; ROOM];
    let gx = line.list(b"gx", &mut gx);
    let gy = line.list(b"gy", &mut gy);
    let size = line.size();
    let got = kelontsira_sobel_gradients(
        line.list(b"pixels", &mut pixels),
        size.width,
        size.height,
        line.border(),
        gx,
        gy,
    );
    lines::number(rt, b"", line, got)?;
    if line.has(b"first") {
        component(rt, line, gx, 2001)?;
        return component(rt, line, gy, 3001);
    }
    lines::list(rt, b"  gx", line, b"gx", b"gx-after", gx)?;
    lines::list(rt, b"  gy", line, b"gy", b"gy-after", gy)
}

// Of a largest picture, which is of one grey.
fn component(rt: &impl Print, line: &Line, got: &[i16], before: i16) -> io::Result<()> {
    lines::parts(
        rt,
        line,
        got,
        (b"  all 0", 0),
        (b"  past the picture", before),
    )
}

// All of the output is shown, also where less of it was lent.
pub(crate) fn magnitude(rt: &impl Print, line: &Line) -> io::Result<()> {
    let mut gx = [0i16; ROOM];
    let mut gy = [0i16; ROOM];
    let mut out = [0.0f32; ROOM];
    let out = line.list(b"out", &mut out);
    let lent = line.lent(b"out-lent", out.len());
    let size = line.size();
    let got = kelontsira_gradient_magnitude(
        line.list(b"gx", &mut gx),
        line.list(b"gy", &mut gy),
        size.width,
        size.height,
        &mut out[..lent],
    );
    lines::list_or_number(rt, line, got, b"  its floats", out)
}

pub(crate) fn suppression(rt: &impl Print, line: &Line) -> io::Result<()> {
    let mut magnitude = [0.0f32; ROOM];
    let mut gx = [0i16; ROOM];
    let mut gy = [0i16; ROOM];
    let mut out = [0.0f32; ROOM];
    let out = line.list(b"out", &mut out);
    let lent = line.lent(b"out-lent", out.len());
    let size = line.size();
    let got = kelontsira_non_maximum_suppression(
        line.list(b"magnitude", &mut magnitude),
        line.list(b"gx", &mut gx),
        line.list(b"gy", &mut gy),
        size.width,
        size.height,
        &mut out[..lent],
    );
    lines::list_or_number(rt, line, got, b"  its floats", out)
}
