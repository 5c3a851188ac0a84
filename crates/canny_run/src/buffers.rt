// A whole run over eight buffers full of poison, and what they hold after it. Accepted, the scratch is zero as far as the picture goes;
// refused, all is poison.
use crate::case::{Buffer, Case, Poison};
use canny::canny;
use report::Entry;
use rules::{Refusal, Thresholds, number};
use std::io;

pub(crate) const ROOM: usize = 1922;

pub(crate) fn run(rt: &impl Print, case: &Case) -> io::Result<()> {
    let mut buffers = Buffers::of(case.poison);
    let pending = match case.pending() {
        None => None,
        Some(_) => stop_walk(case, &mut buffers.marks, &mut buffers.stack).ok(),
    };
    let got = canny(
        case.pixels(&mut [0; 1920]),
        case.size(),
        case.taps(&mut [0.0; 65]),
        case.thresholds(),
        &mut buffers.work[..case.room(Buffer::Work)],
        &mut buffers.magnitude[..case.room(Buffer::Magnitude)],
        &mut buffers.gx[..case.room(Buffer::Gx)],
        &mut buffers.gy[..case.room(Buffer::Gy)],
        &mut buffers.blurred[..case.room(Buffer::Blurred)],
        &mut buffers.marks[..case.room(Buffer::Marks)],
        &mut buffers.stack[..case.room(Buffer::Stack)],
        &mut buffers.map[..case.room(Buffer::Map)],
    );
    answered(rt, case, got, pending, &buffers.map)?;
    buffers.left(rt, case)
}

#[derive(Clone, Copy)]
struct Buffers {
    work: [f32; ROOM],
    magnitude: [f32; ROOM],
    gx: [i16; ROOM],
    gy: [i16; ROOM],
    blurred: [u8; ROOM],
    marks: [u8; ROOM],
    stack: [u32; ROOM],
    map: [u8; ROOM],
}

impl Buffers {
    fn of(poison: Poison) -> Buffers {
        Buffers {
            work: [poison.work; ROOM],
            magnitude: [poison.magnitude; ROOM],
            gx: [poison.gx; ROOM],
            gy: [poison.gy; ROOM],
            blurred: [poison.blurred; ROOM],
            marks: [poison.marks; ROOM],
            stack: [poison.stack; ROOM],
            map: [poison.map; ROOM],
        }
    }

    fn left(&self, rt: &impl Print, case: &Case) -> io::Result<()> {
        let n = case.zeroed();
        let poison = case.poison;
        let edges = (case.more_edges(), 255);
        parts(rt, b"  blurred", &self.blurred, (n, 0), poison.blurred)?;
        parts(rt, b"  marks", &self.marks, (n, 0), poison.marks)?;
        parts(rt, b"  stack", &self.stack, (n, 0), poison.stack)?;
        parts(
            rt,
            b"  the map from there on",
            &self.map[48..],
            edges,
            poison.map,
        )?;
        parts(rt, b"  work", &self.work, (n, 0.0), poison.work)?;
        parts(
            rt,
            b"  magnitude",
            &self.magnitude,
            (n, 0.0),
            poison.magnitude,
        )?;
        parts(rt, b"  gx", &self.gx, (n, 0), poison.gx)?;
        parts(rt, b"  gy", &self.gy, (n, 0), poison.gy)
    }
}

// The line of whether a buffer's first entries, as many as said or all, are what is said, and the others another value.
fn parts<T: Entry>(
    rt: &impl Print,
    name: &[u8],
    buffer: &[T],
    first: (usize, T),
    rest: T,
) -> io::Result<()> {
    let (head, tail) = buffer.split_at(first.0.min(buffer.len()));
    let good = report::all_are(head, first.1) && report::all_are(tail, rest);
    report::yes(rt, name, good)?;
    Ok(())
}

// Leaves a walk of 48 strong pixels stopped after one; how many are pending.
fn stop_walk(case: &Case, marks: &mut [u8], stack: &mut [u32]) -> Result<usize, Refusal> {
    let thresholds = Thresholds {
        low: 1.0,
        high: 2.0,
    };
    let walk = hysteresis::start(&[5.0; 48], case.size(), thresholds, marks, stack)?;
    Ok(hysteresis::slice(walk, 1, marks, stack)?.walk.pending)
}

// A run that is to give a map has it under the case's own name, any other its number.
fn answered(
    rt: &impl Print,
    case: &Case,
    got: Result<usize, Refusal>,
    pending: Option<usize>,
    map: &[u8; ROOM],
) -> io::Result<()> {
    let refusal = u32::from(number(got));
    match case.map() {
        None => {
            report::number(rt, b"", refusal, case.refusal())?;
            report::list(rt, b"  map", &map[..48], &[case.poison.map; 48])?;
        }
        Some(wanted) => {
            report::list(rt, b"", &map[..48], &wanted)?;
            report::number(rt, b"  its number", refusal, case.refusal())?;
        }
    }
    report::number(rt, b"  count", got.unwrap_or(0), case.edges())?;
    let left = pending.unwrap_or(0);
    report::number(rt, b"  pending before", left, case.pending().unwrap_or(0))?;
    Ok(())
}
