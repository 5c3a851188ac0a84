// Walks that are accepted, at once and in three slices.
use crate::lent::Lent;
use cases::{Line, lines};
use std::io;

pub(crate) fn run(rt: &impl Print, line: &Line, lent: &mut Lent) -> io::Result<()> {
    at_once(rt, line, lent)?;
    in_slices(rt, line, lent)
}

// The whole walk in one slice: its map, under the case's own name.
fn at_once(rt: &impl Print, line: &Line, lent: &mut Lent) -> io::Result<()> {
    lent.start(line);
    lent.slice(line, 10);
    lent.map(line);
    lent.show_map(rt, b"", line, b"map-after")
}

fn in_slices(rt: &impl Print, line: &Line, lent: &mut Lent) -> io::Result<()> {
    start(rt, line, lent)?;
    slice(rt, line, lent, 0)?;
    early_map(rt, line, lent)?;
    slice(rt, line, lent, 1)?;
    slice(rt, line, lent, 2)?;
    map(rt, line, lent)
}

fn start(rt: &impl Print, line: &Line, lent: &mut Lent) -> io::Result<()> {
    let number = lent.start(line);
    lines::number(rt, b"  start", line, number)?;
    lines::count(rt, b"  pending", line, b"pending", lent.walk.pending)?;
    lent.left(rt, line, b"marks-after", b"stack-after")
}

// A map request after the first slice: refused while something is pending.
fn early_map(rt: &impl Print, line: &Line, lent: &mut Lent) -> io::Result<()> {
    lent.left(rt, line, b"marks-then", b"stack-then")?;
    let number = u32::from(lent.map(line));
    lines::count(rt, b"  map then", line, b"map-number", number)?;
    lent.show_map(rt, b"  its bytes", line, b"map-then")
}

fn map(rt: &impl Print, line: &Line, lent: &mut Lent) -> io::Result<()> {
    let number = lent.map(line);
    lines::number(rt, b"  map", line, number)?;
    report::number(rt, b"  pending at the end", lent.walk.pending, 0)?;
    lent.show_map(rt, b"  the map and an entry past it", line, b"map-after")
}

// The slice of the k-th budget.
fn slice(rt: &impl Print, line: &Line, lent: &mut Lent, k: usize) -> io::Result<()> {
    let budget: usize = line.at(b"budgets", k);
    let (_, takes) = lent.slice(line, budget);
    report::part(rt, b"  budget ", budget as u64)?;
    report::number(rt, b", takes", takes, line.at(b"takes", k))?;
    report::number(rt, b"  marks 3", lent.finished(), line.at(b"finished", k))?;
    Ok(())
}
