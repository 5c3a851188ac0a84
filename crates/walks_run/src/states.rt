// A start that is refused, and a map request and then a slice of one state, forged or not, with all that they leave.
use crate::lent::{Lent, NO_WALK};
use cases::{Line, lines};
use rules::Walk;
use std::io;

pub(crate) fn start(rt: &impl Print, line: &Line, lent: &mut Lent) -> io::Result<()> {
    let number = lent.start(line);
    lines::number(rt, b"", line, number)?;
    lent.state(rt, NO_WALK)?;
    lent.left(rt, line, b"marks-after", b"stack-after")
}

pub(crate) fn map(rt: &impl Print, line: &Line, lent: &mut Lent) -> io::Result<()> {
    let walk = walk_of(line, b"pending");
    lent.walk = walk;
    let number = lent.map(line);
    lines::number(rt, b"", line, number)?;
    // A map answers no walk: the line stays, since the output is to stay as it is.
    lent.state(rt, walk)?;
    lent.show_map(rt, b"  map", line, b"map-after")?;
    slice(rt, line, lent)
}

fn slice(rt: &impl Print, line: &Line, lent: &mut Lent) -> io::Result<()> {
    let (number, takes) = lent.slice(line, line.number(b"budget"));
    lines::count(
        rt,
        b"  slice of the same",
        line,
        b"slice-number",
        u32::from(number),
    )?;
    lines::count(rt, b"  takes", line, b"takes", takes)?;
    lent.state(rt, walk_of(line, b"pending-after"))?;
    lent.left(rt, line, b"marks-after", b"stack-after")
}

fn walk_of(line: &Line, pending: &[u8]) -> Walk {
    Walk {
        width: line.number(b"width"),
        height: line.number(b"height"),
        pending: line.number(pending),
    }
}
