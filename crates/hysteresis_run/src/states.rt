// A map request and then a slice of one state, forged or not: their numbers, and all that they leave.
use crate::kept;
use cases::Row;
use rules::{Progress, Walk, number};
use std::io;

// The case: the state's sides and what is pending, the budget, how many marks, places and entries of the map are lent, the slice's number
// and the map's, the five marks from 10 on and the five places from 15, the slice's takes and what is pending after it, the map from 22 on,
// and the marks from 27 and the places from 32 after the slice.
pub(crate) fn run(rt: &impl Print, row: &Row) -> io::Result<()> {
    let walk = Walk {
        width: row.number(1),
        height: row.number(2),
        pending: row.number(3),
    };
    let mut marks = [0; 5];
    row.list(10, &mut marks);
    let mut stack = [0; 5];
    row.list(15, &mut stack);
    map(rt, row, walk, &marks, &stack)?;
    slice(rt, row, walk, marks, stack)
}

fn map(
    rt: &impl Print,
    row: &Row,
    walk: Walk,
    marks: &[u8; 5],
    stack: &[u32; 5],
) -> io::Result<()> {
    let mut out = [91, 92, 93, 94, 95];
    let asked = hysteresis::map(
        walk,
        &marks[..row.at_most(5, 5)],
        &stack[..row.at_most(6, 5)],
        &mut out[..row.at_most(7, 5)],
    );
    report::number(rt, b"", u32::from(number(asked)), row.number(9))?;
    // A map answers no walk: the line stays, since the output is to stay as it is.
    kept::state(rt, walk, walk)?;
    kept::list(rt, b"  map", &out, row, 22)
}

fn slice(
    rt: &impl Print,
    row: &Row,
    walk: Walk,
    mut marks: [u8; 5],
    mut stack: [u32; 5],
) -> io::Result<()> {
    let made = hysteresis::slice(
        walk,
        row.number(4),
        &mut marks[..row.at_most(5, 5)],
        &mut stack[..row.at_most(6, 5)],
    );
    let left = made.unwrap_or(Progress { takes: 0, walk });
    let pending = row.number(21);
    report::number(
        rt,
        b"  slice of the same",
        u32::from(number(made)),
        row.number(8),
    )?;
    report::number(rt, b"  takes", left.takes, row.number(20))?;
    kept::state(rt, left.walk, Walk { pending, ..walk })?;
    kept::list(rt, b"  marks", &marks, row, 27)?;
    kept::list(rt, b"  stack", &stack, row, 32)
}
