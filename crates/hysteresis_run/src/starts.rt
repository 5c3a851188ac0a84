// A start that is refused: its number, a state of zeros, and the buffers as before.
use crate::kept::{MARKS_BEFORE, NO_WALK, ROOM, STACK_BEFORE, state};
use cases::Row;
use rules::{Size, Thresholds, number};
use std::io;

// The case: the sides, how many magnitudes there are (all 5), low and high, how many marks and how many places, and the number.
pub(crate) fn run(rt: &impl Print, row: &Row) -> io::Result<()> {
    let size = Size {
        width: row.number(1),
        height: row.number(2),
    };
    let thresholds = Thresholds {
        low: row.number(4),
        high: row.number(5),
    };
    let magnitudes = [5.0; ROOM];
    let mut marks = MARKS_BEFORE;
    let mut stack = STACK_BEFORE;
    let started = hysteresis::start(
        &magnitudes[..row.at_most(3, ROOM)],
        size,
        thresholds,
        &mut marks[..row.at_most(6, ROOM)],
        &mut stack[..row.at_most(7, ROOM)],
    );
    report::number(rt, b"", u32::from(number(started)), row.number(8))?;
    state(rt, started.unwrap_or(NO_WALK), NO_WALK)?;
    report::list(rt, b"  marks", &marks, &MARKS_BEFORE)?;
    report::list(rt, b"  stack", &stack, &STACK_BEFORE)?;
    Ok(())
}
