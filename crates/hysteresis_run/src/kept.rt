// What the buffers hold before a call, and the lines of what they hold after it, beside numbers of the case.
use cases::{Number, Row};
use rules::{MARK_FINISHED, Walk};
use scratch::count_of;
use std::io;

// An entry more than a picture of three by three has pixels.
pub(crate) const ROOM: usize = 10;

// Each buffer has numbers of its own: an entry that is left alone shows whose it is and where it stood. No call here writes these.
pub(crate) const MARKS_BEFORE: [u8; ROOM] = [71, 72, 73, 74, 75, 76, 77, 78, 79, 80];

pub(crate) const STACK_BEFORE: [u32; ROOM] = [81, 82, 83, 84, 85, 86, 87, 88, 89, 90];

pub(crate) const MAP_BEFORE: [u8; ROOM] = [91, 92, 93, 94, 95, 96, 97, 98, 99, 100];

// The state of a start that is refused.
pub(crate) const NO_WALK: Walk = Walk {
    width: 0,
    height: 0,
    pending: 0,
};

// A buffer of up to ten entries, beside the numbers of the case from one on.
pub(crate) fn list<T: Number>(
    rt: &impl Print,
    name: &[u8],
    got: &[T],
    row: &Row,
    from: usize,
) -> io::Result<()> {
    let mut room = [T::from_pattern(0); ROOM];
    if let Some(wanted) = room.get_mut(..got.len()) {
        row.list(from, wanted);
        report::list(rt, name, got, wanted)?;
    }
    Ok(())
}

// The three numbers of a walk's state.
pub(crate) fn state(rt: &impl Print, got: Walk, wanted: Walk) -> io::Result<()> {
    report::number(rt, b"  width", got.width, wanted.width)?;
    report::number(rt, b"  height", got.height, wanted.height)?;
    report::number(rt, b"  pending", got.pending, wanted.pending)?;
    Ok(())
}

// How many pixels the walk has finished.
pub(crate) fn finished(marks: &[u8]) -> usize {
    count_of(marks, MARK_FINISHED, marks.len())
}
