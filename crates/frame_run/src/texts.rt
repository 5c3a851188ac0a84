// What is printed for a case's file. The case's place 1 is the file's length, and 2 what is wanted.
use crate::building::{printed, prints};
use cases::Row;
use frame::{FILE_ROOM, TEXT_ROOM};
use std::io;

// The text, beside the number that is wanted: 0 is a file that is accepted.
pub(crate) fn shown(rt: &impl Print, row: &Row, file: &[u8; FILE_ROOM]) -> io::Result<()> {
    let mut text = [0; TEXT_ROOM];
    let got = printed(file, row.number(1), &mut text);
    report::part(rt, b": wanted ", row.number(2))?;
    report::words(rt, b" got ")?;
    report::words(rt, got)
}

// The text's length; past it what was lent is left as it was.
pub(crate) fn measured(rt: &impl Print, row: &Row, file: &[u8; FILE_ROOM]) -> io::Result<()> {
    let mut text = [7; TEXT_ROOM];
    let m = printed(file, row.number(1), &mut text).len();
    report::number(rt, b"", m, row.number(2))?;
    report::yes(
        rt,
        b"  and nothing past them",
        report::all_are(&text[m..], 7),
    )?;
    Ok(())
}

// How many lengths below the file's own break the layout.
pub(crate) fn shorter(rt: &impl Print, row: &Row, file: &[u8; FILE_ROOM]) -> io::Result<()> {
    let end: usize = row.number(1);
    let breaches = (0..end)
        .filter(|n| prints(file, *n, b"refused 11\n"))
        .count();
    report::number(rt, b"", breaches, row.number(2))?;
    Ok(())
}
