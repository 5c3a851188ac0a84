// The lines of what a call answered and left, beside what the case wants. They only write.
use crate::{Line, Number, ROOM};
use report::Entry;
use std::io;

// The call's number, as an export answers it.
pub fn number(rt: &impl Print, name: &[u8], line: &Line, got: u8) -> io::Result<()> {
    count(rt, name, line, b"number", u32::from(got))
}

// A number, beside the one of a field.
pub fn count<T: Number>(
    rt: &impl Print,
    name: &[u8],
    line: &Line,
    field: &[u8],
    got: T,
) -> io::Result<()> {
    report::number(rt, name, got, line.number(field))?;
    Ok(())
}

// A buffer, beside what is wanted there: what it held before, but for the values of the field `after`.
pub fn list<T: Number>(
    rt: &impl Print,
    name: &[u8],
    line: &Line,
    before: &[u8],
    after: &[u8],
    got: &[T],
) -> io::Result<()> {
    let mut room = [T::from_pattern(0); ROOM];
    let wanted = line.list(before, &mut room);
    line.list(after, wanted);
    report::list(rt, name, got, wanted)?;
    Ok(())
}

// An accepted call has its output under the case's own name, a refused one its number.
pub fn list_or_number<T: Number>(
    rt: &impl Print,
    line: &Line,
    got: u8,
    kind: &[u8],
    out: &[T],
) -> io::Result<()> {
    if line.wanted() == 0 {
        list(rt, b"", line, b"out", b"out-after", out)?;
        return number(rt, b"  its number", line, got);
    }
    number(rt, b"", line, got)?;
    list(rt, kind, line, b"out", b"out-after", out)
}

// Of the largest pictures: whether the first entries are all what the case says, as many as it says, and the others what they were before.
// Each of the two has its name and its entry.
pub fn parts<T: Entry>(
    rt: &impl Print,
    line: &Line,
    out: &[T],
    first: (&[u8], T),
    rest: (&[u8], T),
) -> io::Result<()> {
    let n = line.lent(b"first", out.len());
    report::yes(rt, first.0, report::all_are(&out[..n], first.1))?;
    report::yes(rt, rest.0, report::all_are(&out[n..], rest.1))?;
    Ok(())
}

// The same, but that nothing is said of first entries where there are none.
pub fn largest<T: Entry>(
    rt: &impl Print,
    line: &Line,
    out: &[T],
    first: (&[u8], T),
    rest: (&[u8], T),
) -> io::Result<()> {
    if line.lent(b"first", out.len()) == 0 {
        report::yes(rt, rest.0, report::all_are(out, rest.1))?;
        return Ok(());
    }
    parts(rt, line, out, first, rest)
}
