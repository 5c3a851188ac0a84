// What a whole run leaves. Of scratch a line says whether it is what it was before, but for the values of the field scratch-after; an array
// is 0 past what the case says of it. Of the map the first entries are shown, as many as the smaller pictures have.
use cases::{Line, Number, ROOM};
use std::io;

const SHOWN: usize = 48;

// Floats as the case has them, by their patterns.
pub(crate) fn patterns(got: &[f32; ROOM]) -> [u32; ROOM] {
    let mut patterns = [0u32; ROOM];
    for (pattern, x) in patterns.iter_mut().zip(got) {
        *pattern = report::bits(*x);
    }
    patterns
}

// A buffer of scratch, whose field has its name.
pub(crate) fn scratch<T: Number>(
    rt: &impl Print,
    line: &Line,
    name: &[u8],
    got: &[T],
) -> io::Result<()> {
    let mut wanted = [T::from_pattern(0); ROOM];
    line.list(name, &mut wanted);
    line.list(b"scratch-after", &mut wanted);
    report::words(rt, b"  ")?;
    report::yes(rt, name, report::same(got, &wanted[..got.len().min(ROOM)]))?;
    Ok(())
}

pub(crate) fn first_of_map(
    rt: &impl Print,
    name: &[u8],
    line: &Line,
    map: &[u8],
) -> io::Result<()> {
    let mut wanted = [0u8; ROOM];
    read_map(line, &mut wanted);
    if let (Some(got), Some(wanted)) = (map.get(..SHOWN), wanted.get(..SHOWN)) {
        report::list(rt, name, got, wanted)?;
    }
    Ok(())
}

pub(crate) fn rest_of_map(rt: &impl Print, line: &Line, map: &[u8]) -> io::Result<()> {
    let mut wanted = [0u8; ROOM];
    read_map(line, &mut wanted);
    if map.len() == ROOM {
        let same = report::same(&map[SHOWN..], &wanted[SHOWN..]);
        report::yes(rt, b"  the map from there on", same)?;
    }
    Ok(())
}

fn read_map(line: &Line, wanted: &mut [u8]) {
    line.list(b"map", wanted);
    line.list(b"map-after", wanted);
}
