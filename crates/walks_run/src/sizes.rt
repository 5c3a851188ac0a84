// Slices of every size, each over a walk of its own.
use crate::lent::Lent;
use cases::{Line, ROOM};
use std::io;

pub(crate) fn run(rt: &impl Print, line: &Line, lent: &mut Lent) -> io::Result<()> {
    let wrong = (1..=66)
        .filter(|budget| !is_right(line, lent, *budget))
        .count();
    report::number(rt, b", slices of 1 to 66 that went wrong", wrong, 0)?;
    Ok(())
}

// Whether each of 65 slices takes the smaller of its budget and what is left, and finishes as many; and the map at the end.
fn is_right(line: &Line, lent: &mut Lent, budget: usize) -> bool {
    lent.start(line);
    let joined: usize = line.number(b"joined");
    let mut left = joined;
    let mut good = true;
    for _ in 0..65 {
        let (_, takes) = lent.slice(line, budget);
        let rest = left.saturating_sub(budget);
        good &= takes == left - rest
            && lent.finished() == joined.saturating_sub(rest)
            && (lent.walk.pending == 0) == (rest == 0);
        left = rest;
    }
    good && has_map(line, lent)
}

fn has_map(line: &Line, lent: &mut Lent) -> bool {
    let mut wanted = [0u8; ROOM];
    let number = lent.map(line);
    number == 0 && report::same(lent.map, line.list(b"map-after", &mut wanted))
}
