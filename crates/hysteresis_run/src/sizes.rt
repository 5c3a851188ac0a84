// Slices of every size over pictures of eight by eight.
use crate::kept::finished;
use cases::Row;
use rules::{Refusal, Size, Thresholds};
use std::io;

const SIZE: Size = Size {
    width: 8,
    height: 8,
};

const THRESHOLDS: Thresholds = Thresholds {
    low: 5.0,
    high: 9.0,
};

// The case: how many pixels are joined, and the magnitudes.
pub(crate) fn run(rt: &impl Print, row: &Row) -> io::Result<()> {
    let joined = row.number(1);
    let mut magnitudes = [0.0f32; 64];
    row.list(2, &mut magnitudes);
    let wrong = (1..=66)
        .filter(|budget| in_slices(&magnitudes, *budget, joined) != Ok(true))
        .count();
    report::number(rt, b", slices of 1 to 66 that went wrong", wrong, 0)?;
    Ok(())
}

// Whether each of 65 slices takes the smaller of its budget and what is left of the joined pixels, and finishes as many; and the map at the
// end.
fn in_slices(magnitudes: &[f32], budget: usize, joined: usize) -> Result<bool, Refusal> {
    let mut marks = [7; 64];
    let mut stack = [8; 64];
    let mut walk = hysteresis::start(magnitudes, SIZE, THRESHOLDS, &mut marks, &mut stack)?;
    let mut good = true;
    let mut left = joined;
    for _ in 0..65 {
        let made = hysteresis::slice(walk, budget, &mut marks, &mut stack)?;
        let rest = left.saturating_sub(budget);
        good &= made.takes == left.min(budget)
            && finished(&marks) == joined.saturating_sub(rest)
            && (made.walk.pending == 0) == (rest == 0);
        walk = made.walk;
        left = rest;
    }
    let mut out = [9; 64];
    hysteresis::map(walk, &marks, &stack, &mut out)?;
    Ok(good && map_is(&out, magnitudes))
}

// Whether the map is 255 just where the picture is not 0.
fn map_is(map: &[u8], magnitudes: &[f32]) -> bool {
    map.iter()
        .zip(magnitudes)
        .all(|(entry, m)| *entry == if *m > 0.0 { 255 } else { 0 })
}
