// Walks over three by three pixels that are accepted, at once and in three slices. The buffers have an entry more than the picture.
use crate::kept::{MAP_BEFORE, MARKS_BEFORE, NO_WALK, STACK_BEFORE, finished, list};
use cases::Row;
use rules::{Progress, Refusal, Size, Thresholds, Walk, number};
use std::io;

const SIZE: Size = Size {
    width: 3,
    height: 3,
};

// The case: low and high at 1 and 2, the magnitudes from 3 on, the map from 12 and what is pending after the start at 22. From 23 on the
// budget, the takes and the marks that are 3, of each slice. At 32 the number of a map request after the first slice. The marks and the
// places after the start from 33 and 43 on, and after the first slice from 53 and 63 on.
pub(crate) fn run(rt: &impl Print, row: &Row) -> io::Result<()> {
    let mut out = MAP_BEFORE;
    at_once(row, &mut out);
    list(rt, b"", &out, row, 12)?;
    let mut marks = MARKS_BEFORE;
    let mut stack = STACK_BEFORE;
    let mut lent = Lent {
        walk: NO_WALK,
        marks: &mut marks,
        stack: &mut stack,
    };
    let started = lent.start(row);
    report::number(rt, b"  start", number(started), 0)?;
    report::number(rt, b"  pending", lent.walk.pending, row.number(22))?;
    lent.left(rt, row, 33, 43)?;
    lent.slice_lines(rt, row, 23)?;
    lent.left(rt, row, 53, 63)?;
    lent.early_map(rt, row)?;
    lent.slice_lines(rt, row, 26)?;
    lent.slice_lines(rt, row, 29)?;
    lent.last_map(rt, row)
}

// The whole walk in one slice, and its map.
fn at_once(row: &Row, out: &mut [u8]) {
    let mut marks = MARKS_BEFORE;
    let mut stack = STACK_BEFORE;
    let mut lent = Lent {
        walk: NO_WALK,
        marks: &mut marks,
        stack: &mut stack,
    };
    // Where a call refuses, the map shows it.
    let _ = lent.start(row);
    lent.slice(10);
    let _ = lent.map(out);
}

// A walk and what is lent to it.
#[derive(Drop)]
struct Lent<'a> {
    walk: Walk,
    marks: &'a mut [u8],
    stack: &'a mut [u32],
}

impl Lent<'_> {
    fn start(&mut self, row: &Row) -> Result<Walk, Refusal> {
        let thresholds = Thresholds {
            low: row.number(1),
            high: row.number(2),
        };
        let mut magnitudes = [0.0; 9];
        row.list(3, &mut magnitudes);
        let started = hysteresis::start(&magnitudes, SIZE, thresholds, self.marks, self.stack);
        self.walk = started.unwrap_or(NO_WALK);
        started
    }

    // How many takes it makes: refused none, and the state stays.
    fn slice(&mut self, budget: usize) -> usize {
        let walk = self.walk;
        let made = hysteresis::slice(walk, budget, self.marks, self.stack);
        let left = made.unwrap_or(Progress { takes: 0, walk });
        self.walk = left.walk;
        left.takes
    }

    fn map(&self, out: &mut [u8]) -> Result<(), Refusal> {
        hysteresis::map(self.walk, self.marks, self.stack, out)
    }

    // The marks and the stack, beside the case's numbers from two places on.
    fn left(&self, rt: &impl Print, row: &Row, marks: usize, stack: usize) -> io::Result<()> {
        list(rt, b"  marks", self.marks, row, marks)?;
        list(rt, b"  stack", self.stack, row, stack)
    }

    // A slice, of which the case has the budget, the takes and the marks that are 3, from a place on.
    fn slice_lines(&mut self, rt: &impl Print, row: &Row, place: usize) -> io::Result<()> {
        let mut wanted = [0; 3];
        row.list(place, &mut wanted);
        let [budget, takes, threes] = wanted;
        let taken = self.slice(budget);
        report::part(rt, b"  budget ", budget as u64)?;
        report::number(rt, b", takes", taken, takes)?;
        report::number(rt, b"  marks 3", finished(self.marks), threes)?;
        Ok(())
    }

    // A map request after the first slice: refused while something is pending.
    fn early_map(&self, rt: &impl Print, row: &Row) -> io::Result<()> {
        let mut out = MAP_BEFORE;
        let asked = self.map(&mut out);
        let wanted: u32 = row.number(32);
        report::number(rt, b"  map then", u32::from(number(asked)), wanted)?;
        if wanted == 0 {
            return list(rt, b"  its bytes", &out, row, 12);
        }
        report::list(rt, b"  its bytes", &out, &MAP_BEFORE)?;
        Ok(())
    }

    fn last_map(&self, rt: &impl Print, row: &Row) -> io::Result<()> {
        let mut out = MAP_BEFORE;
        let asked = self.map(&mut out);
        report::number(rt, b"  map", number(asked), 0)?;
        report::number(rt, b"  pending at the end", self.walk.pending, 0)?;
        list(rt, b"  the map and an entry past it", &out, row, 12)
    }
}
