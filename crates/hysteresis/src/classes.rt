// What a start does (01.Walk.3 to 01.Walk.6): each pixel's mark, and then the strong ones on the stack. Only the marks are made from
// magnitudes: a start from other values needs a `mark_all` of its own and no other `pend`.
ghost use Rattle.std.specs.Prelude.{◌≡◌, ◌≤◌, ◌<◌, eqb, length};
ghost use Rattle.std.specs.Float.Ieee as Ieee;
ghost use Rattle.rules.specs.Limits.{max_area};
ghost use Rattle.rules.specs.Picture.{cleared};
ghost use Rattle.rules.specs.Walk.{has, at_least};
ghost use Rattle.hysteresis.specs.Split.{mark_of, marked, put, stacked};

use rules::{MARK_NONE, MARK_PENDING, MARK_WEAK, Thresholds};
use scratch::clear;

// A pixel's mark by its magnitude m; a NaN is below everything. A byte and no enum: the marks stand in lent buffers, which C reads too.
fn mark_of(m: f32, thresholds: Thresholds) -> u8
    ensures { result ≡ mark_of (Ieee.le thresholds.high m) (Ieee.le thresholds.low m) }
{
    if thresholds.high <= m {
        return MARK_PENDING;
    }
    if thresholds.low <= m {
        return MARK_WEAK;
    }
    MARK_NONE
}

// The marks. The stack is filled in a second pass, so that this one takes no branch.
pub(crate) fn mark_all(magnitudes: &[f32], thresholds: Thresholds, marks: &mut [u8])
    requires { length marks.old ≤ length magnitudes.now }
    ensures { marks.new
        ≡ marked (at_least thresholds.high magnitudes.now) (at_least thresholds.low magnitudes.now) (length marks.old) marks.old }
{
    for (i, mark) in marks.iter_mut().enumerate() {
        *mark = mark_of(magnitudes[i], thresholds);
    }
}

// Pixel i goes on the stack if its mark says so; how many are pending then.
fn stack_one(mark: u8, stack: &mut [u32], pending: usize, i: usize) -> usize
    requires { (i < max_area) × (pending < length stack.old) }
    ensures { (stack.new, result) ≡ put (eqb mark 2) i (stack.old, pending) }
{
    if mark == MARK_PENDING {
        stack[pending] = i as u32;
        return pending + 1;
    }
    pending
}

// The pending ones of the pixels go on the stack, in row order; how many.
fn stack_all(marks: &[u8], stack: &mut [u32]) -> usize
    requires { (length marks.now ≤ max_area) × (length marks.now ≤ length stack.old) }
    ensures { (stack.new, result) ≡ stacked (has 2 marks.now) (length marks.now) stack.old }
{
    let mut pending = 0;
    for (i, mark) in marks.iter().enumerate() {
        pending = stack_one(*mark, stack, pending, i);
    }
    pending
}

// The pixels with mark 2 become pending, whatever classed them: the stack's other places are 0.
pub(crate) fn pend(marks: &[u8], stack: &mut [u32]) -> usize
    requires { (length marks.now ≤ max_area) × (length marks.now ≤ length stack.old) }
    ensures { (stack.new, result) ≡ stacked (has 2 marks.now) (length marks.now) (cleared (length marks.now) 0 stack.old) }
{
    clear(stack, marks.len(), 0);
    stack_all(marks, stack)
}
