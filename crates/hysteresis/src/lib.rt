// The walk of canny.rs, which joins weak pixels to strong ones: its start, slices of a budget, and the map. The state travels by value; the
// marks and the stack are lent beside it (01.Walk).
#![tactic(auto)]

mod classes;
mod takes;

ghost use Rattle.std.specs.Prelude.{◌≡◌, ◌≤◌, length};
ghost use Rattle.rules.specs.Walk.{mapped};
ghost use Rattle.rules.specs.Answers.{start_answer, slice_answer, map_answer};
ghost use Rattle.rules.specs.Calls as Calls;

use refusals::walk::{of_map, of_slice, of_start};
use rules::{EDGE, MARK_FINISHED, Progress, Refusal, Size, Thresholds, Walk};
use takes::Takes;

// Starts a walk: each pixel's magnitude is classed by the thresholds, and the strong ones are pending.
pub fn start(
    magnitudes: &[f32],
    size: Size,
    thresholds: Thresholds,
    marks: &mut [u8],
    stack: &mut [u32],
) -> Result<Walk, Refusal>
    ensures { (start_answer result, (marks.new, stack.new))
        ≡ Calls.start size thresholds magnitudes.now marks.old stack.old }
{
    of_start(magnitudes, size, thresholds, marks, stack)?;
    let marked = &mut marks[..size.width * size.height];
    classes::mark_all(magnitudes, thresholds, marked);
    let pending = classes::pend(marked, stack);
    Ok(Walk {
        width: size.width,
        height: size.height,
        pending,
    })
}

// A slice: takes until its budget is spent or nothing is pending.
pub fn slice(
    walk: Walk,
    budget: usize,
    marks: &mut [u8],
    stack: &mut [u32],
) -> Result<Progress, Refusal>
    ensures { (slice_answer walk result, (marks.new, stack.new)) ≡ Calls.slice walk budget marks.old stack.old }
{
    let size = Size::from(walk);
    of_slice(marks, stack, walk.pending, size, budget)?;
    let mut walking = Takes {
        marks,
        stack,
        pending: walk.pending,
        size,
    };
    let takes = walking.take_until(budget);
    Ok(Progress {
        takes,
        walk: Walk {
            pending: walking.pending,
            ..walk
        },
    })
}

// The map of a walk that has ended.
pub fn map(walk: Walk, marks: &[u8], stack: &[u32], out: &mut [u8]) -> Result<(), Refusal>
    ensures { (map_answer walk result, out.new) ≡ Calls.map walk marks.now stack.now out.old }
{
    of_map(marks, stack, walk.pending, Size::from(walk), out)?;
    fill_map(marks, &mut out[..walk.width * walk.height]);
    Ok(())
}

// The map's entries: 255 where the mark is 3, else 0 (01.Walk.11).
fn fill_map(marks: &[u8], map: &mut [u8])
    requires { length map.old ≤ length marks.now }
    ensures { map.new ≡ mapped (length map.old) marks.now map.old }
{
    for (q, entry) in map.iter_mut().enumerate() {
        *entry = if marks[q] == MARK_FINISHED { EDGE } else { 0 };
    }
}
