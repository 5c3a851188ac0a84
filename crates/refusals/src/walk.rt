// Why the walk's three calls refuse.
ghost use Rattle.std.specs.Prelude.{◌≡◌, ◌≤◌, leb, ltb, length};
ghost use Rattle.std.specs.List.{list_any};
ghost use Rattle.rules.specs.Limits.{max_area};
ghost use Rattle.rules.specs.Picture.{area};
ghost use Rattle.rules.specs.Walk.{state, unusable};
ghost use Rattle.rules.specs.Answers.{number};
ghost use Rattle.rules.specs.Refusals.{first, start_rows, slice_rows, map_rows};

use crate::table::{check_input, check_room, check_sides, check_thresholds, refuse_if};
use rules::{MARK_FINISHED, MARK_WEAK, Refusal, Size, Thresholds};
use scratch::count_of;

// Whether one of the indexes is n or more.
fn any_beyond(indexes: &[u32], n: usize) -> bool
    ensures { result ≡ list_any (leb n) indexes.now }
{
    indexes.iter().any(|i| n <= *i as usize)
}

// Whether one of the marks is above 3. It looks at all of them, so that it looks at many at once.
fn any_above(marks: &[u8]) -> bool
    ensures { result ≡ list_any (ltb 3) marks.now }
{
    let mut above = false;
    for mark in marks {
        above |= MARK_FINISHED < *mark;
    }
    above
}

// Row 9: a state is unusable (01.Walk.10). Its marks, stack and pending count come one by one, as the two calls are lent them: a record of
// them would only be built here and taken apart again.
fn unusable_state(marks: &[u8], stack: &[u32], pending: usize, size: Size) -> bool
    requires { (area size ≤ max_area) × (area size ≤ length marks.now) × (area size ≤ length stack.now) }
    ensures { result ≡ unusable size (state marks.now stack.now pending) }
{
    let n = size.width * size.height;
    n < pending
        || (any_beyond(&stack[..pending], n)
            || (any_above(&marks[..n]) || n < pending + count_of(marks, MARK_WEAK, n)))
}

pub fn of_start(
    magnitudes: &[f32],
    size: Size,
    thresholds: Thresholds,
    marks: &[u8],
    stack: &[u32],
) -> Result<(), Refusal>
    ensures { number result ≡ first (start_rows size thresholds magnitudes.now marks.now stack.now) }
{
    check_sides(size)?;
    check_input(magnitudes, size)?;
    check_thresholds(thresholds)?;
    check_room(marks, size)?;
    check_room(stack, size)
}

pub fn of_slice(
    marks: &[u8],
    stack: &[u32],
    pending: usize,
    size: Size,
    budget: usize,
) -> Result<(), Refusal>
    ensures { number result ≡ first (slice_rows size budget (state marks.now stack.now pending)) }
{
    check_sides(size)?;
    check_room(marks, size)?;
    check_room(stack, size)?;
    refuse_if(budget == 0, Refusal::Budget)?;
    refuse_if(unusable_state(marks, stack, pending, size), Refusal::State)
}

pub fn of_map(
    marks: &[u8],
    stack: &[u32],
    pending: usize,
    size: Size,
    out: &[u8],
) -> Result<(), Refusal>
    ensures { number result ≡ first (map_rows size (state marks.now stack.now pending) out.now) }
{
    check_sides(size)?;
    check_room(marks, size)?;
    check_room(stack, size)?;
    check_room(out, size)?;
    refuse_if(unusable_state(marks, stack, pending, size), Refusal::State)?;
    refuse_if(pending != 0, Refusal::Pending)
}
