// The walk for C: its state is three lent numbers, which a refusal leaves as they were.
ghost use Rattle.std.specs.Prelude.{◌≡◌};
ghost use Rattle.rules.specs.Calls as Calls;
ghost use Rattle.kelontsira.specs.Exports.{sides, between, walk_of, start_says, slice_says, map_says};

use crate::numbers::ACCEPTED;
use hysteresis::{map, slice, start};
use rules::{Size, Thresholds, Walk, number};

pub fn kelontsira_start(
    magnitudes: &[f32],
    width: usize,
    height: usize,
    low: f32,
    high: f32,
    marks: &mut [u8],
    stack: &mut [u32],
    wide: &mut usize,
    tall: &mut usize,
    pending: &mut usize,
) -> u8
    ensures { (result, ((wide.new, (tall.new, pending.new)), (marks.new, stack.new)))
        ≡ start_says (wide.old, (tall.old, pending.old))
        (Calls.start (sides width height) (between low high) magnitudes.now marks.old stack.old) }
{
    let size = Size { width, height };
    match start(magnitudes, size, Thresholds { low, high }, marks, stack) {
        Ok(walk) => {
            (*wide, *tall, *pending) = (walk.width, walk.height, walk.pending);
            ACCEPTED
        }
        Err(refusal) => u8::from(refusal),
    }
}

pub fn kelontsira_slice(
    wide: &mut usize,
    tall: &mut usize,
    pending: &mut usize,
    budget: usize,
    marks: &mut [u8],
    stack: &mut [u32],
    takes: &mut usize,
) -> u8
    ensures { (result, ((takes.new, (wide.new, (tall.new, pending.new))), (marks.new, stack.new)))
        ≡ slice_says takes.old (wide.old, (tall.old, pending.old))
        (Calls.slice (walk_of wide.old tall.old pending.old) budget marks.old stack.old) }
{
    let walk = Walk {
        width: *wide,
        height: *tall,
        pending: *pending,
    };
    match slice(walk, budget, marks, stack) {
        Ok(made) => {
            *takes = made.takes;
            (*wide, *tall, *pending) = (made.walk.width, made.walk.height, made.walk.pending);
            ACCEPTED
        }
        Err(refusal) => u8::from(refusal),
    }
}

pub fn kelontsira_map(
    wide: usize,
    tall: usize,
    pending: usize,
    marks: &[u8],
    stack: &[u32],
    out: &mut [u8],
) -> u8
    ensures { (result, out.new)
        ≡ map_says (Calls.map (walk_of wide tall pending) marks.now stack.now out.old) }
{
    let walk = Walk {
        width: wide,
        height: tall,
        pending,
    };
    number(map(walk, marks, stack, out))
}
