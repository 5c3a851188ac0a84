// Why the filters' calls and the resolver refuse.
ghost use Rattle.std.specs.Prelude.{◌≡◌};
ghost use Rattle.rules.specs.Answers.{number};
ghost use Rattle.rules.specs.Refusals.{first, coord_rows, plain_rows, median_rows, kernel_rows, separable_rows};
ghost use Rattle.refusals.specs.Rows.{picture_rows};

use crate::table::{
    check_count, check_input, check_match, check_room, check_sides, check_weights, refuse_if,
};
use rules::{Kernel, MAX_KERNEL, MAX_SIDE, MAX_TAPS, MAX_WINDOW, Refusal, SeparableKernel, Size};

// The resolver, which has one side.
pub fn of_coord(side: usize) -> Result<(), Refusal>
    ensures { number result ≡ first (coord_rows side) }
{
    refuse_if((side == 0) | (MAX_SIDE < side), Refusal::Side)
}

// 1: a side over the limit; 2: a picture that is not width times height long. Every filter's call begins with these.
pub fn of_picture(pixels: &[u8], size: Size) -> Result<(), Refusal>
    ensures { number result ≡ first (picture_rows size pixels.now) }
{
    check_sides(size)?;
    check_input(pixels, size)
}

// Sharpen, and Sobel's filter.
pub fn of_plain(pixels: &[u8], size: Size, out: &[u8]) -> Result<(), Refusal>
    ensures { number result ≡ first (plain_rows size pixels.now out.now) }
{
    of_picture(pixels, size)?;
    check_room(out, size)
}

pub fn of_median(pixels: &[u8], size: Size, window: usize, out: &[u8]) -> Result<(), Refusal>
    ensures { number result ≡ first (median_rows size window pixels.now out.now) }
{
    of_picture(pixels, size)?;
    check_count(MAX_WINDOW, window)?;
    check_room(out, size)
}

pub fn of_kernel(
    pixels: &[u8],
    size: Size,
    kernel: Kernel,
    weights: &[f32],
    out: &[u8],
) -> Result<(), Refusal>
    ensures { number result ≡ first (kernel_rows size kernel pixels.now weights.now out.now) }
{
    of_picture(pixels, size)?;
    check_count(MAX_KERNEL, kernel.width)?;
    check_count(MAX_KERNEL, kernel.height)?;
    check_match(kernel.width * kernel.height, weights)?;
    check_weights(weights)?;
    check_room(out, size)
}

pub fn of_separable(
    pixels: &[u8],
    size: Size,
    kernel: SeparableKernel,
    horizontal: &[f32],
    vertical: &[f32],
    work: &[f32],
    out: &[u8],
) -> Result<(), Refusal>
    ensures { number result
        ≡ first
        (separable_rows size kernel pixels.now horizontal.now vertical.now work.now out.now) }
{
    of_picture(pixels, size)?;
    check_count(MAX_TAPS, kernel.horizontal)?;
    check_count(MAX_TAPS, kernel.vertical)?;
    check_match(kernel.horizontal, horizontal)?;
    check_match(kernel.vertical, vertical)?;
    check_weights(horizontal)?;
    check_weights(vertical)?;
    check_room(work, size)?;
    check_room(out, size)
}
