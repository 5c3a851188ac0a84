// Why sobel_gradients, gradient_magnitude and non_maximum_suppression refuse.
ghost use Rattle.std.specs.Prelude.{◌≡◌};
ghost use Rattle.rules.specs.Answers.{number};
ghost use Rattle.rules.specs.Refusals.{first, gradient_rows, magnitude_rows, suppression_rows};

use crate::filter::of_picture;
use crate::table::{check_input, check_room, check_sides};
use rules::{Refusal, Size};

pub fn of_gradients(pixels: &[u8], size: Size, gx: &[i16], gy: &[i16]) -> Result<(), Refusal>
    ensures { number result ≡ first (gradient_rows size pixels.now gx.now gy.now) }
{
    of_picture(pixels, size)?;
    check_room(gx, size)?;
    check_room(gy, size)
}

pub fn of_magnitude(gx: &[i16], gy: &[i16], size: Size, magnitude: &[f32]) -> Result<(), Refusal>
    ensures { number result ≡ first (magnitude_rows size gx.now gy.now magnitude.now) }
{
    check_sides(size)?;
    check_input(gx, size)?;
    check_input(gy, size)?;
    check_room(magnitude, size)
}

pub fn of_suppression(
    magnitude: &[f32],
    gx: &[i16],
    gy: &[i16],
    size: Size,
    out: &[f32],
) -> Result<(), Refusal>
    ensures { number result ≡ first (suppression_rows size magnitude.now gx.now gy.now out.now) }
{
    check_sides(size)?;
    check_input(magnitude, size)?;
    check_input(gx, size)?;
    check_input(gy, size)?;
    check_room(out, size)
}
