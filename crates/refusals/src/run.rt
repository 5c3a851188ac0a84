// Why a whole run refuses.
ghost use Rattle.std.specs.Prelude.{◌≡◌, []};
ghost use Rattle.rules.specs.Answers.{number};
ghost use Rattle.rules.specs.Refusals.{first, scratch, run_front, run_rows};

use crate::filter::of_picture;
use crate::table::{check_count, check_room, check_thresholds, check_weights};
use rules::{MAX_TAPS, Refusal, Size, Thresholds};

// Rows 1 to 6.
fn before_room(
    pixels: &[u8],
    size: Size,
    taps: &[f32],
    thresholds: Thresholds,
) -> Result<(), Refusal>
    ensures { number result ≡ first (run_front size pixels.now taps.now thresholds []) }
{
    of_picture(pixels, size)?;
    check_count(MAX_TAPS, taps.len())?;
    check_weights(taps)?;
    check_thresholds(thresholds)
}

pub fn of_run(
    pixels: &[u8],
    size: Size,
    taps: &[f32],
    thresholds: Thresholds,
    work: &[f32],
    magnitude: &[f32],
    gx: &[i16],
    gy: &[i16],
    blurred: &[u8],
    marks: &[u8],
    stack: &[u32],
    map: &[u8],
) -> Result<(), Refusal>
    ensures { number result
        ≡ first
        (run_rows size pixels.now taps.now thresholds
        (scratch work.now magnitude.now gx.now gy.now blurred.now marks.now stack.now)
        map.now) }
{
    before_room(pixels, size, taps, thresholds)?;
    check_room(work, size)?;
    check_room(magnitude, size)?;
    check_room(gx, size)?;
    check_room(gy, size)?;
    check_room(blurred, size)?;
    check_room(marks, size)?;
    check_room(stack, size)?;
    check_room(map, size)
}
