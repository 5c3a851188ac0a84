// The whole run for C.
ghost use Rattle.std.specs.Prelude.{◌≡◌};
ghost use Rattle.rules.specs.Run as Run;
ghost use Rattle.rules.specs.Refusals.{scratch};
ghost use Rattle.kelontsira.specs.Exports.{sides, between, run_says};

use crate::numbers::ACCEPTED;
use canny::canny;
use rules::{Size, Thresholds};

pub fn kelontsira_canny(
    pixels: &[u8],
    width: usize,
    height: usize,
    taps: &[f32],
    low: f32,
    high: f32,
    work: &mut [f32],
    magnitude: &mut [f32],
    gx: &mut [i16],
    gy: &mut [i16],
    blurred: &mut [u8],
    marks: &mut [u8],
    stack: &mut [u32],
    map: &mut [u8],
    count: &mut usize,
) -> u8
    ensures { (result, (count.new, (map.new, scratch work.new magnitude.new gx.new gy.new blurred.new marks.new stack.new)))
        ≡ run_says count.old
        (Run.canny (sides width height) pixels.now taps.now (between low high)
        (scratch work.old magnitude.old gx.old gy.old blurred.old marks.old stack.old)
        map.old) }
{
    let size = Size { width, height };
    let thresholds = Thresholds { low, high };
    match canny(
        pixels, size, taps, thresholds, work, magnitude, gx, gy, blurred, marks, stack, map,
    ) {
        Ok(edges) => {
            *count = edges;
            ACCEPTED
        }
        Err(refusal) => u8::from(refusal),
    }
}
