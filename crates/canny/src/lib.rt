// The whole run: blur, gradient, magnitude, suppression, a walk to its end and the map, over lent scratch that is zero afterwards
// (01.Walk.12, 01.Walk.13).
#![tactic(auto)]

mod stages;

ghost use Rattle.std.specs.Prelude.{◌≡◌};
ghost use Rattle.rules.specs.Answers.{run_answer};
ghost use Rattle.rules.specs.Refusals.{scratch};
ghost use Rattle.rules.specs.Run as Run;

use refusals::run::of_run;
use rules::{EDGE, Refusal, Size, Thresholds};
use scratch::{clear_stages, clear_walk, count_of};
use stages::{suppress, walk};

// Finds the edges of a byte picture: 255 in `map` where there is one, else 0; the answer counts them. The seven buffers between are
// scratch of at least width times height entries each, 18 bytes a pixel. They are parameters of their own because C lends each, and no
// stage takes them all.
pub fn canny(
    pixels: &[u8],
    size: Size,
    taps: &[f32],
    thresholds: Thresholds,
    work: &mut [f32],
    magnitude: &mut [f32],
    gx: &mut [i16],
    gy: &mut [i16],
    blurred: &mut [u8],
    marks: &mut [u8],
    stack: &mut [u32],
    map: &mut [u8],
) -> Result<usize, Refusal>
    ensures { (run_answer result, (map.new, scratch work.new magnitude.new gx.new gy.new blurred.new marks.new stack.new))
        ≡ Run.canny size pixels.now taps.now thresholds
        (scratch work.old magnitude.old gx.old gy.old blurred.old marks.old stack.old)
        map.old }
{
    of_run(
        pixels, size, taps, thresholds, work, magnitude, gx, gy, blurred, marks, stack, map,
    )?;
    let n = size.width * size.height;
    suppress(pixels, size, taps, work, magnitude, gx, gy, blurred);
    clear_stages(magnitude, gx, gy, blurred, n);
    walk(work, size, thresholds, marks, stack, map);
    clear_walk(work, marks, stack, n);
    Ok(count_of(map, EDGE, n))
}
