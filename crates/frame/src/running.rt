// One whole run over a frame file's pixels, with scratch of its own.
ghost use Rattle.std.specs.Prelude.{◌≡◌};
ghost use Rattle.rules.specs.Answers.{run_answer};
ghost use Rattle.rules.specs.Frame.{frame_size, frame_pixels, frame_taps, thresholds_of};
ghost use Rattle.frame.specs.Running.{ran, Framed, Sized};

use crate::layout::{HEADER_LENGTH, decode_taps, size_of, thresholds_of};
use canny::canny;
use rules::{MAX_FRAME_SIDE, MAX_TAPS, Refusal, Size, Thresholds};

// The pixels of the largest frame.
pub(crate) const MAX_AREA: usize = MAX_FRAME_SIDE * MAX_FRAME_SIDE;

// The run's scratch lives here: the run leaves it zero (01.Walk.13).
fn run(
    pixels: &[u8],
    size: Size,
    taps: &[f32],
    thresholds: Thresholds,
    map: &mut [u8],
) -> Result<usize, Refusal>
    requires { Sized size map.old }
    ensures { (run_answer result, map.new) ≡ ran size pixels.now taps.now thresholds map.old }
{
    let mut work = [0.0f32; MAX_AREA];
    let mut magnitude = [0.0f32; MAX_AREA];
    let mut gx = [0i16; MAX_AREA];
    let mut gy = [0i16; MAX_AREA];
    let mut blurred = [0u8; MAX_AREA];
    let mut marks = [0u8; MAX_AREA];
    let mut stack = [0u32; MAX_AREA];
    canny(
        pixels,
        size,
        taps,
        thresholds,
        &mut work,
        &mut magnitude,
        &mut gx,
        &mut gy,
        &mut blurred,
        &mut marks,
        &mut stack,
        map,
    )
}

// The file's pixels, by its sides, taps and thresholds.
pub(crate) fn run_file(file: &[u8], count: usize, map: &mut [u8]) -> Result<usize, Refusal>
    requires { Framed file.now count map.old }
    ensures { (run_answer result, map.new)
        ≡ ran (frame_size file.now) (frame_pixels file.now) (frame_taps file.now) (thresholds_of file.now)
        map.old }
{
    let mut taps = [0.0f32; MAX_TAPS];
    decode_taps(file, count, &mut taps);
    let at = HEADER_LENGTH + 4 * count;
    run(
        &file[at..],
        size_of(file),
        &taps[..count],
        thresholds_of(file),
        map,
    )
}
