// The stages between the refusals and the clearing: each public call in turn, over parts of the scratch that are width times height long.
// Each call is accepted: that `unwrap` may stand is proved.
ghost use Rattle.canny.specs.Lent.{Run, Suppressed, Walkable, Walked};

use filters::gaussian::gaussian_blur;
use gradient::components::sobel_gradients;
use gradient::magnitude::gradient_magnitude;
use gradient::suppression::non_maximum_suppression;
use hysteresis::{map, slice, start};
use rules::{BorderMode, Size, Thresholds};

// Blur, gradient, magnitude and suppression: the suppressed magnitudes are left in `work`.
pub(crate) fn suppress(
    pixels: &[u8],
    size: Size,
    taps: &[f32],
    work: &mut [f32],
    magnitude: &mut [f32],
    gx: &mut [i16],
    gy: &mut [i16],
    blurred: &mut [u8],
)
    requires { Run size pixels.now taps.now work.old magnitude.old gx.old gy.old blurred.old }
    ensures { Suppressed size pixels.now taps.now work.old magnitude.old gx.old gy.old
        blurred.old work.new magnitude.new gx.new gy.new blurred.new }
{
    let n = size.width * size.height;
    gaussian_blur(pixels, size, taps, BorderMode::Clamp, work, blurred).unwrap();
    sobel_gradients(&blurred[..n], size, BorderMode::Clamp, gx, gy).unwrap();
    gradient_magnitude(&gx[..n], &gy[..n], size, magnitude).unwrap();
    non_maximum_suppression(&magnitude[..n], &gx[..n], &gy[..n], size, work).unwrap();
}

// A walk to its end over the suppressed magnitudes, and its map. Each take finishes a pixel, so a budget of one more than there are
// pixels ends it.
pub(crate) fn walk(
    suppressed: &[f32],
    size: Size,
    thresholds: Thresholds,
    marks: &mut [u8],
    stack: &mut [u32],
    out: &mut [u8],
)
    requires { Walkable size thresholds suppressed.now marks.old stack.old out.old }
    ensures { Walked size thresholds suppressed.now marks.old stack.old out.old marks.new
        stack.new out.new }
{
    let n = size.width * size.height;
    let begun = start(&suppressed[..n], size, thresholds, marks, stack).unwrap();
    let ended = slice(begun, n + 1, marks, stack).unwrap();
    map(ended.walk, marks, stack, out).unwrap();
}
