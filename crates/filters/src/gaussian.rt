// Gaussian application: a blur with given taps, the same both ways. The taps are passed in (01.Take.3).
ghost use Rattle.std.specs.Prelude.{◌≡◌};
ghost use Rattle.rules.specs.Answers.{number};
ghost use Rattle.rules.specs.Calls.{gaussian_blur};

use crate::convolution::apply_separable_kernel;
use rules::{BorderMode, Refusal, SeparableKernel, Size};

pub fn gaussian_blur(
    pixels: &[u8],
    size: Size,
    taps: &[f32],
    border: BorderMode,
    work: &mut [f32],
    out: &mut [u8],
) -> Result<(), Refusal>
    ensures { (number result, (work.new, out.new))
        ≡ gaussian_blur size border pixels.now taps.now work.old out.old }
{
    let kernel = SeparableKernel {
        horizontal: taps.len(),
        vertical: taps.len(),
    };
    apply_separable_kernel(pixels, size, kernel, taps, taps, border, work, out)
}
