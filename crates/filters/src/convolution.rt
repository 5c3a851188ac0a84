// Convolution: the two public calls with a kernel that is lent, and the resolver of `border` under the Rust's path.
ghost use Rattle.std.specs.Prelude.{◌≡◌};
ghost use Rattle.rules.specs.Answers.{number};
ghost use Rattle.rules.specs.Calls.{apply_kernel, apply_separable_kernel};

use crate::passes::BLOCK;
use crate::sums::Convolution;
pub use border::coord::resolve_coord;
use refusals::filter::{of_kernel, of_separable};
use rules::{BorderMode, Kernel, Refusal, SeparableKernel, Size};
use scratch::clear;

// Convolves a byte picture with a kernel whose weights are lent in row order.
pub fn apply_kernel(
    pixels: &[u8],
    size: Size,
    kernel: Kernel,
    weights: &[f32],
    border: BorderMode,
    out: &mut [u8],
) -> Result<(), Refusal>
    ensures { (number result, out.new) ≡ apply_kernel size kernel border pixels.now weights.now out.old }
{
    of_kernel(pixels, size, kernel, weights, out)?;
    let mut sums = [0.0f32; BLOCK];
    let convolution = Convolution {
        samples: pixels,
        size,
        kernel,
        weights,
        border,
    };
    convolution.bytes_to(&mut sums, out);
    Ok(())
}

// Convolves with a row of taps and then with a column of taps. Between the two the sums stay f32, in `work`, which is zero afterwards.
pub fn apply_separable_kernel(
    pixels: &[u8],
    size: Size,
    kernel: SeparableKernel,
    horizontal: &[f32],
    vertical: &[f32],
    border: BorderMode,
    work: &mut [f32],
    out: &mut [u8],
) -> Result<(), Refusal>
    ensures { (number result, (work.new, out.new))
        ≡ apply_separable_kernel size kernel border pixels.now horizontal.now vertical.now work.old
        out.old }
{
    of_separable(pixels, size, kernel, horizontal, vertical, work, out)?;
    let across = Convolution {
        samples: pixels,
        size,
        kernel: Kernel {
            width: horizontal.len(),
            height: 1,
        },
        weights: horizontal,
        border,
    };
    across.sums_to(work);
    let down = Convolution {
        samples: &*work,
        size,
        kernel: Kernel {
            width: 1,
            height: vertical.len(),
        },
        weights: vertical,
        border,
    };
    let mut sums = [0.0f32; BLOCK];
    down.bytes_to(&mut sums, out);
    clear(work, size.width * size.height, 0.0);
    Ok(())
}
