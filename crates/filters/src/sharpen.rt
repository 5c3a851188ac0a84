// The sharpening filter: one kernel of 3 by 3.
ghost use Rattle.std.specs.Prelude.{◌≡◌};
ghost use Rattle.rules.specs.Answers.{number};
ghost use Rattle.rules.specs.Calls as Calls;
ghost use Rattle.rules.specs.declared.BorderMode.TheVariants.{Clamp};

use crate::convolution::apply_kernel;
use rules::{BorderMode, Kernel, Refusal, Size};

// 01.Border.11
const WEIGHTS: [f32; 9] = [0.0, -1.0, 0.0, -1.0, 5.0, -1.0, 0.0, -1.0, 0.0];

#[derive(Clone, Copy)]
pub struct SharpenFilter {
    pub border: BorderMode,
}

// With Clamp (01.Border.13).
impl Default for SharpenFilter {
    ghost is_default = { λ filter. filter.border ≡ Clamp };

    fn default() -> Self {
        Self::new()
    }
}

// The Rust's own constructors, which 01 asks for (01.Shape.11).
impl SharpenFilter {
    // With Clamp (01.Border.13).
    pub fn new() -> Self
        ensures { result.border ≡ BorderMode.Clamp }
    {
        Self::with_border(BorderMode::Clamp)
    }

    pub fn with_border(border: BorderMode) -> Self
        ensures { result.border ≡ border }
    {
        Self { border }
    }

    pub fn apply(self, pixels: &[u8], size: Size, out: &mut [u8]) -> Result<(), Refusal>
        ensures { (number result, out.new) ≡ Calls.sharpen size self.border pixels.now out.old }
    {
        let border = self.border;
        let kernel = Kernel {
            width: 3,
            height: 3,
        };
        apply_kernel(pixels, size, kernel, &WEIGHTS, border, out)
    }
}
