// The box blur: three equal taps both ways.
ghost use Rattle.std.specs.Prelude.{◌≡◌};
ghost use Rattle.rules.specs.Answers.{number};
ghost use Rattle.rules.specs.Calls.{box_blur};
ghost use Rattle.rules.specs.declared.BorderMode.TheVariants.{Clamp};

use crate::gaussian::gaussian_blur;
use rules::{BorderMode, Refusal, Size};

// The f32 nearest 1/3, three times (01.Border.10).
const TAPS: [f32; 3] = [0.33333334, 0.33333334, 0.33333334];

#[derive(Clone, Copy)]
pub struct BoxBlurFilter {
    pub border: BorderMode,
}

// With Clamp (01.Border.13).
impl Default for BoxBlurFilter {
    ghost is_default = { λ filter. filter.border ≡ Clamp };

    fn default() -> Self {
        Self::new()
    }
}

// The Rust's own constructors, which 01 asks for (01.Shape.11).
impl BoxBlurFilter {
    // With Clamp (01.Border.13).
    pub fn new() -> Self
        ensures { result.border ≡ BorderMode.Clamp }
    {
        Self::with_border(BorderMode::Clamp)
    }

    pub fn with_border(border: BorderMode) -> Self
        ensures { result.border ≡ border }
    {
        Self { border }
    }

    pub fn apply(
        self,
        pixels: &[u8],
        size: Size,
        work: &mut [f32],
        out: &mut [u8],
    ) -> Result<(), Refusal>
        ensures { (number result, (work.new, out.new))
            ≡ box_blur size self.border pixels.now work.old out.old }
    {
        let border = self.border;
        gaussian_blur(pixels, size, &TAPS, border, work, out)
    }
}
