// What numbers that come from outside stand for: an f32 by its pattern, a border mode by its number.
ghost use Rattle.std.specs.Prelude.{◌≡◌};
ghost use Rattle.std.specs.Float.Ieee.{of_bits};
ghost use Rattle.std.specs.Float.{binary32};
ghost use Rattle.rules.specs.Border.{mode_of};

use crate::BorderMode;

// `from_bits` is undefined on a NaN's pattern, so those are told by the bits and become the one NaN.
pub fn float(bits: u32) -> f32
    ensures { result ≡ of_bits binary32 bits }
{
    if 0x7f80_0000 < bits % 0x8000_0000 {
        let zero = 0.0f32;
        return zero / zero;
    }
    f32::from_bits(bits)
}

// 0 and 1 are Zero and Clamp; all else is Mirror.
impl From<u8> for BorderMode {
    ghost from_gives = { λ n mode. mode ≡ mode_of n };

    fn from(n: u8) -> Self {
        match n {
            0 => BorderMode::Zero,
            1 => BorderMode::Clamp,
            _ => BorderMode::Mirror,
        }
    }
}
