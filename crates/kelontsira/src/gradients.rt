// Gradient, sector, magnitude and suppression for C.
ghost use Rattle.std.specs.Prelude.{◌≡◌};
ghost use Rattle.rules.specs.Calls as Calls;
ghost use Rattle.rules.specs.Root.{magnitude_of};
ghost use Rattle.rules.specs.Sector.{sector_of};
ghost use Rattle.kelontsira.specs.Exports.{sides, bordered};

use crate::numbers::{REFUSED_BORDER, mode_by};
use gradient::components::sobel_gradients;
use gradient::magnitude::gradient_magnitude;
use gradient::suppression::non_maximum_suppression;
use pixel::root::magnitude_of;
use pixel::sector::sector;
use rules::{Size, number};

pub fn kelontsira_sobel_gradients(
    pixels: &[u8],
    width: usize,
    height: usize,
    border: u8,
    gx: &mut [i16],
    gy: &mut [i16],
) -> u8
    ensures { (result, (gx.new, gy.new))
        ≡ bordered border (gx.old, gy.old)
        (λ b. Calls.sobel_gradients (sides width height) b pixels.now gx.old gy.old) }
{
    let Some(mode) = mode_by(border) else {
        return REFUSED_BORDER;
    };
    number(sobel_gradients(pixels, Size { width, height }, mode, gx, gy))
}

pub fn kelontsira_sector(gx: i16, gy: i16) -> u8
    ensures { result ≡ sector_of gx gy }
{
    sector(gx, gy)
}

pub fn kelontsira_magnitude_of(s: u32) -> f32
    ensures { result ≡ magnitude_of s }
{
    magnitude_of(s)
}

pub fn kelontsira_gradient_magnitude(
    gx: &[i16],
    gy: &[i16],
    width: usize,
    height: usize,
    magnitude: &mut [f32],
) -> u8
    ensures { (result, magnitude.new)
        ≡ Calls.gradient_magnitude (sides width height) gx.now gy.now magnitude.old }
{
    number(gradient_magnitude(gx, gy, Size { width, height }, magnitude))
}

pub fn kelontsira_non_maximum_suppression(
    magnitude: &[f32],
    gx: &[i16],
    gy: &[i16],
    width: usize,
    height: usize,
    out: &mut [f32],
) -> u8
    ensures { (result, out.new)
        ≡ Calls.non_maximum_suppression (sides width height) magnitude.now gx.now gy.now out.old }
{
    number(non_maximum_suppression(magnitude, gx, gy, Size { width, height }, out))
}
