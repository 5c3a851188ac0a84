// The filters for C: resolver, kernels, blurs, sharpen, median and Sobel's bytes. Sharpen and Sobel stay two functions, alike but for the
// filter, since C calls each by its name.
ghost use Rattle.std.specs.Prelude.{◌≡◌};
ghost use Rattle.rules.specs.Calls as Calls;
ghost use Rattle.rules.specs.Root.{sobel_byte};
ghost use Rattle.kelontsira.specs.Exports.{sides, kernel_of, taps_of, bordered, placed};

use crate::numbers::{ACCEPTED, REFUSED_BORDER, mode_by};
use filters::box_blur::BoxBlurFilter;
use filters::convolution::{apply_kernel, apply_separable_kernel, resolve_coord};
use filters::gaussian::gaussian_blur;
use filters::sharpen::SharpenFilter;
use gradient::sobel::SobelFilter;
use median::MedianFilter;
use pixel::byte::sobel_byte;
use rules::{Coord, Kernel, Refusal, SeparableKernel, Size, number};

pub fn kelontsira_resolve_coord(coord: i64, side: usize, border: u8, place: &mut usize) -> u8
    ensures { (result, place.new)
        ≡ bordered border place.old (λ b. placed side place.old (Calls.resolve_coord coord side b)) }
{
    let Some(mode) = mode_by(border) else {
        return REFUSED_BORDER;
    };
    *place = match resolve_coord(coord, side, mode) {
        Coord::At(i) => i,
        Coord::Nothing => side,
        Coord::Refused => return u8::from(Refusal::Side),
    };
    ACCEPTED
}

pub fn kelontsira_apply_kernel(
    pixels: &[u8],
    width: usize,
    height: usize,
    columns: usize,
    rows: usize,
    weights: &[f32],
    border: u8,
    out: &mut [u8],
) -> u8
    ensures { (result, out.new)
        ≡ bordered border out.old
        (λ b. Calls.apply_kernel (sides width height) (kernel_of columns rows) b pixels.now weights.now out.old) }
{
    let Some(mode) = mode_by(border) else {
        return REFUSED_BORDER;
    };
    let kernel = Kernel {
        width: columns,
        height: rows,
    };
    let size = Size { width, height };
    number(apply_kernel(pixels, size, kernel, weights, mode, out))
}

pub fn kelontsira_apply_separable_kernel(
    pixels: &[u8],
    width: usize,
    height: usize,
    across: usize,
    down: usize,
    horizontal: &[f32],
    vertical: &[f32],
    border: u8,
    work: &mut [f32],
    out: &mut [u8],
) -> u8
    ensures { (result, (work.new, out.new))
        ≡ bordered border (work.old, out.old)
        (λ b. Calls.apply_separable_kernel (sides width height) (taps_of across down) b pixels.now horizontal.now
        vertical.now work.old out.old) }
{
    let Some(mode) = mode_by(border) else {
        return REFUSED_BORDER;
    };
    let kernel = SeparableKernel {
        horizontal: across,
        vertical: down,
    };
    let size = Size { width, height };
    number(apply_separable_kernel(pixels, size, kernel, horizontal, vertical, mode, work, out))
}

pub fn kelontsira_gaussian_blur(
    pixels: &[u8],
    width: usize,
    height: usize,
    taps: &[f32],
    border: u8,
    work: &mut [f32],
    out: &mut [u8],
) -> u8
    ensures { (result, (work.new, out.new))
        ≡ bordered border (work.old, out.old)
        (λ b. Calls.gaussian_blur (sides width height) b pixels.now taps.now work.old out.old) }
{
    let Some(mode) = mode_by(border) else {
        return REFUSED_BORDER;
    };
    let size = Size { width, height };
    number(gaussian_blur(pixels, size, taps, mode, work, out))
}

pub fn kelontsira_box_blur(
    pixels: &[u8],
    width: usize,
    height: usize,
    border: u8,
    work: &mut [f32],
    out: &mut [u8],
) -> u8
    ensures { (result, (work.new, out.new))
        ≡ bordered border (work.old, out.old)
        (λ b. Calls.box_blur (sides width height) b pixels.now work.old out.old) }
{
    let Some(mode) = mode_by(border) else {
        return REFUSED_BORDER;
    };
    let filter = BoxBlurFilter { border: mode };
    number(filter.apply(pixels, Size { width, height }, work, out))
}

pub fn kelontsira_sharpen(
    pixels: &[u8],
    width: usize,
    height: usize,
    border: u8,
    out: &mut [u8],
) -> u8
    ensures { (result, out.new)
        ≡ bordered border out.old (λ b. Calls.sharpen (sides width height) b pixels.now out.old) }
{
    let Some(mode) = mode_by(border) else {
        return REFUSED_BORDER;
    };
    let filter = SharpenFilter { border: mode };
    number(filter.apply(pixels, Size { width, height }, out))
}

pub fn kelontsira_median(
    pixels: &[u8],
    width: usize,
    height: usize,
    window: usize,
    border: u8,
    out: &mut [u8],
) -> u8
    ensures { (result, out.new)
        ≡ bordered border out.old (λ b. Calls.median (sides width height) window b pixels.now out.old) }
{
    let Some(mode) = mode_by(border) else {
        return REFUSED_BORDER;
    };
    let filter = MedianFilter {
        size: window,
        border: mode,
    };
    number(filter.apply(pixels, Size { width, height }, out))
}

pub fn kelontsira_sobel(
    pixels: &[u8],
    width: usize,
    height: usize,
    border: u8,
    out: &mut [u8],
) -> u8
    ensures { (result, out.new)
        ≡ bordered border out.old (λ b. Calls.sobel (sides width height) b pixels.now out.old) }
{
    let Some(mode) = mode_by(border) else {
        return REFUSED_BORDER;
    };
    let filter = SobelFilter { border: mode };
    number(filter.apply(pixels, Size { width, height }, out))
}

pub fn kelontsira_sobel_byte(s: u32) -> u8
    ensures { result ≡ sobel_byte s }
{
    sobel_byte(s)
}
