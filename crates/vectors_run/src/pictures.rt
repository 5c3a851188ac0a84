// The stages that make a byte picture of a byte picture, and the resolver.
use crate::case::{Case, LIST, turned};
use crate::lists::{Output, is_list};
use crate::stage::Picture;
use kelontsira::filtering::{
    kelontsira_apply_kernel, kelontsira_apply_separable_kernel, kelontsira_box_blur,
    kelontsira_gaussian_blur, kelontsira_median, kelontsira_resolve_coord, kelontsira_sharpen,
    kelontsira_sobel,
};

// The coordinate is two words of 32 bits, the low one first: the file stdin has these numbers.
pub(crate) fn resolved(case: &Case) -> bool {
    let (Some(low), Some(high), Some(wanted)) = (
        case.one.first(),
        case.one.get(1),
        case.wanted.first(),
    ) else {
        return false;
    };
    let coord = (u64::from(*high) << 32 | u64::from(*low)).cast_signed();
    let mut place = 0;
    let refusal = kelontsira_resolve_coord(coord, case.p as usize, case.border, &mut place);
    refusal == 0 && place == *wanted as usize
}

pub(crate) fn agrees(case: &Case, picture: Picture) -> bool {
    let mut pixels = [0u8; LIST];
    let mut out = [u8::LEFT; LIST];
    let refusal = call(case, picture, turned(case.one, &mut pixels), &mut out);
    refusal == 0 && is_list(&out, case.wanted)
}

fn call(case: &Case, picture: Picture, pixels: &[u8], out: &mut [u8]) -> u8 {
    let width = case.size.width;
    let height = case.size.height;
    match picture {
        Picture::ApplyKernel => kernel(case, pixels, out),
        Picture::ApplySeparableKernel => separable(case, pixels, out),
        Picture::GaussianBlur => gaussian(case, pixels, out),
        Picture::BoxBlur => {
            let mut work = [f32::LEFT; LIST];
            kelontsira_box_blur(pixels, width, height, case.border, &mut work, out)
        }
        Picture::Sharpen => kelontsira_sharpen(pixels, width, height, case.border, out),
        Picture::Median => {
            kelontsira_median(pixels, width, height, case.p as usize, case.border, out)
        }
        Picture::Sobel => kelontsira_sobel(pixels, width, height, case.border, out),
    }
}

fn kernel(case: &Case, pixels: &[u8], out: &mut [u8]) -> u8 {
    let mut weights = [0.0f32; LIST];
    kelontsira_apply_kernel(
        pixels,
        case.size.width,
        case.size.height,
        case.p as usize,
        case.q as usize,
        turned(case.two, &mut weights),
        case.border,
        out,
    )
}

fn separable(case: &Case, pixels: &[u8], out: &mut [u8]) -> u8 {
    let mut across = [0.0f32; LIST];
    let mut down = [0.0f32; LIST];
    let mut work = [f32::LEFT; LIST];
    let across = turned(case.two, &mut across);
    let down = turned(case.three, &mut down);
    kelontsira_apply_separable_kernel(
        pixels,
        case.size.width,
        case.size.height,
        across.len(),
        down.len(),
        across,
        down,
        case.border,
        &mut work,
        out,
    )
}

fn gaussian(case: &Case, pixels: &[u8], out: &mut [u8]) -> u8 {
    let mut taps = [0.0f32; LIST];
    let mut work = [f32::LEFT; LIST];
    kelontsira_gaussian_blur(
        pixels,
        case.size.width,
        case.size.height,
        turned(case.two, &mut taps),
        case.border,
        &mut work,
        out,
    )
}
