// Gradients, magnitudes, sectors and suppression.
use crate::case::{Case, LIST, turned};
use crate::lists::{Output, is_list};
use cases::Number;
use kelontsira::gradients::{
    kelontsira_gradient_magnitude, kelontsira_non_maximum_suppression, kelontsira_sector,
    kelontsira_sobel_gradients,
};

// Wanted: all of gx, then all of gy.
pub(crate) fn gradients(case: &Case) -> bool {
    let mut pixels = [0u8; LIST];
    let pixels = turned(case.one, &mut pixels);
    let n = pixels.len();
    if case.wanted.len() < n {
        return false;
    }
    let mut gx = [i16::LEFT; LIST];
    let mut gy = [i16::LEFT; LIST];
    let refusal = kelontsira_sobel_gradients(
        pixels,
        case.size.width,
        case.size.height,
        case.border,
        &mut gx,
        &mut gy,
    );
    refusal == 0 && is_list(&gx, &case.wanted[..n]) && is_list(&gy, &case.wanted[n..])
}

pub(crate) fn magnitudes(case: &Case) -> bool {
    let mut gx = [0i16; LIST];
    let mut gy = [0i16; LIST];
    let mut out = [f32::LEFT; LIST];
    let refusal = kelontsira_gradient_magnitude(
        turned(case.one, &mut gx),
        turned(case.two, &mut gy),
        case.size.width,
        case.size.height,
        &mut out,
    );
    refusal == 0 && is_list(&out, case.wanted)
}

pub(crate) fn sectors(case: &Case) -> bool {
    let n = case.wanted.len();
    case.one.len() == n
        && case.two.len() == n
        && case.one.iter().zip(case.two).zip(case.wanted).all(|((gx, gy), wanted)| {
            let sector = kelontsira_sector(i16::from_pattern(*gx), i16::from_pattern(*gy));
            u32::from(sector) == *wanted
        })
}

pub(crate) fn suppressed(case: &Case) -> bool {
    let mut magnitude = [0.0f32; LIST];
    let mut gx = [0i16; LIST];
    let mut gy = [0i16; LIST];
    let mut out = [f32::LEFT; LIST];
    let refusal = kelontsira_non_maximum_suppression(
        turned(case.one, &mut magnitude),
        turned(case.two, &mut gx),
        turned(case.three, &mut gy),
        case.size.width,
        case.size.height,
        &mut out,
    );
    refusal == 0 && is_list(&out, case.wanted)
}
