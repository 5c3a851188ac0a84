// The walk cut into slices, and the whole run.
use crate::case::{Case, LIST, turned};
use crate::lists::{Output, is_list};
use cases::Number;
use kelontsira::run::kelontsira_canny;
use kelontsira::walk::{kelontsira_map, kelontsira_slice, kelontsira_start};
use rules::{EDGE, Walk};

// Slices of three takes.
const BUDGET: usize = 3;

pub(crate) fn walked(case: &Case) -> bool {
    let mut magnitudes = [0.0f32; LIST];
    let mut marks = [u8::LEFT; LIST];
    let mut stack = [0u32; LIST];
    let mut out = [u8::LEFT; LIST];
    let mut walk = Walk {
        width: 0,
        height: 0,
        pending: 0,
    };
    let started = kelontsira_start(
        turned(case.one, &mut magnitudes),
        case.size.width,
        case.size.height,
        f32::from_pattern(case.p),
        f32::from_pattern(case.q),
        &mut marks,
        &mut stack,
        &mut walk.width,
        &mut walk.height,
        &mut walk.pending,
    );
    let are_sliced = slices(&mut walk, &mut marks, &mut stack);
    let mapped = kelontsira_map(
        walk.width,
        walk.height,
        walk.pending,
        &marks,
        &stack,
        &mut out,
    );
    started == 0 && are_sliced && mapped == 0 && is_list(&out, case.wanted)
}

// Until nothing is pending: a slice makes a take at least, and there are no more takes than entries.
fn slices(walk: &mut Walk, marks: &mut [u8], stack: &mut [u32]) -> bool {
    let mut are_accepted = true;
    let mut takes = 0;
    for _ in 0..LIST {
        if walk.pending == 0 {
            return are_accepted;
        }
        let refusal = kelontsira_slice(
            &mut walk.width,
            &mut walk.height,
            &mut walk.pending,
            BUDGET,
            marks,
            stack,
            &mut takes,
        );
        are_accepted &= refusal == 0;
    }
    are_accepted
}

pub(crate) fn whole(case: &Case) -> bool {
    let mut pixels = [0u8; LIST];
    let mut taps = [0.0f32; LIST];
    let mut work = [f32::LEFT; LIST];
    let mut magnitude = [f32::LEFT; LIST];
    let mut gx = [i16::LEFT; LIST];
    let mut gy = [i16::LEFT; LIST];
    let mut blurred = [u8::LEFT; LIST];
    let mut marks = [u8::LEFT; LIST];
    let mut stack = [0u32; LIST];
    let mut out = [u8::LEFT; LIST];
    let mut count = 0;
    let refusal = kelontsira_canny(
        turned(case.one, &mut pixels),
        case.size.width,
        case.size.height,
        turned(case.two, &mut taps),
        f32::from_pattern(case.p),
        f32::from_pattern(case.q),
        &mut work,
        &mut magnitude,
        &mut gx,
        &mut gy,
        &mut blurred,
        &mut marks,
        &mut stack,
        &mut out,
        &mut count,
    );
    let edges = case
        .wanted
        .iter()
        .filter(|entry| **entry == u32::from(EDGE))
        .count();
    refusal == 0 && count == edges && is_list(&out, case.wanted)
}
