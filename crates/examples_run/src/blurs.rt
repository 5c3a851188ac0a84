// The calls with a work buffer, all of which is shown, also where less of it was lent.
use crate::call::{Blur, Call};
use cases::{Line, ROOM, lines};
use filters::box_blur::BoxBlurFilter;
use kelontsira::filtering::{
    kelontsira_apply_separable_kernel, kelontsira_box_blur, kelontsira_gaussian_blur,
};
use rules::number;
use std::io;

pub(crate) fn run(rt: &impl Print, line: &Line, call: Option<Call>) -> io::Result<()> {
    let mut pixels = [0u8; ROOM];
    let mut work = [0.0f32; ROOM];
    let mut out = [0u8; ROOM];
    let pixels = line.list(b"pixels", &mut pixels);
    let work = line.list(b"work", &mut work);
    let out = line.list(b"out", &mut out);
    let n = line.lent(b"work-lent", work.len());
    let lent = &mut work[..n];
    let got = match blur_of(call) {
        Blur::Box => boxed(line, pixels, lent, out),
        Blur::Gaussian => gaussian(line, pixels, lent, out),
        Blur::Separable => separable(line, pixels, lent, out),
    };
    lines::list_or_number(rt, line, got, b"  its bytes", out)?;
    lines::list(rt, b"  work", line, b"work", b"work-after", work)
}

// What is no blur, and has a work buffer all the same, is a separable kernel.
fn blur_of(call: Option<Call>) -> Blur {
    let Some(call) = call else {
        return Blur::Separable;
    };
    match call {
        Call::Blur(blur) => blur,
        Call::Heading
        | Call::ResolveCoord
        | Call::Picture(_)
        | Call::SobelGradients
        | Call::GradientMagnitude
        | Call::NonMaximumSuppression
        | Call::SobelByte
        | Call::MagnitudeOf
        | Call::Sector
        | Call::Every(_) => Blur::Separable,
    }
}

fn boxed(line: &Line, pixels: &[u8], work: &mut [f32], out: &mut [u8]) -> u8 {
    let size = line.size();
    if line.has(b"made") {
        return number(BoxBlurFilter::new().apply(pixels, size, work, out));
    }
    kelontsira_box_blur(pixels, size.width, size.height, line.border(), work, out)
}

fn gaussian(line: &Line, pixels: &[u8], work: &mut [f32], out: &mut [u8]) -> u8 {
    let mut across = [0.0f32; ROOM];
    let size = line.size();
    kelontsira_gaussian_blur(
        pixels,
        size.width,
        size.height,
        line.list(b"across", &mut across),
        line.border(),
        work,
        out,
    )
}

fn separable(line: &Line, pixels: &[u8], work: &mut [f32], out: &mut [u8]) -> u8 {
    let mut across = [0.0f32; ROOM];
    let mut down = [0.0f32; ROOM];
    let size = line.size();
    kelontsira_apply_separable_kernel(
        pixels,
        size.width,
        size.height,
        line.number(b"told-across"),
        line.number(b"told-down"),
        line.list(b"across", &mut across),
        line.list(b"down", &mut down),
        line.border(),
        work,
        out,
    )
}
