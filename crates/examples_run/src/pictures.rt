// The calls that make a byte picture of a byte picture with no work buffer, and the resolver.
use crate::call::Picture;
use cases::{Line, ROOM, lines};
use filters::sharpen::SharpenFilter;
use gradient::sobel::SobelFilter;
use kelontsira::filtering::{
    kelontsira_apply_kernel, kelontsira_median, kelontsira_resolve_coord, kelontsira_sharpen,
    kelontsira_sobel,
};
use median::MedianFilter;
use rules::number;
use std::io;

// What stands for the place of a coordinate that is nowhere, and of one that is refused.
const NOWHERE: usize = 1000;

const REFUSED: usize = 2000;

// Where a coordinate is read.
pub(crate) fn resolved(rt: &impl Print, line: &Line) -> io::Result<()> {
    let side = line.number(b"side");
    let mut place = 0;
    let refusal = kelontsira_resolve_coord(coord(line), side, line.border(), &mut place);
    let got = match refusal {
        0 if place == side => NOWHERE,
        0 => place,
        _ => REFUSED,
    };
    lines::count(rt, b"", line, b"place", got)
}

// A number, or one of the words least and greatest.
fn coord(line: &Line) -> i64 {
    match line.initial(b"coord") {
        Some(b'l') => i64::MIN,
        Some(b'g') => i64::MAX,
        _ => i64::from(line.number::<u32>(b"coord").cast_signed()),
    }
}

pub(crate) fn run(rt: &impl Print, line: &Line, picture: Picture) -> io::Result<()> {
    let mut pixels = [0u8; ROOM];
    let mut out = [0u8; ROOM];
    let pixels = line.list(b"pixels", &mut pixels);
    let out = line.list(b"out", &mut out);
    let got = if line.has(b"made") {
        made(line, picture, pixels, out)
    } else {
        called(line, picture, pixels, out)
    };
    left(rt, line, picture, got, out)
}

// The stages are shown in another way than the filters.
fn left(rt: &impl Print, line: &Line, picture: Picture, got: u8, out: &[u8]) -> io::Result<()> {
    let is_stage = match picture {
        Picture::Sobel | Picture::Median => true,
        Picture::ApplyKernel | Picture::Sharpen => false,
    };
    if line.has(b"first") {
        lines::number(rt, b"", line, got)?;
        let (first, rest): (&[u8], &[u8]) = if is_stage {
            (b"  all the same", b"  past the picture")
        } else {
            (b"  all copied", b"  kept from there on")
        };
        return lines::largest(rt, line, out, (first, line.number(b"are")), (rest, 7));
    }
    if is_stage {
        lines::number(rt, b"", line, got)?;
        return lines::list(rt, b"  its bytes", line, b"out", b"out-after", out);
    }
    lines::list_or_number(rt, line, got, b"  its bytes", out)
}

fn called(line: &Line, picture: Picture, pixels: &[u8], out: &mut [u8]) -> u8 {
    let size = line.size();
    let border = line.border();
    match picture {
        Picture::ApplyKernel => kernel(line, pixels, out),
        Picture::Sharpen => kelontsira_sharpen(pixels, size.width, size.height, border, out),
        Picture::Sobel => kelontsira_sobel(pixels, size.width, size.height, border, out),
        Picture::Median => {
            let window = line.number(b"window");
            kelontsira_median(pixels, size.width, size.height, window, border, out)
        }
    }
}

fn kernel(line: &Line, pixels: &[u8], out: &mut [u8]) -> u8 {
    let mut weights = [0.0f32; ROOM];
    let size = line.size();
    kelontsira_apply_kernel(
        pixels,
        size.width,
        size.height,
        line.number(b"columns"),
        line.number(b"rows"),
        line.list(b"weights", &mut weights),
        line.border(),
        out,
    )
}

// The filters as they are made without a border: by new, default, DEFAULT, or by new with the default size. A kernel has no
// filter: a case that asks for one, and none does, has the median.
fn made(line: &Line, picture: Picture, pixels: &[u8], out: &mut [u8]) -> u8 {
    let size = line.size();
    number(match picture {
        Picture::Sharpen => SharpenFilter::new().apply(pixels, size, out),
        Picture::Sobel => sobel_filter(line).apply(pixels, size, out),
        Picture::ApplyKernel | Picture::Median => median_filter(line).apply(pixels, size, out),
    })
}

fn sobel_filter(line: &Line) -> SobelFilter {
    match line.initial(b"made") {
        Some(b'n') => SobelFilter::new(),
        Some(b'd') => SobelFilter::default(),
        _ => SobelFilter::DEFAULT,
    }
}

fn median_filter(line: &Line) -> MedianFilter {
    match line.initial(b"made") {
        Some(b'n') => MedianFilter::new(line.number(b"window")),
        Some(b'd') => MedianFilter::default(),
        Some(b's') => MedianFilter::new(MedianFilter::DEFAULT_SIZE),
        _ => MedianFilter::DEFAULT,
    }
}
