// Non-maximum suppression of the magnitudes, by the sector of each gradient (01.Gradient.13 to 01.Gradient.19).
ghost use Rattle.std.specs.Prelude.{◌≡◌, cond, ◌≤◌, length};
ghost use Rattle.rules.specs.Picture.{area, filled};
ghost use Rattle.rules.specs.Sector.{offset};
ghost use Rattle.rules.specs.Suppression.{suppressed_at};
ghost use Rattle.rules.specs.Answers.{number};
ghost use Rattle.rules.specs.Calls.{painted, non_maximum_suppression};
ghost use Rattle.gradient.specs.Lent.{Around, GradientAround, InnerRow, Pictures};
ghost use Rattle.gradient.specs.Beside.{at_offset, first_at, second_at, kept_at, row_at};

use pixel::sector::{Offset, first_neighbour, sector};
use refusals::gradient::of_suppression;
use rules::{Refusal, Size};
use scratch::clear;

// One of two by a test, with no branch: loops made of it run over many pixels at once.
fn pick(test: bool, yes: f32, no: f32) -> f32
    ensures { result ≡ cond test yes no }
{
    if test { yes } else { no }
}

// The magnitude at an offset: the one in the pixel's own row, or one of three in the row that the offset leads to. All four are read, so
// that a row goes many pixels at once.
fn at_offset(to: Offset, beside: f32, left: f32, middle: f32, right: f32) -> f32
    ensures { result ≡ at_offset (offset to.dx to.dy) beside left middle right }
{
    let across = pick(to.dx == 0, middle, pick(to.dx == 1, right, left));
    pick(to.dy == 0, beside, across)
}

// The first neighbour of inner pixel i.
fn neighbour_at(magnitude: &[f32], width: usize, i: usize, to: Offset) -> f32
    requires { Around width magnitude.now i }
    ensures { result ≡ first_at width magnitude.now i (offset to.dx to.dy) }
{
    let above = i - width;
    at_offset(
        to,
        magnitude[i - 1],
        magnitude[above - 1],
        magnitude[above],
        magnitude[above + 1],
    )
}

// The second: what stands on the other side of the pixel. Not one function with the first: one reader of any place about a pixel took 1.6 to
// 2.2 times as long.
fn neighbour_opposite(magnitude: &[f32], width: usize, i: usize, to: Offset) -> f32
    requires { Around width magnitude.now i }
    ensures { result ≡ second_at width magnitude.now i (offset to.dx to.dy) }
{
    let below = i + width;
    at_offset(
        to,
        magnitude[i + 1],
        magnitude[below + 1],
        magnitude[below],
        magnitude[below - 1],
    )
}

// The three slices go on as they are lent, and no struct: each function needs another fact of them (`Pictures`, `InnerRow`, `GradientAround`),
// and none would be shorter. What stands at inner pixel i afterwards: its magnitude, if it is at least both neighbours'.
fn suppressed(magnitude: &[f32], gx: &[i16], gy: &[i16], width: usize, i: usize) -> f32
    requires { GradientAround width magnitude.now gx.now gy.now i }
    ensures { result ≡ kept_at width magnitude.now gx.now gy.now i }
{
    let to = first_neighbour(sector(gx[i], gy[i]));
    let first = neighbour_at(magnitude, width, i, to);
    let second = neighbour_opposite(magnitude, width, i, to);
    let m = magnitude[i];
    pick((first <= m) & (second <= m), m, 0.0)
}

// An inner row, whose first pixel is `start`: +0, its inner pixels, +0.
fn suppress_row(magnitude: &[f32], gx: &[i16], gy: &[i16], start: usize, out: &mut [f32])
    requires { InnerRow magnitude.now gx.now gy.now start (length out.old) }
    ensures { out.new
        ≡ filled (length out.old) (row_at (length out.old) magnitude.now gx.now gy.now start) out.old }
{
    let width = out.len();
    out[0] = 0.0;
    for x in 1..width - 1 {
        out[x] = suppressed(magnitude, gx, gy, width, start + x);
    }
    out[width - 1] = 0.0;
}

// A picture with inner pixels: its outer rows are +0, and each row between has a row above it and one below.
fn suppress_rows(magnitude: &[f32], gx: &[i16], gy: &[i16], size: Size, out: &mut [f32])
    requires { Pictures size magnitude.now gx.now gy.now × (area size ≤ length out.old) × (3 ≤ size.width) × (3 ≤ size.height) }
    ensures { out.new
        ≡ painted size (suppressed_at size magnitude.now gx.now gy.now) out.old }
{
    let width = size.width;
    clear(out, width, 0.0);
    for y in 1..size.height - 1 {
        let start = y * width;
        suppress_row(magnitude, gx, gy, start, &mut out[start..start + width]);
    }
    let last = (size.height - 1) * width;
    clear(&mut out[last..last + width], width, 0.0);
}

// The whole picture: where a side is under 3 no pixel is an inner one.
fn suppress(magnitude: &[f32], gx: &[i16], gy: &[i16], size: Size, out: &mut [f32])
    requires { Pictures size magnitude.now gx.now gy.now × (area size ≤ length out.old) }
    ensures { out.new
        ≡ painted size (suppressed_at size magnitude.now gx.now gy.now) out.old }
{
    let n = size.width * size.height;
    if (size.width < 3) | (size.height < 3) {
        clear(out, n, 0.0);
        return;
    }
    suppress_rows(magnitude, gx, gy, size, out);
}

// Keeps what is not below its two neighbours; all else is +0 (01.Gradient.18, 01.Gradient.19).
pub fn non_maximum_suppression(
    magnitude: &[f32],
    gx: &[i16],
    gy: &[i16],
    size: Size,
    out: &mut [f32],
) -> Result<(), Refusal>
    ensures { (number result, out.new)
        ≡ non_maximum_suppression size magnitude.now gx.now gy.now out.old }
{
    of_suppression(magnitude, gx, gy, size, out)?;
    suppress(magnitude, gx, gy, size, out);
    Ok(())
}
