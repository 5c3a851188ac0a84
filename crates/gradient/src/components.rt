// Sobel's two components of every pixel, a row at a time: from the row, the one above it and the one below it.
ghost use Rattle.std.specs.Prelude.{◌≡◌, ◌≤◌, length};
ghost use Rattle.rules.specs.Picture.{area, filled};
ghost use Rattle.rules.specs.Gradient.{gx_table, gy_table, gradient_at};
ghost use Rattle.rules.specs.Answers.{number};
ghost use Rattle.rules.specs.Calls.{painted, sobel_gradients};
ghost use Rattle.refusals.specs.Rows.{Picture};
ghost use Rattle.gradient.specs.Rows.{component_in};

use crate::window::Three;
use pixel::components::{gx_of, gy_of};
use refusals::gradient::of_gradients;
use rules::{BorderMode, Refusal, Size};

// Both components of each nine at once: two calls of `fill_by_nines`, one for each, took 1.31 times as long.
fn gradient_row(three: &Three, gx: &mut [i16], gy: &mut [i16])
    requires { (length gx.old ≡ length three.now.row) × (length gy.old ≡ length three.now.row) }
    ensures { (gx.new ≡ filled (length gx.old) (component_in gx_table three.now) gx.old)
        × (gy.new ≡ filled (length gy.old) (component_in gy_table three.now) gy.old) }
{
    let inner = three.inner_columns(0, gx.len());
    for x in 0..inner.start {
        let nine = three.nine_about(x);
        gx[x] = gx_of(&nine);
        gy[x] = gy_of(&nine);
    }
    for x in inner.start..inner.end {
        let nine = three.nine_inside(x);
        gx[x] = gx_of(&nine);
        gy[x] = gy_of(&nine);
    }
    for x in inner.end..gx.len() {
        let nine = three.nine_about(x);
        gx[x] = gx_of(&nine);
        gy[x] = gy_of(&nine);
    }
}

// A loop of its own, as Sobel's bytes have one: it writes two buffers, and theirs one, by the table that it lends.
fn gradient_rows(pixels: &[u8], size: Size, border: BorderMode, gx: &mut [i16], gy: &mut [i16])
    requires { Picture size pixels.now × (area size ≤ length gx.old) × (area size ≤ length gy.old) }
    ensures { (gx.new ≡ painted size (gradient_at gx_table size border pixels.now) gx.old)
        × (gy.new ≡ painted size (gradient_at gy_table size border pixels.now) gy.old) }
{
    for y in 0..size.height {
        let three = Three::about(pixels, size, border, y);
        let start = y * size.width;
        let end = start + size.width;
        gradient_row(&three, &mut gx[start..end], &mut gy[start..end]);
    }
}

// The two components of each pixel, within 1020 of zero and of one parity (01.Gradient.2).
pub fn sobel_gradients(
    pixels: &[u8],
    size: Size,
    border: BorderMode,
    gx: &mut [i16],
    gy: &mut [i16],
) -> Result<(), Refusal>
    ensures { (number result, (gx.new, gy.new))
        ≡ sobel_gradients size border pixels.now gx.old gy.old }
{
    of_gradients(pixels, size, gx, gy)?;
    gradient_rows(pixels, size, border, gx, gy);
    Ok(())
}
