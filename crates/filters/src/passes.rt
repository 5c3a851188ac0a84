// Convolutions over a whole picture, row after row: to f32 sums, or to bytes. Where the sums have no lent place they are kept for a short
// block of pixels at a time, so that little of the picture is left on the machine's stack.
ghost use Rattle.std.specs.Prelude.{◌≡◌, ◌≤◌, ◌<◌, length};
ghost use Rattle.rules.specs.Picture.{area, by_pixel, filled};
ghost use Rattle.rules.specs.Sums.{to_byte};
ghost use Rattle.filters.specs.Blocks.{sum_at, block_length};

use crate::byte::quantize_row;
use crate::sums::{Convolution, Sample};

// How many sums are kept at a time, in `sums`: so many that the calls stay within the stack that docs/FIRMWARE.md says is enough.
pub(crate) const BLOCK: usize = 108;

impl<T: Sample> Convolution<'_, T> {
    // The sums of every pixel, which stay f32 (01.Border.8).
    pub(crate) fn sums_to(&self, work: &mut [f32])
        requires { area self.now.size ≤ length work.old }
        ensures { work.new
            ≡ filled (area self.now.size)
            (by_pixel self.now.size (sum_at T.value T.missing self.now.samples.now self.now.size self.now.kernel self.now.weights.now self.now.border))
            work.old }
    {
        let width = self.size.width;
        if width == 0 {
            return;
        }
        for y in 0..self.size.height {
            let a = y * width;
            let e = a + width;
            self.block_sums(0, y, &mut work[a..e]);
        }
    }

    // The sums of row y, each to a byte.
    fn row_to(&self, y: usize, sums: &mut [f32], row: &mut [u8])
        requires { (y < self.now.size.height)
            × (block_length ≤ length sums.old)
            × (length row.old ≡ self.now.size.width) }
        ensures { row.new
            ≡ filled self.now.size.width
            (λ x. to_byte (sum_at T.value T.missing self.now.samples.now self.now.size self.now.kernel self.now.weights.now self.now.border x y))
            row.old }
    {
        let width = self.size.width;
        for k in 0..width.div_ceil(BLOCK) {
            let x = k * BLOCK;
            let n = BLOCK.min(width - x);
            let e = x + n;
            self.block_sums(x, y, &mut sums[..n]);
            quantize_row(&sums[..n], &mut row[x..e]);
        }
    }

    // The sums of every pixel, each to a byte.
    pub(crate) fn bytes_to(&self, sums: &mut [f32], out: &mut [u8])
        requires { (area self.now.size ≤ length out.old) × (block_length ≤ length sums.old) }
        ensures { out.new
            ≡ filled (area self.now.size)
            (by_pixel self.now.size
            (λ x y. to_byte (sum_at T.value T.missing self.now.samples.now self.now.size self.now.kernel self.now.weights.now self.now.border x y)))
            out.old }
    {
        let width = self.size.width;
        if width == 0 {
            return;
        }
        for y in 0..self.size.height {
            let a = y * width;
            let e = a + width;
            self.row_to(y, sums, &mut out[a..e]);
        }
    }
}
