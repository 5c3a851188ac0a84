// Three rows of a picture, lent as slices: a row, the one above it and the one below it. A row that is nowhere is lent as no bytes, and a
// byte that a row does not have is 0. From them the nine bytes about a column are taken.
ghost use Rattle.std.specs.Prelude.{◌≡◌, ◌+◌, ◌-◌, ◌≤◌, ◌<◌, ℕ, List, length, get_or};
ghost use Rattle.rules.specs.Picture.{filled};
ghost use Rattle.refusals.specs.Rows.{Picture};
ghost use Rattle.gradient.specs.Nine.{row_in, three_about, nine_of, nine_in, HasBeside, InnerColumns};
ghost use Rattle.gradient.specs.Gives.{Makes};

use border::coord::place;
use rules::{BorderMode, Size};
use std::marker::Model;
use std::ops::Range;

// Row y of a picture; no bytes where y is nowhere.
fn row_at<'a>(pixels: &'a [u8], size: Size, y: usize) -> &'a [u8]
    requires { Picture size pixels.now }
    ensures { result.now ≡ row_in size pixels.now y }
{
    if y < size.height {
        let start = y * size.width;
        return &pixels[start..start + size.width];
    }
    &[]
}

fn byte_at(row: &[u8], i: usize) -> u8
    ensures { result ≡ get_or row.now i 0 }
{
    row.get(i).copied().unwrap_or(0)
}

#[derive(Drop)]
pub(crate) struct Three<'a> {
    above: &'a [u8],
    row: &'a [u8],
    below: &'a [u8],
    border: BorderMode,
}

impl<'a> Model for Three<'a> {
    ghost use Rattle.gradient.specs.Nine.{Three};

    ghost Value = { Three };

    ghost use Rattle.gradient.specs.Three.{three_of, IsThree};

    ghost view = { three_of };

    ghost invariant = { IsThree };
}

impl<'a> Three<'a> {
    // Those about row y of a picture. Inlined, as is `nine_about`: a call for each of them took half as long again in a narrow picture.
    #[inline(always)]
    pub(crate) fn about(pixels: &'a [u8], size: Size, border: BorderMode, y: usize) -> Three<'a>
        requires { Picture size pixels.now × (y < size.height) }
        ensures { result ≡ three_about size border pixels.now y }
    {
        Three {
            above: row_at(pixels, size, place(y as u32, 1, size.height, border)),
            row: row_at(pixels, size, y),
            below: row_at(pixels, size, place((y + 2) as u32, 1, size.height, border)),
            border,
        }
    }

    // The nine about column x, whose own place and those beside it are given.
    fn nine_at(&self, left: usize, x: usize, right: usize) -> [u8; 9]
        ensures { result ≡ nine_of self.now left x right }
    {
        [
            byte_at(self.above, left),
            byte_at(self.above, x),
            byte_at(self.above, right),
            byte_at(self.row, left),
            byte_at(self.row, x),
            byte_at(self.row, right),
            byte_at(self.below, left),
            byte_at(self.below, x),
            byte_at(self.below, right),
        ]
    }

    // Through the border.
    #[inline(always)]
    pub(crate) fn nine_about(&self, x: usize) -> [u8; 9]
        requires { x < length self.now.row }
        ensures { result ≡ nine_in self.now x }
    {
        let width = self.row.len();
        let left = place(x as u32, 1, width, self.border);
        let right = place((x + 2) as u32, 1, width, self.border);
        self.nine_at(left, x, right)
    }

    // The same straight from the rows, where the columns beside are in all three: with no test, so that a loop does many columns at once.
    pub(crate) fn nine_inside(&self, x: usize) -> [u8; 9]
        requires { HasBeside self.now x 1 }
        ensures { result ≡ nine_in self.now x }
    {
        [
            self.above[x - 1],
            self.above[x],
            self.above[x + 1],
            self.row[x - 1],
            self.row[x],
            self.row[x + 1],
            self.below[x - 1],
            self.below[x],
            self.below[x + 1],
        ]
    }

    // Of n columns from column `from` on those that have both columns beside them in all three rows, counted from the first.
    pub(crate) fn inner_columns(&self, from: usize, n: usize) -> Range<usize>
        requires { from + n ≤ length self.now.row }
        ensures { InnerColumns self.now from n result.start result.end }
    {
        let width = self.row.len();
        if self.above.len() != width {
            return 0..0;
        }
        if self.below.len() != width {
            return 0..0;
        }
        let hi = n.min(width - width.min(from + 1));
        let lo = (1 - from.min(1)).min(hi);
        lo..hi
    }

    // Writes what `made` makes of the nine about each column from column `from` on, as many as there is room for. The inner columns are most
    // of them, and many of those are done at once.
    pub(crate) fn fill_by_nines<T: Copy, F: Fn(&[u8; 9]) -> T>(
        &self,
        from: usize,
        out: &mut [T],
        made: F,
    )
        requires callable { F.IsAlwaysCallable made }
        requires room { from + length out.old ≤ length self.now.row }
        ensures { (f : List ℕ → T) → Makes (F.post made) f
            → out.new ≡ filled (length out.old) (λ k. f (nine_in self.now (from + k))) out.old }
    {
        let inner = self.inner_columns(from, out.len());
        for k in 0..inner.start {
            out[k] = made(&self.nine_about(from + k));
        }
        for k in inner.start..inner.end {
            out[k] = made(&self.nine_inside(from + k));
        }
        for k in inner.end..out.len() {
            out[k] = made(&self.nine_about(from + k));
        }
    }
}
