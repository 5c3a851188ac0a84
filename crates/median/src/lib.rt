// The median of a square window, by counts of the 256 byte values that move along a row: one column out, one in.
#![tactic(auto)]

ghost use Rattle.std.specs.Prelude.{ℕ, slice_index, ◌≡◌, ◌+◌, ◌-◌, ◌*◌, ◌/◌, ◌≤◌, ◌<◌, ltb, length};
ghost use Rattle.rules.specs.Limits.{max_side, max_window};
ghost use Rattle.rules.specs.Picture.{area, bit, filled};
ghost use Rattle.rules.specs.Median.{default_window};
ghost use Rattle.rules.specs.Answers.{number};
ghost use Rattle.rules.specs.Calls.{median};
ghost use Rattle.rules.specs.declared.BorderMode.TheVariants.{Clamp};
ghost use Rattle.border.specs.Lent.{written_row};
ghost use Rattle.refusals.specs.Rows.{Picture};
ghost use Rattle.median.specs.Counts.{median_of, row_place, column_place, column_at, belows, counted_below, put_all, take_all, Counts, Counted, Middle, Selected, Holds, Rows, About};

use border::coord::place;
use border::picture::read;
use refusals::filter::of_median;
use rules::{BorderMode, MAX_WINDOW, Refusal, Size};

// ---- The window of a row.

// The picture, how it is read outside itself, and where the rows of the window are read, which has as many columns.
#[derive(Clone, Copy)]
struct Window<'a> {
    pixels: &'a [u8],
    size: Size,
    border: BorderMode,
    rows: &'a [usize],
    ghost fits: { Rows size pixels.now rows.now },
    ghost bytes: { (i : ℕ) → slice_index pixels.now i < 256 },
}

// A value, and how many counted bytes are below it.
#[derive(Clone, Copy)]
struct Found {
    value: usize,
    below: usize,
}

impl Window<'_> {
    // Where column c is read, counted from the left-hand column of the window about column 0.
    fn place_column(&self, c: usize) -> usize
        requires { c < 2 * max_side }
        ensures { result ≡ column_place self.now.size (length self.now.rows.now) self.now.border c }
    {
        place(
            c as u32,
            (self.rows.len() / 2) as u32,
            self.size.width,
            self.border,
        )
    }

    // A column in: its bytes are counted, and those below the value besides. The counts are lent beside what was found, since a column changes
    // both and `select` only reads the first. What the loop reads is in variables, so that its test of the
    // column is made once.
    fn put_column(&self, x: usize, found: Found, counts: &mut [u16]) -> Found
        requires { Counts counts.old max_side × (found.below + max_window ≤ max_side) }
        ensures { (counts.new ≡ put_all counts.old (column_at self.now.pixels.now self.now.size self.now.rows.now x) (length self.now.rows.now))
            × (result.value ≡ found.value)
            × (result.below ≡ found.below + belows (column_at self.now.pixels.now self.now.size self.now.rows.now x) (length self.now.rows.now) found.value) }
    {
        let value = found.value;
        let mut below = found.below;
        let pixels = self.pixels;
        let size = self.size;
        let rows = self.rows;
        for row in rows {
            let b = read(pixels, size, x, *row) as usize;
            counts[b] += 1;
            below += usize::from(b < value);
        }
        Found { value, below }
    }

    // A column out. Beside `put_column` since each asks for what the other does not, room above or a column that is counted: one function of
    // both would hold both bodies in an `if`, and both contracts under conditions.
    fn take_column(&self, x: usize, found: Found, counts: &mut [u16]) -> Found
        requires { Counts counts.old max_side
            × Counted counts.old (column_at self.now.pixels.now self.now.size self.now.rows.now x) (length self.now.rows.now) found.value found.below }
        ensures { (counts.new ≡ take_all counts.old (column_at self.now.pixels.now self.now.size self.now.rows.now x) (length self.now.rows.now))
            × (result.value ≡ found.value)
            × (result.below ≡ found.below - belows (column_at self.now.pixels.now self.now.size self.now.rows.now x) (length self.now.rows.now) found.value) }
    {
        let value = found.value;
        let mut below = found.below;
        let pixels = self.pixels;
        let size = self.size;
        let rows = self.rows;
        for row in rows {
            let b = read(pixels, size, x, *row) as usize;
            counts[b] -= 1;
            below -= usize::from(b < value);
        }
        Found { value, below }
    }

    // The counts of the window about column 0.
    fn first_window(&self, counts: &mut [u16])
        requires { Holds self.now.pixels.now self.now.size self.now.border self.now.rows.now 0 0 counts.old }
        ensures { Holds self.now.pixels.now self.now.size self.now.border self.now.rows.now 0 (length self.now.rows.now) counts.new }
    {
        for c in 0..self.rows.len() {
            let x = self.place_column(c);
            self.put_column(x, Found { value: 0, below: 0 }, counts);
        }
    }

    // From the window about column x to the next one's: one column out and one in.
    fn move_window(&self, x: usize, found: Found, counts: &mut [u16]) -> Found
        requires { (x < self.now.size.width)
            × Holds self.now.pixels.now self.now.size self.now.border self.now.rows.now x (length self.now.rows.now) counts.old
            × Middle counts.old found.value found.below
            × (found.below ≤ max_window * max_window) }
        ensures { Holds self.now.pixels.now self.now.size self.now.border self.now.rows.now (x + 1) (length self.now.rows.now) counts.new
            × Middle counts.new result.value result.below }
    {
        let left = self.place_column(x);
        let right = self.place_column(x + self.rows.len());
        let left_out = self.take_column(left, found, counts);
        self.put_column(right, left_out, counts)
    }

    // The medians of row y, about which the window's rows are.
    fn slide(&self, y: usize, out: &mut [u8])
        requires { About self.now.size self.now.border y self.now.rows.now × (area self.now.size ≤ length out.old) }
        ensures { out.new
            ≡ written_row self.now.size y (median_of self.now.size (length self.now.rows.now) self.now.border self.now.pixels.now) out.old }
    {
        let mut counts = [0u16; 256];
        self.first_window(&mut counts);
        let item = self.rows.len() * self.rows.len() / 2;
        let a = y * self.size.width;
        let mut found = Found { value: 0, below: 0 };
        for x in 0..self.size.width {
            found = select(&counts, item, found);
            out[a + x] = found.value as u8;
            found = self.move_window(x, found, &mut counts);
        }
    }
}

// The value of item `item` of the counted bytes in order, sought from any value on: down, then up, with no end known beforehand.
fn select(counts: &[u16], item: usize, found: Found) -> Found
    requires { Counts counts.now max_side
        × Middle counts.now found.value found.below
        × (item < counted_below counts.now 256)
        × (item ≤ max_side) }
    ensures { Selected counts.now item result.value result.below }
{
    let mut v = found.value;
    let mut n = found.below;
    while item < n {
        v -= 1;
        n -= counts[v] as usize;
    }
    while n + (counts[v] as usize) <= item {
        n += counts[v] as usize;
        v += 1;
    }
    Found { value: v, below: n }
}

// ---- The rows.

// Where each row of the window about row y is read.
fn place_rows(size: Size, border: BorderMode, window: usize, y: usize, rows: &mut [usize])
    requires { (y < size.height) × (size.height ≤ max_side) × (window ≤ max_window) × (window ≤ length rows.old) }
    ensures { rows.new ≡ filled window (row_place size window border y) rows.old }
{
    for j in 0..window {
        rows[j] = place((y + j) as u32, (window / 2) as u32, size.height, border);
    }
}

fn median_row(
    pixels: &[u8],
    size: Size,
    border: BorderMode,
    window: usize,
    y: usize,
    out: &mut [u8],
)
    requires { Picture size pixels.now
        × (0 < size.width)
        × (y < size.height)
        × (0 < window)
        × (window ≤ max_window)
        × (area size ≤ length out.old) }
    ensures { out.new ≡ written_row size y (median_of size window border pixels.now) out.old }
{
    let mut rows = [0usize; MAX_WINDOW];
    place_rows(size, border, window, y, &mut rows);
    let about = Window {
        pixels,
        size,
        border,
        rows: &rows[..window],
    };
    about.slide(y, out);
}

fn median_rows(pixels: &[u8], size: Size, border: BorderMode, window: usize, out: &mut [u8])
    requires { Picture size pixels.now
        × (0 < window)
        × (window ≤ max_window)
        × (area size ≤ length out.old) }
    ensures { out.new ≡ filled (area size) (median_of size window border pixels.now) out.old }
{
    if size.width == 0 {
        return;
    }
    for y in 0..size.height {
        median_row(pixels, size, border, window, y, out);
    }
}

// The median filter: the side of its window, and how it reads outside the picture.
#[derive(Clone, Copy)]
pub struct MedianFilter {
    pub size: usize,
    pub border: BorderMode,
}

impl MedianFilter {
    // A default median has window 3 with Clamp (01.Border.13).
    pub const DEFAULT_SIZE: usize = 3;

    pub const DEFAULT: MedianFilter = MedianFilter {
        size: MedianFilter::DEFAULT_SIZE,
        border: BorderMode::Clamp,
    };

    // The constant under a contract, so that a changed one is refused.
    pub fn default_size() -> usize
        ensures { result ≡ default_window }
    {
        MedianFilter::DEFAULT_SIZE
    }

    pub fn new(size: usize) -> MedianFilter
        ensures { (result.size ≡ size) × (result.border ≡ BorderMode.Clamp) }
    {
        MedianFilter::with_border(size, BorderMode::Clamp)
    }

    pub fn with_border(size: usize, border: BorderMode) -> MedianFilter
        ensures { (result.size ≡ size) × (result.border ≡ border) }
    {
        MedianFilter { size, border }
    }

    // The median of each pixel's window.
    pub fn apply(self, pixels: &[u8], size: Size, out: &mut [u8]) -> Result<(), Refusal>
        ensures { (number result, out.new) ≡ median size self.size self.border pixels.now out.old }
    {
        of_median(pixels, size, self.size, out)?;
        median_rows(pixels, size, self.border, self.size, out);
        Ok(())
    }
}

impl Default for MedianFilter {
    ghost is_default = { λ filter. (filter.size ≡ default_window) × (filter.border ≡ Clamp) };

    fn default() -> MedianFilter {
        MedianFilter::DEFAULT
    }
}
