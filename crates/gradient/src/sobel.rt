// Sobel's own bytes, a block of a row at a time: S of each pixel, a guess of its root, and the table of ends to test the guess by.
ghost use Rattle.std.specs.Prelude.{◌≡◌, true, ◌+◌, ◌≤◌, length};
ghost use Rattle.rules.specs.Picture.{area, filled};
ghost use Rattle.rules.specs.Answers.{number};
ghost use Rattle.rules.specs.Calls.{painted, sobel_at, sobel};
ghost use Rattle.refusals.specs.Rows.{Picture};
ghost use Rattle.gradient.specs.Rows.{byte_in};
ghost use Rattle.gradient.specs.Bytes.{end_of, byte_by, Tested};
ghost use Rattle.gradient.specs.Entries.{AllBelow};

use crate::fill::fill_by;
use crate::window::Three;
use pixel::byte::{EndTable, guess, is_byte, sum_of};
use refusals::filter::of_plain;
use rules::{BorderMode, Refusal, Size};

// How many pixels a block has at the most: room for their sums and ends is on the stack.
const BLOCK: usize = 256;

// A guess for each byte.
fn guesses(sums: &[u16], out: &mut [u8]) {
    for (byte, sum) in out.iter_mut().zip(sums) {
        *byte = guess(*sum);
    }
}

// The end of each byte, from the table. It stands in a loop of its own, since it does one pixel at a time, where the others do several.
fn ends_of(ends: &EndTable, bytes: &[u8], found: &mut [u16])
    requires { length found.old ≤ length bytes.now }
    ensures { found.new ≡ filled (length found.old) (end_of bytes.now) found.old }
{
    fill_by(found, |i| ends.end_of(bytes[i]));
}

// Whether all are. It looks at every pixel, so that it looks at several at once.
fn are_bytes(sums: &[u16], ends: &[u16], bytes: &[u8]) -> bool
    requires { Tested sums.now ends.now bytes.now }
    ensures { result ≡ true → AllBelow 0 (length bytes.now) (byte_by sums.now) bytes.now }
{
    let mut all = true;
    for i in 0..bytes.len() {
        all &= is_byte(ends[i], sums[i], bytes[i]);
    }
    all
}

// The bytes of a row of S: the guesses, if all are right, or else each by itself. Not one generic function with the magnitudes': the ends are
// looked up between, so it would take three closures, and each of its two callers would be longer than it is.
fn bytes_of(ends: &EndTable, sums: &[u16], found: &mut [u16], out: &mut [u8])
    requires { (length out.old ≤ length sums.now) × (length found.old ≡ length out.old) }
    ensures { out.new ≡ filled (length out.old) (byte_by sums.now) out.old }
{
    guesses(sums, out);
    ends_of(ends, out, found);
    if !are_bytes(sums, found, out) {
        fill_by(out, |i| ends.byte_of(sums[i] as u32));
    }
}

// A block of a row, from column `from` on, with room for its sums and their ends.
fn byte_block(
    ends: &EndTable,
    three: &Three,
    from: usize,
    sums: &mut [u16],
    found: &mut [u16],
    out: &mut [u8],
)
    requires { (from + length out.old ≤ length three.now.row)
        × (length sums.old ≡ length out.old)
        × (length found.old ≡ length out.old) }
    ensures { out.new ≡ filled (length out.old) (λ k. byte_in three.now (from + k)) out.old }
{
    three.fill_by_nines(from, sums, sum_of);
    bytes_of(ends, sums, found, out);
}

fn byte_row(ends: &EndTable, three: &Three, out: &mut [u8])
    requires { length out.old ≡ length three.now.row }
    ensures { out.new ≡ filled (length out.old) (byte_in three.now) out.old }
{
    let mut sums = [0u16; BLOCK];
    let mut found = [0u16; BLOCK];
    for at in (0..out.len()).step_by(BLOCK) {
        let end = out.len().min(at + BLOCK);
        let n = end - at;
        byte_block(
            ends,
            three,
            at,
            &mut sums[..n],
            &mut found[..n],
            &mut out[at..end],
        );
    }
}

// The table of ends is put on the stack here, once for a picture.
fn byte_rows(pixels: &[u8], size: Size, border: BorderMode, out: &mut [u8])
    requires { Picture size pixels.now × (area size ≤ length out.old) }
    ensures { out.new ≡ painted size (sobel_at size border pixels.now) out.old }
{
    if size.width == 0 {
        return;
    }
    let ends = EndTable::new();
    for y in 0..size.height {
        let three = Three::about(pixels, size, border, y);
        let start = y * size.width;
        byte_row(&ends, &three, &mut out[start..start + size.width]);
    }
}

// Sobel's filter: how it reads outside the picture.
#[derive(Clone, Copy)]
pub struct SobelFilter {
    pub border: BorderMode,
}

impl SobelFilter {
    // A default Sobel has Clamp (01.Border.13).
    pub const DEFAULT: SobelFilter = SobelFilter {
        border: BorderMode::Clamp,
    };

    pub fn new() -> SobelFilter
        ensures { result.border ≡ BorderMode.Clamp }
    {
        SobelFilter::DEFAULT
    }

    pub fn with_border(border: BorderMode) -> SobelFilter
        ensures { result.border ≡ border }
    {
        SobelFilter { border }
    }

    // Sobel's byte of each pixel.
    pub fn apply(self, pixels: &[u8], size: Size, out: &mut [u8]) -> Result<(), Refusal>
        ensures { (number result, out.new) ≡ sobel size self.border pixels.now out.old }
    {
        of_plain(pixels, size, out)?;
        byte_rows(pixels, size, self.border, out);
        Ok(())
    }
}

impl Default for SobelFilter {
    fn default() -> SobelFilter
        ensures { result.border ≡ BorderMode.Clamp }
    {
        SobelFilter::new()
    }
}
