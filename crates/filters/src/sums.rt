// Ordered f32 sums, a block of neighbouring pixels at once: each weight is added to every sum of the block before the next weight is, so
// each pixel's own sum keeps its order (01.Border.7) and the loops run over slices in step.
ghost use Rattle.std.specs.Prelude.{◌≡◌, ℕ, ◌+◌, ◌-◌, ◌*◌, ◌/◌, ◌≤◌, ◌<◌, length, get_or, pos, ◌-ℤ◌, Float};
ghost use Rattle.std.specs.Float.{nan};
ghost use Rattle.rules.specs.Limits.{max_side, max_taps};
ghost use Rattle.rules.specs.Picture.{filled};
ghost use Rattle.rules.specs.Border.{resolved};
ghost use Rattle.rules.specs.Sums.{whole_f32};
ghost use Rattle.rules.specs.Filters.{kernel_term};
ghost use Rattle.rules.proofs.Sums.{one_more_term};
ghost use Rattle.rules.proofs.Sampling.{place_in};
ghost use Rattle.filters.specs.Blocks.{added, row_at, samples_of, sampled, sum_at, Inner, Block, Kernelled};

use border::coord::place;
use rules::{BorderMode, Kernel, Size};

// The Rust's `Sample`: what a picture's entry counts in a sum. `missing` stands for an entry past the end, which is never read.
pub(crate) trait Sample: Copy {
    ghost value: { Self → Float };

    ghost missing: { Self };

    fn sample(self) -> f32
        ensures { result ≡ value self };
}

impl Sample for u8 {
    ghost value = { λ b. whole_f32 (pos b) };

    ghost missing = { 0 };

    fn sample(self) -> f32 {
        self as f32
    }
}

impl Sample for f32 {
    ghost value = { λ v. v };

    ghost missing = { nan };

    fn sample(self) -> f32 {
        self
    }
}

fn sample_at<T: Sample>(samples: &[T], i: usize) -> f32
    requires { i < length samples.now }
    ensures { result ≡ samples_of T.value T.missing samples.now i }
{
    samples[i].sample()
}

// One weight over each sum, with the sum's own sample.
fn add_each<F: Fn(usize) -> f32>(sums: &mut [f32], weight: f32, sample: F)
    requires { (i : ℕ) → i < length sums.old → F.pre sample i }
    ensures { (v : ℕ → Float)
        → ((i : ℕ) (s : Float) → i < length sums.old → F.post sample i s → s ≡ v i)
        → sums.new ≡ filled (length sums.old) (added sums.old v weight) sums.old }
{
    for (i, sum) in sums.iter_mut().enumerate() {
        *sum = *sum + sample(i) * weight;
    }
}

// ---- Borders: places are worked out for the columns outside the row only.

// Where coordinate at - half of a side is read; `side` itself where it is nowhere.
fn place_about(at: usize, half: usize, side: usize, border: BorderMode) -> usize
    requires { (0 < side) × (side ≤ max_side) × (at < 2 * max_side) × (half ≤ max_taps) }
    ensures { result ≡ place_in side (resolved border (pos at -ℤ pos half) side) }
{
    place(at as u32, half as u32, side, border)
}

// The sample of a row at coordinate at - half.
fn edge<T: Sample>(row: &[T], at: usize, half: usize, border: BorderMode) -> f32
    requires { (0 < length row.now)
        × (length row.now ≤ max_side)
        × (at < 2 * max_side)
        × (half ≤ max_taps) }
    ensures { result ≡ row_at T.value T.missing row.now border at half }
{
    let i = place_about(at, half, row.len(), border);
    if i < row.len() {
        return sample_at(row, i);
    }
    0.0
}

// Where a row's own coordinates lie among n in a row: from lo to hi, and lo is column s.
#[derive(Clone, Copy)]
struct Cut {
    lo: usize,
    hi: usize,
    s: usize,
}

fn inner_part(at: usize, half: usize, width: usize, n: usize) -> Cut
    requires { (width ≤ max_side) × (at + n ≤ 2 * max_side) × (half ≤ max_taps) }
    ensures { Inner at half width n result.lo result.hi result.s }
{
    let lo = half.saturating_sub(at).min(n);
    let end = (half + width).saturating_sub(at).min(n);
    Cut {
        lo,
        hi: end.max(lo),
        s: (at + lo).saturating_sub(half).min(width),
    }
}

// ---- A kernel over a picture, of bytes or of f32.

#[derive(Drop)]
pub(crate) struct Convolution<'a, T> {
    pub(crate) samples: &'a [T],
    pub(crate) size: Size,
    pub(crate) kernel: Kernel,
    pub(crate) weights: &'a [f32],
    pub(crate) border: BorderMode,
    ghost within: { Kernelled size kernel samples.now weights.now },
}

impl<T: Sample> Convolution<'_, T> {
    // One weight over a sum for each coordinate of a row from at - half on: those before the row, in it, and after it.
    fn add_row(&self, row: &[T], at: usize, weight: f32, sums: &mut [f32])
        requires { (length sums.old ≤ length row.now)
            × (length row.now ≤ max_side)
            × (at + length sums.old ≤ 2 * max_side) }
        ensures { sums.new
            ≡ filled (length sums.old)
            (added sums.old
            (λ i. row_at T.value T.missing row.now self.now.border (at + i) (self.now.kernel.width / 2))
            weight)
            sums.old }
    {
        let border = self.border;
        let half = self.kernel.width / 2;
        let Cut { lo, hi, s } = inner_part(at, half, row.len(), sums.len());
        let e = s + (hi - lo);
        let inner = &row[s..e];
        add_each(&mut sums[..lo], weight, |i| edge(row, at + i, half, border));
        add_each(&mut sums[lo..hi], weight, |i| sample_at(inner, i));
        add_each(
            &mut sums[hi..],
            weight,
            |i| edge(row, at + hi + i, half, border),
        );
    }

    // Place j of the flipped kernel, over a pixel for each sum, from column x of row y on.
    fn add_term(&self, x: usize, y: usize, j: usize, sums: &mut [f32])
        requires { Block self.now.size x y sums.old × (j < length self.now.weights.now) }
        ensures { sums.new
            ≡ filled (length sums.old)
            (one_more_term sums.old
            (λ i. kernel_term (sampled T.value T.missing self.now.samples.now self.now.size self.now.border) self.now.kernel self.now.weights.now (x + i) y)
            j)
            sums.old }
    {
        let width = self.size.width;
        let weight = self.weights[self.weights.len() - 1 - j];
        let half = self.kernel.height / 2;
        let r = place_about(
            y + j / self.kernel.width,
            half,
            self.size.height,
            self.border,
        );
        if r < self.size.height {
            let a = r * width;
            let e = a + width;
            let at = x + j % self.kernel.width;
            self.add_row(&self.samples[a..e], at, weight, sums);
            return;
        }
        add_each(sums, weight, |_| 0.0);
    }

    // A sum for each pixel from column x of row y on.
    pub(crate) fn block_sums(&self, x: usize, y: usize, sums: &mut [f32])
        requires { Block self.now.size x y sums.old }
        ensures { sums.new
            ≡ filled (length sums.old)
            (λ i. sum_at T.value T.missing self.now.samples.now self.now.size self.now.kernel self.now.weights.now self.now.border (x + i) y)
            sums.old }
    {
        sums.fill(0.0);
        for j in 0..self.weights.len() {
            self.add_term(x, y, j, sums);
        }
    }
}
