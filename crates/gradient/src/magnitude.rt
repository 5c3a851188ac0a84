// The magnitude at every pixel: guessed, tested, and mended if a guess fails.
ghost use Rattle.std.specs.Prelude.{◌≡◌, true, ◌<◌, length};
ghost use Rattle.std.specs.Float.{nan};
ghost use Rattle.rules.specs.Picture.{filled};
ghost use Rattle.rules.specs.Answers.{number};
ghost use Rattle.rules.specs.Calls.{magnitude_at, gradient_magnitude};
ghost use Rattle.gradient.specs.Entries.{AllBelow};

use crate::fill::fill_by;
use pixel::components::energy;
use pixel::root::{are_bits, bits_of, guess, magnitude_of};
use refusals::gradient::of_magnitude;
use rules::{Refusal, Size};

// A guess for each entry. It promises nothing of them, so that the loop is free to be fast. Not one with Sobel's:
// that goes over one slice, and this over two.
fn guesses(gx: &[i16], gy: &[i16], magnitude: &mut [f32]) {
    for ((m, x), y) in magnitude.iter_mut().zip(gx).zip(gy) {
        *m = guess(energy(*x, *y));
    }
}

// Whether each entry is the magnitude, as every guess should be. It looks at all of them, so that it looks at many at once.
fn are_magnitudes(gx: &[i16], gy: &[i16], magnitude: &[f32]) -> bool
    requires { (length gx.now ≡ length magnitude.now) × (length gy.now ≡ length magnitude.now) }
    ensures { result ≡ true → AllBelow nan (length magnitude.now) (magnitude_at gx.now gy.now) magnitude.now }
{
    let mut all = true;
    for i in 0..magnitude.len() {
        all &= are_bits(energy(gx[i], gy[i]), bits_of(magnitude[i]));
    }
    all
}

// The magnitude of one entry, by itself.
fn magnitude_by(gx: &[i16], gy: &[i16], i: usize) -> f32
    requires { (i < length gx.now) × (i < length gy.now) }
    ensures { result ≡ magnitude_at gx.now gy.now i }
{
    magnitude_of(energy(gx[i], gy[i]))
}

// The magnitude of each entry: the guesses, if all are right, or else each by itself.
fn magnitudes(gx: &[i16], gy: &[i16], magnitude: &mut [f32])
    requires { (length gx.now ≡ length magnitude.old) × (length gy.now ≡ length magnitude.old) }
    ensures { magnitude.new ≡ filled (length magnitude.old) (magnitude_at gx.now gy.now) magnitude.old }
{
    guesses(gx, gy, magnitude);
    if !are_magnitudes(gx, gy, magnitude) {
        fill_by(magnitude, |i| magnitude_by(gx, gy, i));
    }
}

// The magnitude at every pixel.
pub fn gradient_magnitude(
    gx: &[i16],
    gy: &[i16],
    size: Size,
    magnitude: &mut [f32],
) -> Result<(), Refusal>
    ensures { (number result, magnitude.new)
        ≡ gradient_magnitude size gx.now gy.now magnitude.old }
{
    of_magnitude(gx, gy, size, magnitude)?;
    magnitudes(gx, gy, &mut magnitude[..size.width * size.height]);
    Ok(())
}
