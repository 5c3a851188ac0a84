// The conversion of an f32 to a byte, without a cast and without a branch on the data: 2^23 is added, and the bits of the sum are read.
ghost use Rattle.std.specs.Prelude.{◌≡◌, false, ◌+◌, ◌*◌, ◌≤◌, length, get_or, negsuc};
ghost use Rattle.std.specs.Float.{fin, nan};
ghost use Rattle.rules.specs.Picture.{filled};
ghost use Rattle.rules.specs.Sums.{to_byte};
ghost use Rattle.filters.specs.Byte.{held_of, Small, Near};

// Held to 0..255; NaN gives 0. By tests and not by `max` and `min`: what the Rust's library did is worked out here (01.Change.5).
fn held(v: f32) -> f32
    ensures { result ≡ held_of v }
{
    if v > 0.0 {
        if v < 255.0 {
            return v;
        }
        return 255.0;
    }
    0.0
}

// A nearest whole number: at a half, either one. From 2^23 to 2^24 the f32 are the whole numbers, so the sum rounds to one.
fn near(u: f32) -> u8
    requires { Small u }
    ensures { Near u result }
{
    (f32::to_bits(u + 8388608.0) - 1258291200) as u8
}

// n and a half, exactly.
fn half_above(n: u8) -> f32
    ensures { result ≡ fin false (2 * n + 1) (negsuc 0) }
{
    (n as f32) + 0.5
}

// The nearest whole number, halves away from zero, held to 0..255; NaN gives 0 (01.Border.8).
pub(crate) fn quantize(v: f32) -> u8
    ensures { result ≡ to_byte v }
{
    let u = held(v);
    let n = near(u);
    if u < half_above(n) { n } else { n + 1 }
}

// The sums to bytes, as many.
pub(crate) fn quantize_row(sums: &[f32], out: &mut [u8])
    requires { length sums.now ≡ length out.old }
    ensures { out.new
        ≡ filled (length out.old) (λ i. to_byte (get_or sums.now i nan)) out.old }
{
    for i in 0..out.len() {
        out[i] = quantize(sums[i]);
    }
}
