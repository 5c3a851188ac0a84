// The magnitude of an S: 0, the f32 nearest its root, or 255 (01.Gradient.4). The root is guessed in floats, then tested or mended in whole
// numbers: no stage needs anything of the guess.
ghost use Rattle.std.specs.Prelude.{◌≡◌, ◌+◌, ◌*◌, ◌^◌, ◌<◌, true, ◌≢◌, from_bits};
ghost use Rattle.std.specs.Float.{binary32};
ghost use Rattle.rules.specs.Root.{cap_s, Near, near_root, root_of, magnitude_of};
ghost use Rattle.pixel.specs.Guess.{capped_s, first_guess, heron, guess_of, near_test, root_test, bits_test, bits_from, Tried, BitsOf, Target};

// From this S on the magnitude is 255.
const CAP: u32 = 65025;

// S, or the cap where it is less: a line of its own, as `held` in byte is, since each is the one of its definition.
fn capped(s: u32) -> u16
    ensures { result ≡ capped_s s }
{
    s.min(CAP) as u16
}

// A float within 5 in 100 of the root of f, from its bits.
#[tactic(auto, unfolding(crate::specs::Guess::first_guess))]
pub(crate) fn first_guess(f: f32) -> f32
    ensures { result ≡ first_guess f }
{
    if f > 0.0 {
        return f32::from_bits(f.to_bits() / 2 % 1073741824 + 532487669);
    }
    1.0
}

// One of Heron's steps from a towards the root of f.
pub(crate) fn heron(f: f32, a: f32) -> f32
    ensures { result ≡ heron f a }
{
    (a + f / a) * 0.5
}

// Tried on every s, this is the magnitude itself (`guess_holds`), so that mending finds nothing to do; no proof leans on it. Two of Heron's
// steps, and a third from the rest of the square, worked out in two halves of the digits since one f32 cannot hold it.
#[tactic(auto, unfolding(crate::specs::Guess::guess_of))]
pub fn guess(s: u32) -> f32
    ensures { result ≡ guess_of s }
{
    let f = capped(s) as f32;
    let a = first_guess(f);
    let y = heron(f, heron(f, a));
    let wide = y * 4097.0;
    let high = wide - (wide - y);
    let low = y - high;
    let rest = f - high * high - 2.0 * high * low - low * low;
    if s == 0 { 0.0 } else { y + rest / (y + y) }
}

// ---- a guess tested, with no branch

// The bits of a float from +0 or -0 on. 1 for any other float: no magnitude has these bits. A number and no `Option`, as `bits_from` has it,
// so that a loop over pixels takes no branch.
pub fn bits_of(y: f32) -> u32
    ensures { (result ≡ bits_from y) × ((result ≢ 1) → from_bits binary32 result ≡ y) }
{
    if 0.0 <= y { y.to_bits() } else { 1 }
}

// Whether m is the whole number nearest the root of t * 2^32: whether m² + m reaches it, by less than 2m.
fn is_near(t: u32, m: u32) -> bool
    requires { m < 2 ^ 24 }
    ensures { (result ≡ near_test t m) × (result ≡ true → Near (t * 2 ^ 32) m) }
{
    let v = (m as u64) * ((m + 1) as u64);
    let high = (v / 4294967296) as u32;
    let low = (v % 4294967296) as u32;
    (high == t) & (low < 2 * m)
}

// Whether b are the bits of the root of an s below the cap. 0x3f80_0000 are those of 1 and 0x4380_0000 those of 256; between them the
// exponent tells by which power of 4 the s must be multiplied for its root to have 24 binary digits.
fn are_root_bits(s: u32, b: u32) -> bool
    ensures { (result ≡ root_test s b) × (result ≡ true → BitsOf s b) }
{
    let t = s << (2 * (7 - (b / 8388608 + 1) % 8));
    let near = is_near(t, b % 8388608 + 8388608);
    (s < CAP) & (0x3f80_0000 <= b) & (b < 0x4380_0000) & near
}

// Whether b are the bits of the magnitude of s. 0x437f_0000 are those of 255.
pub fn are_bits(s: u32, b: u32) -> bool
    ensures { (result ≡ bits_test s b) × (result ≡ true → BitsOf s b) }
{
    ((s == 0) & (b == 0)) | ((CAP <= s) & (b == 0x437f_0000)) | are_root_bits(s, b)
}

// ---- a guess mended

// 4^(i + 16).
fn four_of(i: u32) -> u64
    requires { i < 8 }
    ensures { result ≡ 4 ^ (i + 16) }
{
    1u64 << (2 * i + 32)
}

// The 24 binary digits of a guess, by its bits: no method of f32 gives them. 2^23 is 8,388,608.
fn digits(y: f32) -> u64
    ensures { result < 2 ^ 24 }
{
    if y > 0.0 {
        return (y.to_bits() % 8388608 + 8388608) as u64;
    }
    8388608
}

// The whole number nearest the root of t, from any start. Two searches with no end known beforehand, so no range to go over.
fn mend(t: u64, g: u64) -> u64
    requires { Target t g }
    ensures { result ≡ near_root t }
{
    let mut m = g;
    while m * m + m < t {
        m += 1;
    }
    while t + m <= m * m {
        m -= 1;
    }
    m
}

// The f32 nearest the root of s, from any guess.
fn root_from(s: u32, y: f32) -> f32
    requires { (0 < s) × (s < cap_s) }
    ensures { result ≡ root_of s }
{
    let k = 23 - (31 - s.leading_zeros()) / 2;
    let t = (s as u64) * four_of(k - 16);
    let m = mend(t, digits(y));
    f32::from_bits((150 - k) * 8388608 + ((m - 8388608) as u32))
}

// The magnitude of S: 0, the nearest root, or 255 (01.Gradient.4).
pub fn magnitude_of(s: u32) -> f32
    ensures { result ≡ magnitude_of s }
{
    if s == 0 {
        return 0.0;
    }
    if s < CAP {
        return root_from(s, guess(s));
    }
    255.0
}

// Whether the guess passes its test, so that nothing is mended: it is then the magnitude already. For a run over every S (docs/LOOSE.md).
pub fn guess_holds(s: u32) -> bool
    ensures { Tried s result }
{
    are_bits(s, bits_of(guess(s)))
}
