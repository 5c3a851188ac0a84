// Numbers: how one is written in a case, and what it stands for in each type that a case has numbers of.
ghost use Rattle.std.specs.Prelude.{◌≡◌, ◌≤◌, ◌%◌, ℕ};
ghost use Rattle.std.specs.Float.{binary32};
ghost use Rattle.std.specs.Float.Ieee.{of_bits};
ghost use Rattle.std.proofs.Common.{lit≤};
ghost use prog.Memory.{size};
ghost use denote.Memory.{lone};
ghost use Rattle.cases.specs.Lists.{Turned, signed_of};

use report::Entry;
use rules::codes::float;

// A type whose numbers a case may have: each stands for a pattern of 32 bits.
pub trait Number: Entry {
    ghost of: { ℕ → Self };

    fn from_pattern(bits: u32) -> Self
        ensures { result ≡ of bits };

    // No entry is larger, so that a buffer of them has a size.
    ghost small: { size (lone Self.row.mir) ≤ 8 };
}

// The low 8 bits.
impl Number for u8 {
    ghost of = { λ bits. bits % 256 };

    fn from_pattern(bits: u32) -> u8 {
        (bits % 256) as u8
    }

    ghost small = { lit≤ tt };
}

impl Number for u32 {
    ghost of = { λ bits. bits };

    fn from_pattern(bits: u32) -> u32 {
        bits
    }

    ghost small = { lit≤ tt };
}

impl Number for u64 {
    ghost of = { λ bits. bits };

    fn from_pattern(bits: u32) -> u64 {
        u64::from(bits)
    }

    ghost small = { lit≤ tt };
}

impl Number for usize {
    ghost of = { λ bits. bits };

    fn from_pattern(bits: u32) -> usize {
        bits as usize
    }

    ghost small = { lit≤ tt };
}

// The signed number of the low 16 bits.
impl Number for i16 {
    ghost of = { signed_of };

    fn from_pattern(bits: u32) -> i16 {
        ((bits % 65536) as u16).cast_signed()
    }

    ghost small = { lit≤ tt };
}

impl Number for f32 {
    ghost of = { of_bits binary32 };

    fn from_pattern(bits: u32) -> f32 {
        float(bits)
    }

    ghost small = { lit≤ tt };
}

// Writes what a list's numbers stand for, as far as there is room; how many.
pub fn turn<T: Number>(list: &[u32], out: &mut [T]) -> usize
    ensures { Turned T.of list.now out.old out.new result }
{
    let most = list.len().min(out.len());
    // By index: of what a loop over `out.iter_mut().zip(list)` writes nothing is known afterwards.
    for i in 0..most {
        out[i] = T::from_pattern(list[i]);
    }
    most
}

// The number of a word, and that many more: 12, -12 (the pattern of 32 bits), x7fc00000 (bits) or f12 (the bits of the float 12).
pub(crate) fn pattern(word: &[u8], more: u32) -> u32 {
    match word.split_first() {
        Some((b'x', rest)) => digits(rest, 16).wrapping_add(more),
        Some((b'f', rest)) => whole_float(digits(rest, 10).wrapping_add(more)),
        Some((b'-', rest)) => digits(rest, 10).wrapping_neg(),
        Some(_) => digits(word, 10).wrapping_add(more),
        None => 0,
    }
}

// What is no digit is misread, as the low half of its byte.
pub(crate) fn digits(text: &[u8], base: u32) -> u32 {
    text.iter().fold(0, |value: u32, byte| {
        value.wrapping_mul(base).wrapping_add(digit(*byte))
    })
}

// 0 to 9, a to f.
fn digit(byte: u8) -> u32 {
    let low = u32::from(byte % 16);
    if byte < b'a' { low } else { low + 9 }
}

fn whole_float(n: u32) -> u32 {
    report::bits(f32::from((n % 65536) as u16))
}
