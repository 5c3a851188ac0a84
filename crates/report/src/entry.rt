// What a line can show: how one entry is written, and when two are shown as the same.
ghost use Rattle.std.specs.Prelude.{◌≡◌, Bool, eqb, pos, Float};
ghost use Rattle.std.specs.Int.{w16};
ghost use Rattle.std.proofs.Common.{of_z};
ghost use Rattle.std.specs.Float.Ieee as Ieee;
ghost use Rattle.report.specs.Tests.{shown_bits};

use std::fmt::Display;
use std::{fmt, io};

pub trait Entry: Copy + Drop + Display {
    ghost alike: { Self → Self → Bool };

    // What stands for an entry past the end of a list.
    ghost none: { Self };

    // Writes a space and the entry.
    fn show(&self, rt: &impl Print) -> io::Result<()> {
        print!(rt; " {self}")
    }

    fn is(&self, other: &Self) -> bool
        ensures { result ≡ alike self.now other.now };
}

// Five whole numbers, each with an impl of its own: an impl may not be written by a macro, and a default of `alike` sees no other member.
impl Entry for u8 {
    ghost alike = { eqb };

    ghost none = { 0 };

    fn is(&self, other: &u8) -> bool {
        self == other
    }
}

impl Entry for u32 {
    ghost alike = { eqb };

    ghost none = { 0 };

    fn is(&self, other: &u32) -> bool {
        self == other
    }
}

impl Entry for u64 {
    ghost alike = { eqb };

    ghost none = { 0 };

    fn is(&self, other: &u64) -> bool {
        self == other
    }
}

impl Entry for usize {
    ghost alike = { eqb };

    ghost none = { 0 };

    fn is(&self, other: &usize) -> bool {
        self == other
    }
}

impl Entry for i16 {
    ghost alike = { λ a b. eqb (of_z w16 a) (of_z w16 b) };

    ghost none = { pos 0 };

    fn is(&self, other: &i16) -> bool {
        self == other
    }
}

// By its bits.
impl Entry for f32 {
    ghost alike = { λ a b. eqb (shown_bits a) (shown_bits b) };

    ghost none = { Ieee.nan };

    fn show(&self, rt: &impl Print) -> io::Result<()> {
        Pattern::of(*self).show(rt)
    }

    fn is(&self, other: &f32) -> bool {
        crate::bits(*self) == crate::bits(*other)
    }
}

// A float's bits, shown in eight digits.
#[derive(Clone, Copy, PartialEq)]
pub struct Pattern {
    pub bits: u32,
}

impl Pattern {
    // Every NaN has one pattern.
    pub fn of(x: f32) -> Pattern
        ensures { result.bits ≡ shown_bits x }
    {
        let bits = crate::bits(x);
        Pattern { bits }
    }
}

impl Display for Pattern {
    fn fmt<W: fmt::Write>(&self, f: &mut fmt::Formatter<W>) -> fmt::Result {
        let bits = self.bits;
        write!(f, "{bits:08x}")
    }
}

impl Entry for Pattern {
    ghost alike = { λ a b. eqb a.bits b.bits };

    ghost none = { record { bits = 0 } };

    fn is(&self, other: &Pattern) -> bool {
        self.bits == other.bits
    }
}
