// The lines of the programs that run examples: what was got, beside what is wanted. A line answers whether its two sides agree, and has a
// contract for that. No contract can speak of what is written: it is compared with the program's file stdout, so a line whose two sides
// differ, or that changes, fails the gate. What only writes (words, part) states nothing. The one error is that of a write that fails; a
// line may then stand there in part, and nothing else is changed.
#![tactic(auto)]

mod entry;

ghost use Rattle.std.specs.Prelude.{◌≡◌, false, eqb, length, get_or, IfOk};
ghost use Rattle.std.specs.Float.Ieee as Ieee;
ghost use Rattle.report.specs.Tests.{every, alike, shown_bits};

pub use entry::{Entry, Pattern};
use std::io;

// The beginning of a line, whose `name` is then the rest: words, or words and a number.
pub fn words(rt: &impl Print, text: &[u8]) -> io::Result<()> {
    rt.write_all(text)
}

pub fn part(rt: &impl Print, text: &[u8], value: u64) -> io::Result<()> {
    words(rt, text)?;
    rt.print(value)
}

// A number, or one entry of another type.
pub fn number<T: Entry>(rt: &impl Print, name: &[u8], got: T, wanted: T) -> io::Result<bool>
    ensures { IfOk result (λ r. r ≡ T.alike got wanted) }
{
    rt.write_all(name)?;
    rt.write_all(b": got")?;
    got.show(rt)?;
    rt.write_all(b" wanted")?;
    wanted.show(rt)?;
    rt.write_all(b"\n")?;
    Ok(got.is(&wanted))
}

// A test that is wanted to pass: 1 is yes.
pub fn yes(rt: &impl Print, name: &[u8], got: bool) -> io::Result<bool>
    ensures { IfOk result (λ r. r ≡ got) }
{
    number(rt, name, u8::from(got), 1)?;
    Ok(got)
}

// A list of numbers: bytes, places of a stack, signed numbers, floats by their bits.
pub fn list<T: Entry>(rt: &impl Print, name: &[u8], got: &[T], wanted: &[T]) -> io::Result<bool>
    ensures { IfOk result (λ r. r ≡ alike T.alike T.none got.now wanted.now) }
{
    rt.write_all(name)?;
    rt.write_all(b": got")?;
    for entry in got {
        entry.show(rt)?;
    }
    rt.write_all(b" wanted")?;
    for entry in wanted {
        entry.show(rt)?;
    }
    rt.write_all(b"\n")?;
    Ok(same(got, wanted))
}

// Entry by entry; the lengths are the same too.
pub fn same<T: Entry>(got: &[T], wanted: &[T]) -> bool
    ensures { result ≡ alike T.alike T.none got.now wanted.now }
{
    got.len() == wanted.len() && got.iter().zip(wanted).all(|(a, b)| a.is(b))
}

// A float, by its bits.
pub fn float(rt: &impl Print, name: &[u8], got: f32, wanted: u32) -> io::Result<bool>
    ensures { IfOk result (λ r. r ≡ eqb (shown_bits got) wanted) }
{
    number(rt, name, Pattern::of(got), Pattern { bits: wanted })
}

// Every NaN is shown as this one.
const NAN_BITS: u32 = 0x7fc0_0000;

pub fn bits(x: f32) -> u32
    ensures { result ≡ shown_bits x }
{
    if x.is_nan() { NAN_BITS } else { x.to_bits() }
}

pub fn nan() -> f32
    ensures { result ≡ Ieee.nan }
{
    f32::NAN
}

pub fn infinity() -> f32
    ensures { result ≡ Ieee.inf false }
{
    f32::INFINITY
}

// Whether every entry is v.
pub fn all_are<T: Entry>(buffer: &[T], v: T) -> bool
    ensures { result ≡ every (λ i. T.alike (get_or buffer.now i T.none) v) (length buffer.now) }
{
    buffer.iter().all(|entry| entry.is(&v))
}
