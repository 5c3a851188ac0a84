// A case as its line: a name, a colon, the call, and fields, each after a bar, with its name before its values:
//     five pixels for six: sobel | border clamp | width 3 | height 2 | pixels 1*5 | out 201+6 | number 2 | out-after 201+6
// A value is a number as everywhere (12, -12, x7fc00000, f12); 1*5 is five of it, and 201+6 six numbers, each one more. A field that is
// not there has no values, and the number 0.
ghost use Rattle.std.specs.Prelude.{◌≡◌, ◌≤◌, ◌<◌, IfSome, length};

use crate::number::{Number, digits, pattern, turn};
use crate::row::kth;
use crate::words::{COLON, NEWLINE, after_space, after_word, place_of, split_word};
use rules::Size;

// No buffer of a case is longer.
pub const ROOM: usize = 1922;

const BAR: u8 = b'|';

const TIMES: u8 = b'*';

const PLUS: u8 = b'+';

#[derive(Clone, Copy)]
pub struct Line<'a> {
    pub text: &'a [u8],
}

impl<'a> Line<'a> {
    // Whether the case is of this call.
    pub fn calls(&self, call: &[u8]) -> bool {
        match place_of(self.text, 0, COLON, NEWLINE) {
            Some(colon) => after_word(after_space(&self.text[colon + 1..]), call).is_some(),
            None => false,
        }
    }

    // What comes after a field's name.
    fn field(&self, name: &[u8]) -> Option<&'a [u8]> {
        let mut text = self.text;
        while let Some((byte, rest)) = text.split_first() {
            if *byte == BAR {
                let values = after_word(after_space(rest), name);
                if values.is_some() {
                    return values;
                }
            }
            text = rest;
        }
        None
    }

    pub fn has(&self, name: &[u8]) -> bool {
        self.field(name).is_some()
    }

    // A field's number.
    pub fn number<T: Number>(&self, name: &[u8]) -> T {
        let (word, _) = split_word(self.field(name).unwrap_or(b""));
        T::from_pattern(pattern(word, 0))
    }

    // The first letter of a field's word.
    pub fn initial(&self, name: &[u8]) -> Option<u8> {
        after_space(self.field(name)?).first().copied()
    }

    // A field's values, as many as there is room for, in the part of the buffer that they fill.
    pub fn list<'b, T: Number>(&self, name: &[u8], out: &'b mut [T]) -> &'b mut [T]
        ensures { length result.now ≤ length out.old }
    {
        let mut room = [0u32; ROOM];
        let numbers = self.fill(name, &mut room);
        let n = turn(&room[..numbers], out);
        &mut out[..n]
    }

    // Writes a field's numbers over the first entries of a buffer; how many. `turn` makes of them what each type has, and promises each entry.
    fn fill(&self, name: &[u8], out: &mut [u32]) -> usize
        ensures { (result ≤ length out.new) × (length out.new ≡ length out.old) }
    {
        let mut n = 0;
        let mut values = self.field(name).unwrap_or(b"");
        while let Some((value, rest)) = next_value(values) {
            n += Value::of(value).put(&mut out[n..]);
            values = rest;
        }
        n
    }

    // The k-th of a field's values, or 0.
    pub fn at<T: Number>(&self, name: &[u8], k: usize) -> T
        ensures { 1922 ≤ k → result ≡ T.of 0 }
    {
        let mut room = [0u32; ROOM];
        let numbers = self.fill(name, &mut room);
        T::from_pattern(kth(&room[..numbers], k))
    }

    // How many of n entries are lent: what the field says, and without it all.
    pub fn lent(&self, name: &[u8], n: usize) -> usize
        ensures { result ≤ n }
    {
        if !self.has(name) {
            return n;
        }
        let most: usize = self.number(name);
        most.min(n)
    }

    // The fields that many calls have: the sides, the border and the number that is wanted.
    pub fn size(&self) -> Size {
        Size {
            width: self.number(b"width"),
            height: self.number(b"height"),
        }
    }

    // A border's number by its word's first letter: zero, clamp, mirror. Any other is none, and refused. A number and no enum: the exports
    // take one, and a case may give them one that names no border.
    pub fn border(&self) -> u8
        ensures { 2 < result → result ≡ 255 }
    {
        match self.initial(b"border") {
            Some(b'z') => 0,
            Some(b'c') => 1,
            Some(b'm') => 2,
            _ => 255,
        }
    }

    pub fn wanted(&self) -> u32 {
        self.number(b"number")
    }
}

// The first of a field's values, and the others: none at the next bar and at the line's end.
fn next_value(values: &[u8]) -> Option<(&[u8], &[u8])>
    ensures { IfSome result (λ p. length p.1.now < length values.now) }
{
    let (value, rest) = split_word(values);
    match value.first() {
        None | Some(&BAR) => None,
        Some(_) => Some((value, rest)),
    }
}

// What one value stands for: `count` numbers, the first of them that of the word, and each `step` more than the one before.
#[derive(Clone, Copy)]
struct Value<'a> {
    word: &'a [u8],
    count: u32,
    step: u32,
}

impl<'a> Value<'a> {
    fn of(text: &'a [u8]) -> Value<'a> {
        match text.iter().position(|byte| *byte == TIMES || *byte == PLUS) {
            Some(cut) => Value {
                word: &text[..cut],
                count: digits(&text[cut + 1..], 10),
                step: u32::from(text[cut] == PLUS),
            },
            None => Value {
                word: text,
                count: 1,
                step: 0,
            },
        }
    }

    // Writes the numbers, as far as there is room; how many.
    fn put(&self, out: &mut [u32]) -> usize
        ensures { (result ≤ length out.new) × (length out.new ≡ length out.old) }
    {
        for (entry, k) in out.iter_mut().zip(0..self.count) {
            *entry = pattern(self.word, self.step.wrapping_mul(k));
        }
        out.len().min(self.count as usize)
    }
}
