// A text that is read case by case, or number by number: what comes next begins at `at`.
ghost use Rattle.std.specs.Prelude.{◌≡◌, ◌≤◌, ◌&&◌, eqb, ltb, leb, length, get_or, IfOk};
ghost use Rattle.cases.specs.Lines.{Case, Onward, part_of, line_of};

use crate::cases::Cases;
use crate::line::Line;
use crate::number::{Number, pattern};
use crate::row::{ROW, Row};
use crate::words::{COLON, NEWLINE, place_of, split_word};
use std::io;

const COMMENT: u8 = b'#';

#[derive(Clone, Copy)]
pub struct Text<'a> {
    pub all: &'a [u8],
    pub at: usize,
}

impl<'a> Text<'a> {
    pub fn new(all: &'a [u8]) -> Text<'a>
        ensures { (result.all.now ≡ all.now) × (result.at ≡ 0) }
    {
        Text { all, at: 0 }
    }

    // The text at its place, and at each line after it.
    pub fn cases(self) -> Cases<'a>
        ensures { result.rest ≡ self.entry }
    {
        Cases { rest: self }
    }

    pub fn is_over(&self) -> bool
        ensures { result ≡ leb (length self.now.all.now) self.now.at }
    {
        self.all.len() <= self.at
    }

    pub fn is_remark(&self) -> bool
        ensures { result ≡ (ltb self.now.at (length self.now.all.now) && eqb (get_or self.now.all.now self.now.at 0) 35) }
    {
        self.at < self.all.len() && self.all[self.at] == COMMENT
    }

    // Goes to the next line.
    pub fn skip_line(&mut self)
        ensures onward { Onward self.old.all.now self.old.at self.new.at }
        ensures same { self.new.all.now ≡ self.old.all.now }
    {
        self.at = next_line(self.all, self.at);
    }

    // The row at `at`: writes its name and gives its numbers. `at` is then the next line, also where the write fails. A remark writes
    // nothing, and gives zeros.
    pub fn row(&mut self, rt: &impl Print) -> io::Result<Row>
        ensures ok { IfOk result (λ row. Case self.old.all.now self.old.at self.new.at row.numbers) }
        ensures onward { Onward self.old.all.now self.old.at self.new.at }
        ensures same { self.new.all.now ≡ self.old.all.now }
    {
        let here = *self;
        self.skip_line();
        let mut numbers = [0; 80];
        if !here.is_remark() {
            let mut rest = here.after_name(rt)?;
            for number in &mut numbers {
                *number = rest.number();
            }
        }
        Ok(Row { numbers })
    }

    // The line at `at`: writes its name and gives it. `at` is then the next line, also where the write fails. A heading is its name alone; a
    // remark writes nothing, and its line is empty.
    pub fn line(&mut self, rt: &impl Print) -> io::Result<Line<'a>>
        ensures ok { IfOk result (λ line. line.text.now ≡ line_of self.old.all.now self.old.at self.new.at) }
        ensures onward { Onward self.old.all.now self.old.at self.new.at }
        ensures same { self.new.all.now ≡ self.old.all.now }
    {
        let here = *self;
        self.skip_line();
        if here.is_remark() {
            return Ok(Line {
                text: &here.all[0..0],
            });
        }
        let text = part(here.all, here.at, self.at);
        here.after_name(rt)?;
        let line = Line { text };
        if line.calls(b"heading") {
            report::words(rt, b"\n")?;
        }
        Ok(line)
    }

    // Writes a name; the text from the space after its colon on.
    fn after_name(self, rt: &impl Print) -> io::Result<Text<'a>>
        ensures { IfOk result (λ rest. self.entry.at ≤ rest.at) }
    {
        let all = self.all;
        match place_of(all, self.at, COLON, NEWLINE) {
            Some(end) => {
                report::words(rt, &all[self.at..end])?;
                Ok(Text { all, at: end + 1 })
            }
            None => Ok(Text {
                all,
                at: all.len().max(self.at),
            }),
        }
    }

    // The number at `at`, or after the space there; `at` is then past it, and never goes back. At the end of a line it is 0, and `at` stays.
    pub fn number<T: Number>(&mut self) -> T
        ensures onward { self.old.at ≤ self.new.at }
        ensures same { self.new.all.now ≡ self.old.all.now }
    {
        let (word, rest) = split_word(self.all.get(self.at..).unwrap_or(b""));
        if self.at <= self.all.len() {
            self.at = self.all.len() - rest.len();
        }
        T::from_pattern(pattern(word, 0))
    }

    // A list: its count and then its numbers, as many as there is room for, in the part of the buffer that they fill.
    pub fn list<'b, T: Number>(&mut self, out: &'b mut [T]) -> &'b mut [T]
        ensures filled { length result.now ≤ length out.old }
        ensures onward { self.old.at ≤ self.new.at }
        ensures same { self.new.all.now ≡ self.old.all.now }
    {
        let count: usize = self.number();
        let most = count.min(out.len());
        let list = &mut out[..most];
        for entry in list.iter_mut() {
            *entry = self.number();
        }
        list
    }
}

fn next_line(text: &[u8], from: usize) -> usize
    ensures { Onward text.now from result }
{
    match place_of(text, from, NEWLINE, NEWLINE) {
        Some(end) => end + 1,
        None => text.len().max(from),
    }
}

fn part(text: &[u8], from: usize, end: usize) -> &[u8]
    ensures { result.now ≡ part_of text.now from end }
{
    text.get(from..end).unwrap_or(&text[0..0])
}
