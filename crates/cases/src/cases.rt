// A text's cases one after another: each item is the text with its place at a line.
ghost use Rattle.std.specs.Prelude.{◌-◌, length};
ghost use Rattle.std.specs.Iterator.{at_most};
ghost use Rattle.cases.specs.Cases.{GivesCase};

use crate::text::Text;

#[derive(Drop)]
pub struct Cases<'a> {
    pub rest: Text<'a>,
}

impl<'a> Iterator for Cases<'a> {
    type Item = Text<'a>;

    ghost next_gives = { GivesCase };

    ghost remaining = { λ s. at_most (length s.rest.all.now - s.rest.at) };

    fn next(&mut self) -> Option<Text<'a>> {
        if self.rest.is_over() {
            return None;
        }
        let case = self.rest;
        self.rest.skip_line();
        Some(case)
    }
}
