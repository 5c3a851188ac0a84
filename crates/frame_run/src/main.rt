// Runs the frame library on files that keep the layout and files that break it, and on the repository's frames. The cases stand in the file
// stdin, one to a line; what is wanted of each, from 01, stands there and, text by text, in the file stdout or in frames/.
#![tactic(auto)]

mod building;
mod files;
mod texts;

use cases::{Row, Text};
use std::io;

// More bytes than the file has.
const TEXT: usize = 65536;

fn main(rt: HostRuntime) -> io::Result<()> {
    let mut text = [0u8; TEXT];
    let n = cases::read_full(&mut rt.stdin(), &mut text)?;
    for mut case in Text::new(&text[..n]).cases() {
        let row = case.row(&rt)?;
        line(&rt, &row)?;
    }
    files::run(&rt)
}

// What is looked at, by a line's first number.
enum Kind {
    // The text.
    Text,
    // Its length.
    Length,
    // How many shorter lengths break the layout.
    Shorter,
}

impl TryFrom<u32> for Kind {
    type Error = u32;

    fn try_from(n: u32) -> Result<Kind, u32> {
        match n {
            1 => Ok(Kind::Text),
            2 => Ok(Kind::Length),
            3 => Ok(Kind::Shorter),
            _ => Err(n),
        }
    }
}

// A remark, a row of zeros, has nothing to look at.
fn line(rt: &impl Print, row: &Row) -> io::Result<()> {
    let file = building::file_of(row);
    match Kind::try_from(row.number::<u32>(0)) {
        Ok(Kind::Text) => texts::shown(rt, row, &file),
        Ok(Kind::Length) => texts::measured(rt, row, &file),
        Ok(Kind::Shorter) => texts::shorter(rt, row, &file),
        Err(_) => Ok(()),
    }
}
