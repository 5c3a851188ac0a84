// Runs the walk on 01's examples, on slices of every size, on forged states and on every refusal: the cases stand in the file stdin, one to
// a line, with what 01 wants of each. Each line has what was got and what is wanted.
#![tactic(auto)]

mod kept;
mod sizes;
mod starts;
mod states;
mod walks;

use cases::{Row, Text};
use std::io;

// More bytes than the file has.
const TEXT: usize = 65536;

fn main(rt: HostRuntime) -> io::Result<()> {
    let mut text = [0u8; TEXT];
    let n = cases::read_full(&mut rt.stdin(), &mut text)?;
    for mut case in Text::new(&text[..n]).cases() {
        let row = case.row(&rt)?;
        line(&rt, &row)?;
    }
    Ok(())
}

// What a case is of, by its line's first number.
enum Kind {
    Start,
    State,
    Walk,
    Sizes,
}

impl TryFrom<u32> for Kind {
    type Error = u32;

    fn try_from(n: u32) -> Result<Kind, u32> {
        match n {
            1 => Ok(Kind::Start),
            2 => Ok(Kind::State),
            3 => Ok(Kind::Walk),
            4 => Ok(Kind::Sizes),
            _ => Err(n),
        }
    }
}

// A remark, a row of zeros, is of none.
fn line(rt: &impl Print, row: &Row) -> io::Result<()> {
    match Kind::try_from(row.number::<u32>(0)) {
        Ok(Kind::Start) => starts::run(rt, row),
        Ok(Kind::State) => states::run(rt, row),
        Ok(Kind::Walk) => walks::run(rt, row),
        Ok(Kind::Sizes) => sizes::run(rt, row),
        Err(_) => Ok(()),
    }
}
