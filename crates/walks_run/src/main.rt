// Runs the walk and the whole run, through kelontsira, on 01's examples, on slices of every size, on forged states and on every refusal:
// the cases stand in the file stdin, one to a line, with what 01 wants of each. Each printed line has what was got and what is wanted.
#![tactic(auto)]

mod call;
mod kept;
mod lent;
mod runs;
mod sizes;
mod states;
mod walks;

use call::{Call, NAMES};
use cases::{Line, ROOM, Text};
use lent::{Lent, NO_WALK};
use std::io;

// More bytes than the file has.
const TEXT: usize = 65536;

fn main(rt: HostRuntime) -> io::Result<()> {
    let mut text = [0u8; TEXT];
    let n = cases::read_full(&mut rt.stdin(), &mut text)?;
    for mut case in Text::new(&text[..n]).cases() {
        let line = case.line(&rt)?;
        if let Some((_, call)) = NAMES.iter().find(|(name, _)| line.calls(name)) {
            run(&rt, &line, *call)?;
        }
    }
    Ok(())
}

// Lends the walk's buffers to what the case is of.
fn run(rt: &impl Print, line: &Line, call: Call) -> io::Result<()> {
    let mut marks = [0u8; ROOM];
    let mut stack = [0u32; ROOM];
    let mut map = [0u8; ROOM];
    let mut lent = Lent {
        walk: NO_WALK,
        marks: line.list(b"marks", &mut marks),
        stack: line.list(b"stack", &mut stack),
        map: line.list(b"map", &mut map),
    };
    match call {
        Call::Start => states::start(rt, line, &mut lent),
        Call::Map => states::map(rt, line, &mut lent),
        Call::Walk => walks::run(rt, line, &mut lent),
        Call::Slices => sizes::run(rt, line, &mut lent),
        Call::Canny => runs::run(rt, line, &mut lent),
    }
}
