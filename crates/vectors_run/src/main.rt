// Replays a sample of the vendor's answers, which `oracle/run vectors` wrote to the file stdin: each case goes through the functions of
// `kelontsira`, and what they answer and leave is compared with what the vendor's Rust gave. One line a case: 1 where all agrees.
#![tactic(auto)]

mod case;
mod gradients;
mod lists;
mod pictures;
mod stage;
mod walks;

use cases::Text;
use std::io;

// More bytes than the file has.
const ROOM: usize = 262144;

fn main(rt: HostRuntime) -> io::Result<()> {
    let mut text = [0u8; ROOM];
    let n = cases::read_full(&mut rt.stdin(), &mut text)?;
    for case in Text::new(&text[..n]).cases() {
        if !case.is_remark() {
            case::run(&rt, case)?;
        }
    }
    Ok(())
}
