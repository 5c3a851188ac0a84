// Runs whole runs over poisoned scratch, and every refusal: the cases stand in the file stdin, one to a line, with what 01 wants of each.
// Each line has what was got and what is wanted.
#![tactic(auto)]

mod buffers;
mod case;

use case::Case;
use cases::Text;
use std::io;

// More bytes than the file has.
const TEXT: usize = 65536;

fn main(rt: HostRuntime) -> io::Result<()> {
    let mut text = [0u8; TEXT];
    let n = cases::read_full(&mut rt.stdin(), &mut text)?;
    for mut place in Text::new(&text[..n]).cases() {
        let row = place.row(&rt)?;
        if let Some(case) = Case::of(&row) {
            buffers::run(&rt, &case)?;
        }
    }
    Ok(())
}
