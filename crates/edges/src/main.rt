// The program: one frame from standard input, its printout to standard output.
#![tactic(auto)]

ghost use Rattle.std.specs.Prelude.{◌≤◌, IfOk, length};

use frame::{FILE_ROOM, TEXT_ROOM};
use std::io;
use std::io::Read;

fn main(rt: HostRuntime) -> io::Result<()> {
    let mut file = [0u8; FILE_ROOM];
    let read = read_full(&mut rt.stdin(), &mut file)?;
    let mut text = [0u8; TEXT_ROOM];
    let written = frame::print(&file, read, &mut text);
    rt.write_all(&text[..written])
}

// Reads until the buffer is full or the input ends; how many bytes. By hand, straight into the buffer: the library's copy goes through 8 KiB
// of its own on the stack, which would keep the frame there a second time (docs/LOOSE.md).
fn read_full(from: &mut impl Read, buffer: &mut [u8]) -> io::Result<usize>
    ensures { IfOk result (λ n. n ≤ length buffer.new) }
{
    let mut done = 0;
    while done < buffer.len() {
        let n = from.read(&mut buffer[done..])?;
        if n == 0 {
            return Ok(done);
        }
        done += n;
    }
    Ok(done)
}
