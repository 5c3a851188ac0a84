// Cases that stand in a text, one to a line: a name, a colon, and numbers with a space before each. A line that begins with # is a remark.
// A number is 12, -12 (the pattern of 32 bits), x7fc00000 (bits) or f12 (the bits of the float 12). What is misread shows in what the
// program writes.
#![tactic(auto)]

mod cases;
mod line;
pub mod lines;
mod number;
mod row;
mod text;
mod words;

ghost use Rattle.std.specs.Prelude.{◌≤◌, length, IfOk};

pub use cases::Cases;
pub use line::{Line, ROOM};
pub use number::{Number, turn};
pub use row::Row;
use std::io;
use std::io::Read;
pub use text::Text;

// Reads until the buffer is full or the input ends; how many bytes. What comes after a full buffer is not read. By hand: read_exact takes
// an input that ends early for an error, read_to_end reads into a Vec, which is on the heap, and with copy, by which frame_run reads its
// files, the proof of the clause stayed open.
pub fn read_full(from: &mut impl Read, buffer: &mut [u8]) -> io::Result<usize>
    ensures { IfOk result (λ n. n ≤ length buffer.new) }
{
    let mut done = 0;
    while done < buffer.len() {
        let n = from.read(&mut buffer[done..])?;
        if n == 0 {
            return Ok(done);
        }
        done += n;
    }
    Ok(done)
}
