// A frame file's bytes in, the printout's bytes out (01.Frame.1 to 01.Frame.7).
#![tactic(auto)]

pub mod layout;
mod running;
mod text;

ghost use Rattle.std.specs.Prelude.{◌≡◌, ◌≤◌, length, MatchResult};
ghost use Rattle.rules.specs.Answers.{number_of};
ghost use Rattle.rules.specs.Frame.{file_room, placed, printed, printout, refused_text};
ghost use Rattle.frame.specs.Room.{text_room};
ghost use Rattle.frame.specs.Running.{Edges, Framed, Tapped};

use layout::{TAP_COUNT, breach, size_of, wide};
use rules::{MAX_FRAME_LENGTH, MAX_TAPS, Refusal};
use running::{MAX_AREA, run_file};
use text::{put_edges, put_refused};

// Room for a file: one byte more than the largest, so that a file that is too long is seen to be.
pub const FILE_ROOM: usize = MAX_FRAME_LENGTH + 1;

// Room for a printout: what the longest takes, 48 rows of 49 bytes behind "edges 48 48 2304".
pub const TEXT_ROOM: usize = 2369;

// How many taps a frame file of any bytes has, if it can be run. A breach of the layout comes first. More taps than a run takes are told by
// their count, without decoding them: the layout has granted the tests that come before that one.
fn taps_of(file: &[u8]) -> Result<usize, Refusal>
    ensures { MatchResult result (Tapped file.now) (λ refusal. printout file.now ≡ refused_text (number_of refusal)) }
{
    if breach(file) {
        return Err(Refusal::Layout);
    }
    let taps = wide(file, TAP_COUNT);
    if MAX_TAPS < taps {
        return Err(Refusal::Count);
    }
    Ok(taps)
}

// The count of edges of such a file, and its map.
fn edges_of(file: &[u8], taps: usize, map: &mut [u8]) -> Result<usize, Refusal>
    requires { Framed file.now taps map.old }
    ensures { MatchResult result (Edges file.now map.new) (λ refusal. printout file.now ≡ refused_text (number_of refusal)) }
{
    run_file(file, taps, map)
}

// Writes its printout. The map stands here, so that a file that can't be run pays for none.
fn print_run(file: &[u8], taps: usize, text: &mut [u8]) -> usize
    requires { Tapped file.now taps × (text_room ≤ length text.old) }
    ensures { (result, text.new) ≡ placed (printout file.now) text.old }
{
    let mut map = [0u8; MAX_AREA];
    match edges_of(file, taps, &mut map) {
        Ok(count) => put_edges(size_of(file), count, &map, text),
        Err(refusal) => put_refused(refusal, text),
    }
}

// Writes the printout of a frame file of any bytes.
fn print_file(file: &[u8], text: &mut [u8]) -> usize
    requires { text_room ≤ length text.old }
    ensures { (result, text.new) ≡ placed (printout file.now) text.old }
{
    match taps_of(file) {
        Ok(taps) => print_run(file, taps, text),
        Err(refusal) => put_refused(refusal, text),
    }
}

// The same of a file's first bytes.
fn print_first(file: &[u8], read: usize, text: &mut [u8]) -> usize
    requires { text_room ≤ length text.old }
    ensures { (result, text.new) ≡ printed file.now read text.old }
{
    if file.len() < read {
        return print_file(file, text);
    }
    print_file(&file[0..read], text)
}

// Writes the printout of what was read, the first `read` bytes of the file, and returns its length. The sizes are the rules': a smaller
// room for the file would take one that is too long for one that is not, and a smaller text would not hold every printout.
pub fn print(file: &[u8; FILE_ROOM], read: usize, text: &mut [u8; TEXT_ROOM]) -> usize
    ensures { (length file.now ≡ file_room)
        × (length text.old ≡ text_room)
        × ((result, text.new) ≡ printed file.now read text.old) }
{
    print_first(file, read, text)
}
