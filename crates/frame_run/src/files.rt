// The frames of the folder frames/, each beside the print that stands there.
ghost use Rattle.std.specs.Prelude.{◌≤◌, length};

use crate::building::prints;
use frame::{FILE_ROOM, TEXT_ROOM};
use std::io::Read;
use std::rt::Files;
use std::{fs, io};

const FRAMES: [(&str, &str); 6] = [
    ("card.frame", "card.print"),
    ("ring.frame", "ring.print"),
    ("many_taps.frame", "many_taps.print"),
    ("full.frame", "full.print"),
    ("slope.frame", "slope.print"),
    ("too_long.frame", "too_long.print"),
];

pub(crate) fn run(rt: &(impl Files + Print)) -> io::Result<()> {
    for (name, printed) in FRAMES {
        let good = beside(rt, name, printed);
        print!(rt; "{name} prints {printed}")?;
        report::yes(rt, b"", good)?;
    }
    Ok(())
}

// Fills a buffer with a file's bytes, as far as there is room; the filled part, empty where the file cannot be read.
fn load<'a>(rt: &impl Files, name: &str, buffer: &'a mut [u8]) -> &'a [u8]
    ensures { length result.now ≤ length buffer.old }
{
    let Ok(file) = fs::open(rt, name) else {
        return &[];
    };
    let most = buffer.len();
    let mut room = &mut *buffer;
    // Where a read fails, what came before it is looked at.
    let _ = io::copy(&mut file.take(most as u64), &mut room);
    let done = most.saturating_sub(room.len());
    &buffer[..done]
}

fn beside(rt: &impl Files, name: &str, printed: &str) -> bool {
    let mut text = [0; TEXT_ROOM];
    let wanted = load(rt, printed, &mut text);
    let mut file = [0; FILE_ROOM];
    let n = load(rt, name, &mut file).len();
    !wanted.is_empty() && prints(&file, n, wanted)
}
