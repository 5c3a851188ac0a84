// A frame file made of a case's words, and what the library prints of its first bytes.
ghost use Rattle.std.specs.Prelude.{◌≤◌, length};

use cases::Row;
use frame::{FILE_ROOM, TEXT_ROOM};

// Fourteen words from the case's place 3 on, over zeros, and one more word, at the offset in place 17.
pub(crate) fn file_of(row: &Row) -> [u8; FILE_ROOM] {
    let mut file = [0; FILE_ROOM];
    put_word(&mut file, row.number(17), row.number(18));
    for i in 0..14 {
        put_word(&mut file, 4 * i, row.number(3 + i));
    }
    file
}

// Little-endian; past the room nothing is put.
fn put_word(file: &mut [u8; FILE_ROOM], at: usize, word: u32) {
    if at < FILE_ROOM - 3 {
        file[at..at + 4].copy_from_slice(&word.to_le_bytes());
    }
}

// What the library prints of a file's first n bytes: of a longer file those that have room, which decide it. The file and n are lent apart,
// since `frame::print` takes them so.
pub(crate) fn printed<'a>(
    file: &[u8; FILE_ROOM],
    n: usize,
    text: &'a mut [u8; TEXT_ROOM],
) -> &'a [u8]
    ensures { length result.now ≤ length text.old }
{
    let m = frame::print(file, n, text);
    &text[..m]
}

// Whether the first n bytes of a file print just this.
pub(crate) fn prints(file: &[u8; FILE_ROOM], n: usize, wanted: &[u8]) -> bool {
    let mut text = [0; TEXT_ROOM];
    report::same(printed(file, n, &mut text), wanted)
}
