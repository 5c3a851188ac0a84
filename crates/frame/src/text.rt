// The printout's bytes (01.Frame.6, 01.Frame.7), written at a place of the lent text. Each function that writes returns the next place.
// Text and place stay two parameters, since each clause says what the whole text is afterwards (`sets text.old at ..`).
ghost use Rattle.std.specs.Prelude.{◌≡◌, cond, ◌∷◌, ◌++◌, [], ◌+◌, ◌*◌, ◌<◌, ◌≤◌, ltb, length, get_or, drop};
ghost use Rattle.std.proofs.lemmas.List.Edits.{sets};
ghost use Rattle.rules.specs.Answers.{number_of};
ghost use Rattle.rules.specs.Picture.{filled};
ghost use Rattle.rules.specs.Frame.{newline, decimal, refused_text, edges_text, rows_text, pixel_text, placed};
ghost use Rattle.frame.specs.Room.{text_room, Rows, Shown};

use rules::{EDGE, Refusal, Size};

// A digit's character. Decimals are written by hand: the printing of std promises no more than that it ended well, and `decimal` says
// each byte.
fn digit(v: usize) -> u8
    requires { v < 10 }
    ensures { result ≡ 48 + v }
{
    b'0' + v as u8
}

// A word's bytes.
fn put_word(text: &mut [u8], at: usize, word: &[u8]) -> usize
    requires { at + length word.now ≤ length text.old }
    ensures { (result ≡ at + length word.now) × (text.new ≡ sets text.old at word.now) }
{
    let end = at + word.len();
    text[at..end].copy_from_slice(word);
    end
}

// A number's digits: those of its tenth, then the last.
fn put_decimal(text: &mut [u8], at: usize, n: usize) -> usize
    requires { at + length (decimal n) ≤ length text.old }
    ensures { (result ≡ at + length (decimal n)) × (text.new ≡ sets text.old at (decimal n)) }
{
    if n < 10 {
        text[at] = digit(n);
        return at + 1;
    }
    let end = put_decimal(text, at, n / 10);
    text[end] = digit(n % 10);
    end + 1
}

// A number and the byte after it.
fn put_field(text: &mut [u8], at: usize, n: usize, after: u8) -> usize
    requires { at + (length (decimal n) + 1) ≤ length text.old }
    ensures { (result ≡ at + (length (decimal n) + 1)) × (text.new ≡ sets text.old at (decimal n ++ (after ∷ []))) }
{
    let end = put_decimal(text, at, n);
    text[end] = after;
    end + 1
}

// '#' for 255, '.' for the others.
fn character(v: u8) -> u8
    ensures { result ≡ pixel_text v }
{
    if v == EDGE {
        return b'#';
    }
    b'.'
}

// A row of the map and its newline.
fn put_row(row: &[u8], text: &mut [u8])
    requires { length row.now + 1 ≤ length text.old }
    ensures { text.new
        ≡ filled (length row.now + 1) (λ x. cond (ltb x (length row.now)) (pixel_text (get_or row.now x 0)) newline)
        text.old }
{
    for (x, v) in row.iter().enumerate() {
        text[x] = character(*v);
    }
    text[row.len()] = b'\n';
}

// The map's rows.
fn put_rows(map: &[u8], size: Size, text: &mut [u8])
    requires { Rows size map.now text.old }
    ensures { text.new ≡ rows_text size map.now ++ drop (size.height * (size.width + 1)) text.old }
{
    let width = size.width;
    let height = size.height;
    let line = width + 1;
    for y in 0..height {
        let from = y * width;
        let to = from + width;
        let at = y * line;
        let end = at + line;
        put_row(&map[from..to], &mut text[at..end]);
    }
}

// "refused N".
pub(crate) fn put_refused(refusal: Refusal, text: &mut [u8]) -> usize
    requires { text_room ≤ length text.old }
    ensures { (result, text.new) ≡ placed (refused_text (number_of refusal)) text.old }
{
    let at = put_word(text, 0, b"refused ");
    let number = u8::from(refusal);
    put_field(text, at, number as usize, b'\n')
}

// "edges W H COUNT".
fn put_head(size: Size, count: usize, text: &mut [u8]) -> usize
    requires { length (edges_text size count) ≤ length text.old }
    ensures { (result ≡ length (edges_text size count)) × (text.new ≡ sets text.old 0 (edges_text size count)) }
{
    let word = put_word(text, 0, b"edges ");
    let width = put_field(text, word, size.width, b' ');
    let height = put_field(text, width, size.height, b' ');
    put_field(text, height, count, b'\n')
}

// The edges and their rows.
pub(crate) fn put_edges(size: Size, count: usize, map: &[u8], text: &mut [u8]) -> usize
    requires { Shown size count map.now text.old }
    ensures { (result, text.new) ≡ placed (edges_text size count ++ rows_text size map.now) text.old }
{
    let at = put_head(size, count, text);
    let total = at + size.height * (size.width + 1);
    put_rows(map, size, &mut text[at..total]);
    total
}
