// A text's words, each after a space.
ghost use Rattle.std.specs.Prelude.{◌+◌, ◌<◌, ◌≤◌, IfSome, length};

pub(crate) const NEWLINE: u8 = b'\n';

pub(crate) const SPACE: u8 = b' ';

pub(crate) const COLON: u8 = b':';

// The first place from `from` on where either byte stands.
pub(crate) fn place_of(text: &[u8], from: usize, a: u8, b: u8) -> Option<usize>
    ensures { IfSome result (λ place. (from ≤ place) × (place < length text.now)) }
{
    let rest = text.get(from..)?;
    let n = rest.iter().position(|byte| *byte == a || *byte == b)?;
    Some(from + n)
}

pub(crate) fn after_space(text: &[u8]) -> &[u8]
    ensures { length result.now ≤ length text.now }
{
    match text.split_first() {
        Some((&SPACE, rest)) => rest,
        _ => text,
    }
}

// What comes after a word that the text begins with, from the space or the end of the line on.
pub(crate) fn after_word<'a>(text: &'a [u8], word: &[u8]) -> Option<&'a [u8]> {
    let rest = text.strip_prefix(word)?;
    match rest.first() {
        Some(byte) if *byte <= SPACE => Some(rest),
        _ => None,
    }
}

// The word after a space, up to the next space or the end of the line, and the rest.
pub(crate) fn split_word(text: &[u8]) -> (&[u8], &[u8])
    ensures { length result.0.now + length result.1.now ≤ length text.now }
{
    let text = after_space(text);
    text.split_at(place_of(text, 0, SPACE, NEWLINE).unwrap_or(text.len()))
}
