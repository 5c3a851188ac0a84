// The frame file's layout: its words, the test for a breach of it, and its f32 values (01.Frame.1 to 01.Frame.6).
ghost use Rattle.std.specs.Prelude.{◌≡◌, ◌+◌, ◌*◌, ◌≤◌, ◌<◌, length};
ghost use Rattle.std.specs.Float.Ieee.{of_bits};
ghost use Rattle.std.specs.Float.{binary32};
ghost use Rattle.rules.specs.Picture.{filled};
ghost use Rattle.rules.specs.Frame as frame;

use rules::codes::float;
use rules::{MAX_FRAME_LENGTH, MAX_FRAME_SIDE, Size, Thresholds};

// The header's bytes, and where each of its words stands that the frame library reads.
pub(crate) const HEADER_LENGTH: usize = 32;

const WIDTH: usize = 0;

const HEIGHT: usize = 4;

pub(crate) const TAP_COUNT: usize = 8;

const TAPS_OFFSET: usize = 12;

const PIXEL_OFFSET: usize = 16;

const LOW: usize = 20;

const HIGH: usize = 24;

const LENGTH: usize = 28;

// The little-endian word at a byte.
pub(crate) fn word(file: &[u8], at: usize) -> u32
    requires { at + 4 ≤ length file.now }
    ensures { result ≡ frame.word_at file.now at }
{
    u32::from_le_bytes([file[at], file[at + 1], file[at + 2], file[at + 3]])
}

// A word as a number of 64 bits: no sum or product of the layout's tests can wrap. A function, since its bound is what the tests rest on.
pub(crate) fn wide(file: &[u8], at: usize) -> usize
    requires { at + 4 ≤ length file.now }
    ensures { (result ≡ frame.word_at file.now at) × (result < 4294967296) }
{
    word(file, at) as usize
}

// Any breach of the layout. The sides are tested before they are multiplied.
pub(crate) fn breach(file: &[u8]) -> bool
    ensures { result ≡ frame.breach file.now }
{
    if file.len() < HEADER_LENGTH {
        return true;
    }
    let width = wide(file, WIDTH);
    if MAX_FRAME_SIDE < width {
        return true;
    }
    let height = wide(file, HEIGHT);
    if MAX_FRAME_SIDE < height {
        return true;
    }
    let pixels = wide(file, PIXEL_OFFSET);
    let length = wide(file, LENGTH);
    (wide(file, TAPS_OFFSET) != HEADER_LENGTH)
        | ((pixels != HEADER_LENGTH + 4 * wide(file, TAP_COUNT))
            | ((length != pixels + width * height)
                | ((length != file.len()) | (MAX_FRAME_LENGTH < file.len()))))
}

// The first `count` taps, as f32 values.
pub(crate) fn decode_taps(file: &[u8], count: usize, taps: &mut [f32])
    requires { (frame.header_length + 4 * count ≤ length file.now) × (count ≤ length taps.old) }
    ensures { taps.new
        ≡ filled count (λ k. of_bits binary32 (frame.word_at file.now (frame.header_length + 4 * k))) taps.old }
{
    for k in 0..count {
        taps[k] = float(word(file, HEADER_LENGTH + 4 * k));
    }
}

pub(crate) fn size_of(file: &[u8]) -> Size
    requires { frame.header_length ≤ length file.now }
    ensures { result ≡ frame.frame_size file.now }
{
    Size {
        width: wide(file, WIDTH),
        height: wide(file, HEIGHT),
    }
}

pub(crate) fn thresholds_of(file: &[u8]) -> Thresholds
    requires { frame.header_length ≤ length file.now }
    ensures { result ≡ frame.thresholds_of file.now }
{
    Thresholds {
        low: float(word(file, LOW)),
        high: float(word(file, HIGH)),
    }
}
