// The shared types, limits and refusals of document 01. The rules themselves are in specs/, their laws in proofs/.
#![tactic(auto)]

pub mod codes;
mod refusal;

pub use refusal::{Refusal, number};

// What a sample outside the picture reads as (01.Border.3 to 01.Border.5).
#[derive(Clone, Copy)]
pub enum BorderMode {
    // 0.
    Zero,
    // The nearest side.
    Clamp,
    // The picture mirrored at its sides, the outermost pixels not repeated.
    Mirror,
}

// Where a coordinate is read. Kept an enum of its own: document 01 asks for one where the Rust has an `Option` (01.Change.4).
#[derive(Clone, Copy)]
pub enum Coord {
    // At this place of the side.
    At(usize),
    // Nowhere: it is outside, and reads as 0.
    Nothing,
    // The side is refused.
    Refused,
}

// The two sides of a picture in row order. Its bytes are lent beside it: document 01 lets a record of both wait for 02's item 14.
#[derive(Clone, Copy)]
pub struct Size {
    pub width: usize,
    pub height: usize,
}

// The two sides of a kernel; its width times height weights are lent beside it, in row order.
#[derive(Clone, Copy)]
pub struct Kernel {
    pub width: usize,
    pub height: usize,
}

// How many taps a separable kernel has each way; the taps are lent beside it.
#[derive(Clone, Copy)]
pub struct SeparableKernel {
    pub horizontal: usize,
    pub vertical: usize,
}

// The two thresholds of a walk (01.Refusal.17).
#[derive(Clone, Copy)]
pub struct Thresholds {
    pub low: f32,
    pub high: f32,
}

// A walk's state; its marks and its stack are lent beside it (01.Walk.1).
#[derive(Clone, Copy)]
pub struct Walk {
    pub width: usize,
    pub height: usize,
    pub pending: usize,
}

// The picture of a walk.
impl From<Walk> for Size {
    ghost use Rattle.std.specs.Prelude.{◌≡◌};
    ghost use Rattle.rules.specs.Calls.{sides_of};

    ghost from_gives = { λ walk size. size ≡ sides_of walk };

    fn from(walk: Walk) -> Size {
        Size {
            width: walk.width,
            height: walk.height,
        }
    }
}

// What an accepted slice made: its takes, and the state after them.
#[derive(Clone, Copy)]
pub struct Progress {
    pub takes: usize,
    pub walk: Walk,
}

// The limits (01.Take.5, 01.Frame.3).
pub const MAX_SIDE: usize = 640;

pub const MAX_TAPS: usize = 63;

pub const MAX_KERNEL: usize = 15;

pub const MAX_WINDOW: usize = 15;

pub const MAX_THRESHOLD: f32 = 255.0;

pub const MAX_FRAME_SIDE: usize = 48;

pub const MAX_FRAME_LENGTH: usize = 2588;

// The marks of a walk (01.Walk.2), and the map's entry at a finished pixel.
pub const MARK_NONE: u8 = 0;

pub const MARK_WEAK: u8 = 1;

pub const MARK_PENDING: u8 = 2;

pub const MARK_FINISHED: u8 = 3;

pub const EDGE: u8 = 255;
