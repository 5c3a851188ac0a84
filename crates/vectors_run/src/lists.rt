// What a call left, compared with a list of numbers.
use cases::Number;

// An entry of an output.
pub(crate) trait Output: Number {
    // What it holds before a call, and past the picture after it.
    const LEFT: Self;

    // Whether it is what a number of the file wants, which may be larger than it can be.
    fn is_number(&self, wanted: u32) -> bool;
}

impl Output for u8 {
    const LEFT: u8 = 7;

    fn is_number(&self, wanted: u32) -> bool {
        u32::from(*self) == wanted
    }
}

impl Output for f32 {
    const LEFT: f32 = 7.0;

    fn is_number(&self, wanted: u32) -> bool {
        report::bits(*self) == wanted
    }
}

impl Output for i16 {
    const LEFT: i16 = 7;

    fn is_number(&self, wanted: u32) -> bool {
        *self == i16::from_pattern(wanted)
    }
}

// Whether a call left this list, and nothing of its own past it.
pub(crate) fn is_list<T: Output>(got: &[T], list: &[u32]) -> bool {
    let n = list.len();
    n <= got.len()
        && got
            .iter()
            .zip(list)
            .all(|(entry, wanted)| entry.is_number(*wanted))
        && report::all_are(&got[n..], T::LEFT)
}
