// What a case may be of.
#[derive(Clone, Copy)]
pub(crate) enum Call {
    // A start that is refused.
    Start,
    // A map request and then a slice of one state, forged or not.
    Map,
    // A walk that is accepted, at once and in three slices.
    Walk,
    // A walk in slices of every size.
    Slices,
    // A whole run.
    Canny,
}

// Each with its name.
pub(crate) const NAMES: [(&[u8], Call); 5] = [
    (b"start", Call::Start),
    (b"map", Call::Map),
    (b"walk", Call::Walk),
    (b"slices", Call::Slices),
    (b"canny", Call::Canny),
];
