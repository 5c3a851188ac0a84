// One case: its six numbers and its four lists, and the line that says whether it agrees.
use crate::stage::Stage;
use crate::{gradients, pictures, walks};
use cases::{Number, Text, turn};
use rules::Size;
use std::io;

// No list of the file is longer.
pub(crate) const LIST: usize = 800;

// What p, q and the lists mean is the stage's own.
#[derive(Clone, Copy)]
pub(crate) struct Case<'a> {
    pub(crate) stage: Stage,
    pub(crate) size: Size,
    pub(crate) border: u8,
    pub(crate) p: u32,
    pub(crate) q: u32,
    pub(crate) one: &'a [u32],
    pub(crate) two: &'a [u32],
    pub(crate) three: &'a [u32],
    pub(crate) wanted: &'a [u32],
}

// Reads a case, and runs it.
pub(crate) fn run(rt: &impl Print, text: Text) -> io::Result<()> {
    let mut text = text;
    let stage: u32 = text.number();
    let size = Size {
        width: text.number(),
        height: text.number(),
    };
    let border = text.number();
    say(rt, stage, size, border)?;
    let mut one = [0u32; LIST];
    let mut two = [0u32; LIST];
    let mut three = [0u32; LIST];
    let mut wanted = [0u32; LIST];
    let case = Case {
        stage: Stage::from(stage),
        size,
        border,
        p: text.number(),
        q: text.number(),
        one: text.list(&mut one),
        two: text.list(&mut two),
        three: text.list(&mut three),
        wanted: text.list(&mut wanted),
    };
    report::yes(rt, b"", agrees(&case))?;
    Ok(())
}

// The beginning of the case's line.
fn say(rt: &impl Print, stage: u32, size: Size, border: u8) -> io::Result<()> {
    report::part(rt, b"stage ", u64::from(stage))?;
    report::part(rt, b", ", size.width as u64)?;
    report::part(rt, b" by ", size.height as u64)?;
    report::part(rt, b", border ", u64::from(border))
}

fn agrees(case: &Case) -> bool {
    match case.stage {
        Stage::ResolveCoord => pictures::resolved(case),
        Stage::Picture(picture) => pictures::agrees(case, picture),
        Stage::SobelGradients => gradients::gradients(case),
        Stage::GradientMagnitude => gradients::magnitudes(case),
        Stage::Sector => gradients::sectors(case),
        Stage::NonMaximumSuppression => gradients::suppressed(case),
        Stage::Walk => walks::walked(case),
        Stage::Canny => walks::whole(case),
    }
}

// What a list's numbers stand for, in the part of the buffer that they fill. `cases::turn` writes them, and answers how many.
pub(crate) fn turned<'a, T: Number>(list: &[u32], out: &'a mut [T]) -> &'a [T] {
    let n = turn(list, out);
    &out[..n]
}
