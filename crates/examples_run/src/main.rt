// Runs the calls of the library, through kelontsira, whose functions are the exports, on 01's examples and on every refusal: the cases stand
// in the file stdin, one to a line, with what 01 wants of each. Each printed line has what was got and what is wanted.
#![tactic(auto)]

mod blurs;
mod call;
mod gradients;
mod magnitudes;
mod pictures;

use call::Call;
use cases::{Line, Text};
use std::io;

// More bytes than the file has.
const TEXT: usize = 131072;

fn main(rt: HostRuntime) -> io::Result<()> {
    let mut text = [0u8; TEXT];
    let n = cases::read_full(&mut rt.stdin(), &mut text)?;
    for mut case in Text::new(&text[..n]).cases() {
        let line = case.line(&rt)?;
        match Call::of(&line) {
            Some(Call::Heading) => {}
            Some(Call::ResolveCoord) => pictures::resolved(&rt, &line)?,
            call if line.has(b"work") => blurs::run(&rt, &line, call)?,
            Some(call) => example(&rt, &line, call)?,
            None => {}
        }
    }
    Ok(())
}

// A case with no work buffer.
fn example(rt: &impl Print, line: &Line, call: Call) -> io::Result<()> {
    match call {
        Call::Picture(picture) => pictures::run(rt, line, picture),
        Call::SobelGradients => gradients::components(rt, line),
        Call::GradientMagnitude => gradients::magnitude(rt, line),
        Call::NonMaximumSuppression => gradients::suppression(rt, line),
        Call::SobelByte => gradients::sobel_byte(rt, line),
        Call::MagnitudeOf => gradients::magnitude_of(rt, line),
        Call::Sector => gradients::sector(rt, line),
        Call::Every(every) => magnitudes::every(rt, line, every),
        // A blur with no work buffer is no case.
        Call::Heading | Call::ResolveCoord | Call::Blur(_) => Ok(()),
    }
}
