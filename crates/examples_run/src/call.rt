// The calls that a case may be of.
use cases::Line;

#[derive(Clone, Copy)]
pub(crate) enum Call {
    // A name alone, which is written when the line is read.
    Heading,
    ResolveCoord,
    Picture(Picture),
    Blur(Blur),
    SobelGradients,
    GradientMagnitude,
    NonMaximumSuppression,
    SobelByte,
    MagnitudeOf,
    Sector,
    Every(Every),
}

// A byte picture of a byte picture, with no work buffer.
#[derive(Clone, Copy)]
pub(crate) enum Picture {
    ApplyKernel,
    Sharpen,
    Sobel,
    Median,
}

// With a work buffer.
#[derive(Clone, Copy)]
pub(crate) enum Blur {
    Separable,
    Gaussian,
    Box,
}

// Of every S.
#[derive(Clone, Copy)]
pub(crate) enum Every {
    Magnitude,
    Guess,
    ByteGuess,
}

// Each with its name.
const NAMES: [(&[u8], Call); 18] = [
    (b"heading", Call::Heading),
    (b"resolve_coord", Call::ResolveCoord),
    (b"apply_kernel", Call::Picture(Picture::ApplyKernel)),
    (b"apply_separable_kernel", Call::Blur(Blur::Separable)),
    (b"gaussian_blur", Call::Blur(Blur::Gaussian)),
    (b"box_blur", Call::Blur(Blur::Box)),
    (b"sharpen", Call::Picture(Picture::Sharpen)),
    (b"sobel", Call::Picture(Picture::Sobel)),
    (b"median", Call::Picture(Picture::Median)),
    (b"sobel_gradients", Call::SobelGradients),
    (b"gradient_magnitude", Call::GradientMagnitude),
    (b"non_maximum_suppression", Call::NonMaximumSuppression),
    (b"sobel_byte", Call::SobelByte),
    (b"magnitude_of", Call::MagnitudeOf),
    (b"sector", Call::Sector),
    (b"every_magnitude", Call::Every(Every::Magnitude)),
    (b"every_guess", Call::Every(Every::Guess)),
    (b"every_byte_guess", Call::Every(Every::ByteGuess)),
];

impl Call {
    pub(crate) fn of(line: &Line) -> Option<Call> {
        NAMES
            .iter()
            .find(|(name, _)| line.calls(name))
            .map(|(_, call)| *call)
    }
}
