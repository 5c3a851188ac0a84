// The vendor's stages.
#[derive(Clone, Copy)]
pub(crate) enum Stage {
    ResolveCoord,
    Picture(Picture),
    SobelGradients,
    GradientMagnitude,
    Sector,
    NonMaximumSuppression,
    Walk,
    Canny,
}

// Those that make a byte picture of a byte picture.
#[derive(Clone, Copy)]
pub(crate) enum Picture {
    ApplyKernel,
    ApplySeparableKernel,
    GaussianBlur,
    BoxBlur,
    Sharpen,
    Median,
    Sobel,
}

// The file stdin has these numbers.
impl From<u32> for Stage {
    fn from(number: u32) -> Stage {
        match number {
            1 => Stage::ResolveCoord,
            2 => Stage::Picture(Picture::ApplyKernel),
            3 => Stage::Picture(Picture::ApplySeparableKernel),
            4 => Stage::Picture(Picture::GaussianBlur),
            5 => Stage::Picture(Picture::BoxBlur),
            6 => Stage::Picture(Picture::Sharpen),
            7 => Stage::Picture(Picture::Median),
            0 | 8 => Stage::Picture(Picture::Sobel),
            9 => Stage::SobelGradients,
            10 => Stage::GradientMagnitude,
            11 => Stage::Sector,
            12 => Stage::NonMaximumSuppression,
            13 => Stage::Walk,
            _ => Stage::Canny,
        }
    }
}
