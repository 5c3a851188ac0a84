// The loops over a picture's gradient: Sobel's components and bytes, the magnitudes, and their suppression. What is done to one pixel is the
// crate `pixel`'s.
#![tactic(auto)]

pub mod components;
mod fill;
pub mod magnitude;
pub mod sobel;
pub mod suppression;
mod window;
