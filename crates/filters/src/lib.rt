// The filters of silvestre, one module a file of the Rust's filters/. Each public call refuses by a row of the table or runs by document 01's rules.
#![tactic(auto)]

pub mod box_blur;
mod byte;
pub mod convolution;
pub mod gaussian;
mod passes;
pub mod sharpen;
mod sums;
