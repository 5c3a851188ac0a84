// The library for C and Rust: each public call of the stages as one function of numbers and slices. The crate kelontsira_c exports them and
// include/kelontsira.h declares them; a slice is a pointer and a length there. Nothing is worked out here: each equals the call it wraps.
#![tactic(auto)]

pub mod filtering;
pub mod gradients;
mod numbers;
pub mod run;
pub mod walk;
