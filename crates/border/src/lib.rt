// Reading a picture through its border: what the filters' crates stand on.
#![tactic(auto)]

pub mod coord;
pub mod picture;
