// The arithmetic of one pixel, with no loop over a picture: what is made of the nine bytes about it, and of its two components.
#![tactic(auto)]

pub mod byte;
pub mod components;
pub mod root;
pub mod sector;
