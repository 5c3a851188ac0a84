// The exports for C: each is the function of the same name in the library kelontsira, under the same contract, with C's calling
// convention. include/kelontsira.h declares them.
#![tactic(auto)]

pub mod filtering;
pub mod gradients;
pub mod run;
pub mod walk;
