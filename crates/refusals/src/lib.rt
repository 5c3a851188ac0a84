// Why each call refuses, if it does: the rows of document 01's table whose subject it has, in ascending order.
#![tactic(auto)]

pub mod filter;
pub mod gradient;
pub mod run;
mod table;
pub mod walk;
