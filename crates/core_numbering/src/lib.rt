//! Numbers the nodes of a tree whose forms are all of the core language.
#![tactic(auto)]

mod adding;
mod laws;
mod numbering;
mod programs;

pub use laws::a_tree_has_one_program;
pub use programs::number;
