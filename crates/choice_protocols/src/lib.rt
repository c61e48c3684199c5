//! The protocols of a text, where each choice is a number that is sent and `if` equations for it, found by name.
#![tactic(auto)]

mod declarations;
mod indexes;
mod numbers;
mod protocols;
mod table;
mod turns;

pub use table::SourceTable;
pub use turns::Sources;
