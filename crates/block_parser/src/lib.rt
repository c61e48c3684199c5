//! The parser of blocks.
#![tactic(auto)]

mod bindings;
mod blocks;
mod parts;
mod statements;

pub use blocks::block;
pub use parts::at_most;
