//! Writes programs in their canonical spelling.
#![tactic(auto)]

mod blocks;
mod declarations;
mod heads;
mod plain;
mod printing;

pub use printing::print;
