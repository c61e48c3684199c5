//! Names that are read from their texts.
#![tactic(auto)]

mod names;
mod parts;

pub use names::{laws, read_name};
