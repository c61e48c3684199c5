//! Names with a dot, and terms of one part.
#![tactic(auto)]

mod names;
mod terms;

pub use names::{dotted, numbered};
pub use terms::{name_term, number_term};
