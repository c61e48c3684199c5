//! Ends that are followed past `if` equations, to the message that they have there.
#![tactic(auto)]

mod following;
mod paths;
mod settings;
mod unfolding;

pub use unfolding::{Unfolded, unfold};
