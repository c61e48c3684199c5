//! Tells whether a program is outlined, or its first fault.
#![tactic(auto)]

mod checking;
mod entering;
mod meeting;
mod outline;
mod reading;
mod stacking;
mod stacks;

pub use checking::{Checked, check};
