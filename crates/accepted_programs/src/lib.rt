//! Programs that are outlined.
#![tactic(auto)]

mod accepted;

pub use accepted::Accepted;
