//! Whether 64 bits hold the numbers of terms and limits.
#![tactic(auto)]

mod narrowness;

pub use narrowness::{is_narrow, is_narrow_limit};
