//! Sums of products that pass 128 bits on the way.
#![tactic(auto)]

mod wide;

pub use wide::Wide;
