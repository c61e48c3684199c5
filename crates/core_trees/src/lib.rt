//! Trees that need no lowering.
#![tactic(auto)]

mod cores;

pub use cores::is_core;
