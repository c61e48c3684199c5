//! Cells that are given again once both of their finishers have retired them.
#![tactic(auto)]

mod pool;

pub use one_shot_word::{FreeCell, Retired};
pub use pool::{reopen, retire};
