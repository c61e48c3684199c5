//! The history of a run: its entries in order, and their texts.
#![tactic(auto)]

mod merging;
mod texts;

pub use merging::{Logs, merge};
pub use texts::entry_text;
