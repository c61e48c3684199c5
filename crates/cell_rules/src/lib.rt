//! The rule of the shared cells, over plain data.
#![tactic(auto)]

mod item;
mod view;
mod words;

pub use item::Item;
pub use view::View;
pub use words::{claimed, done, empty, ended, free, full, halted, parked, ready, running, waiting};
