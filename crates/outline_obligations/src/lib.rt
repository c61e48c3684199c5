//! Obligations: rows that the certificates of a proof show to be at most 0.
#![tactic(auto)]

mod cursors;
mod faults;
mod forms;
mod obligations;

pub use cursors::{Refused, Taken, leftovers};
pub use faults::{ContextFault, Why};
pub use forms::{oblige, oblige_at_most, oblige_less};
pub use obligations::{asks_nothing, show_row};
