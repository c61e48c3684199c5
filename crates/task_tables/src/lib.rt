//! Tables of tasks.
#![tactic(auto)]

mod tables;
mod written;

pub use tables::TaskTable;
