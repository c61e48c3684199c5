//! Copies of statements.
#![tactic(auto)]

mod statements;

pub use statements::{access, called, copy_stmt, pats};
