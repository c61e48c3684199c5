//! The nodes of statements.
#![tactic(auto)]

mod statements;

pub use statements::stmt_node;
