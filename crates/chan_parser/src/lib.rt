//! The parser of programs.
#![tactic(auto)]

mod declarations;
mod parse_fault;
mod parser;

pub use parse_fault::ParseFault;
pub use parser::parse;
