//! Headers of functions without the names of their binders, found by name.
#![tactic(auto)]

mod headers;
mod indexes;
mod reading;
mod table;

pub use headers::{Header, Headers, Shapes};
pub use table::HeaderTable;
