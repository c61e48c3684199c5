//! Protocols without the names of their parameters, found by name.
#![tactic(auto)]

mod indexes;
mod protocols;
mod steps;
mod table;

pub use protocols::{Direction, Fork, Message, Protocol, Protocols, Step};
pub use table::ProtocolTable;
