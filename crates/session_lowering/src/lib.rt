//! What lowering works on, and the core program of a tree with sessions: definitions, and the types that they speak of.
#![tactic(auto)]

mod events;
mod puts;
mod sources;

pub use events::{Event, Events, Sending};
pub use puts::{Put, Puts};
pub use sources::Source;
