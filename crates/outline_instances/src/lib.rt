//! Instances for binders: terms of a proof, within the limits that its certificates show.
#![tactic(auto)]

mod limits;
mod supplying;

pub use supplying::{Supplied, instances};
