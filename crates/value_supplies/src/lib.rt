//! Values that are given at resources: what they take from a context, and from a proof.
#![tactic(auto)]

mod accepting;
mod asking;
mod equalities;
mod giving;
mod listing;
mod parts;
mod terms;

pub use accepting::accept;
pub use equalities::{equate, equate_all};
pub use giving::give;
pub use listing::give_all;
