//! Contexts of outlines, as lists that only grow: leaving a body cuts them back.
#![tactic(auto)]

mod binding;
mod ends;
mod holding;
mod hypotheses;
mod integers;
mod limits;
mod marks;
mod obliging;
mod places;
mod starting;
mod trail;

pub use marks::Mark;
pub use trail::Context;
