//! The walk over the numbered nodes of a body that finds the first fault of its outline.
#![tactic(auto)]

mod follows;
mod outlining;
mod refusals;
mod walking;

pub use outlining::Outlining;
pub use refusals::Refusal;
pub use walking::walk;
