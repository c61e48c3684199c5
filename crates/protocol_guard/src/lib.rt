//! Whether protocols reach themselves through Branch equations alone.
#![tactic(auto)]

mod cycles;
mod graphs;
mod guarding;
mod ranks;
mod searches;

pub use cycles::{FirstCycle, find_cycle};
pub use graphs::Turns;
pub use guarding::{Cycle, GuardFault, guarded, names_of};
pub use searches::Step;
