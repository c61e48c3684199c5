//! Protocols: duals, and ends that are followed to their heads.
#![tactic(auto)]

mod asking;
mod duals;
mod faults;
mod laws;
mod messages;
mod paths;
mod unfolding;

pub use duals::{dual, dual_ref};
pub use faults::UnfoldFault;
pub use laws::{an_end_has_one_head, the_dual_is_the_other_end, unfolding_finds_the_head};
pub use messages::Head;
pub use unfolding::{Unfolded, unfold};
