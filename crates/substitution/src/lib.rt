//! Terms put in for names, in normal form: terms and resources.
#![tactic(auto)]

mod catching;
mod faults;
mod lengths;
mod putting;
mod scope;
mod spelling;
mod substituting;
mod summands;

pub use faults::SubstFault;
pub use substituting::{subst, subst_terms};
