//! Terms in a context: their normal forms.
#![tactic(auto)]

mod forms;
mod naming;
mod sums;

pub use forms::normal;
pub use naming::{IntNames, IntVar, IntVars, TermFault};
