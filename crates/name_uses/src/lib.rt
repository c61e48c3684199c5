//! The names in operands, and numbers that are noted for names.
#![tactic(auto)]

mod operands;
mod uses;

pub use operands::{add_name, add_supplies, add_supply, add_term, add_terms};
pub use uses::{Uses, has_between, note_all, uses_of};
