//! The parser of what stands in statements and declarations.
#![tactic(auto)]

mod certificates;
mod name_lists;
mod resources;
mod terms;
mod values;

pub use certificates::proof;
pub use name_lists::names;
pub use resources::{bound, param, res, shape};
pub use terms::{more_parts, number_term, part, reference, term, term_and_number, two_terms};
pub use values::{bracketed, given_values, no_names, pat, route, value};
