//! Linear forms over places, in numbers of 64 bits, and the exact sums that they are made of.
#![tactic(auto)]

mod comparing;
mod counts;
mod faults;
mod limits;
mod linear;
mod putting;
mod reaching;
mod sums;
mod terms;
mod variables;

pub use faults::FormFault;
pub use limits::{Limit, at_most_row, at_most_row_with, less_row, less_row_with};
pub use linear::{Form, Forms};
pub use putting::form_with;
pub use sums::{FormSum, Standing};
pub use terms::{Names, form_of_term};
pub use variables::Var;
