//! The values of a run, the variables that have them, and what operands come to.
#![tactic(auto)]

mod binds;
mod computing;
mod stops;
mod supplying;
mod values;

pub use binds::{Bind, Binds};
pub use computing::{Trouble, lookup, product_of_sums, quotient, remainder, sum};
pub use stops::{Halt, StuckWhy};
pub use supplying::{make, make_all, weigh_all, weighed};
pub use values::{Channel, Shared, Value, Values};
