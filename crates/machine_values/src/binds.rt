//! Variables and their values.

use crate::values::Value;
use chan_syntax::Ident;

/// Variables in the order in which they were bound.
pub type Binds = Vec<Bind>;

#[derive(Drop)]
pub struct Bind {
    pub name: Ident,
    pub value: Value,
}
