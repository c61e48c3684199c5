//! How many parameters functions and protocols have.
use chan_syntax::Ident;

/// A function or a protocol, and how many parameters it has.
#[derive(Drop)]
pub struct Signature {
    pub name: Ident,
    pub count: usize,
}
