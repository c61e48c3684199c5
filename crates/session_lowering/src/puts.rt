//! Terms that are put in for names.
use chan_syntax::{Ident, Term};
use sqlite_items::Items;

pub type Puts = Items<Put>;

/// A name, and the term that stands for it.
#[derive(Drop)]
pub struct Put {
    pub name: Ident,
    pub term: Term,
}
