//! Hands.
use crate::steps::Seat;
use sqlite_items::Items;

/// A seat at a table of cells. Between two calls it has no slot.
#[derive(Drop)]
pub struct Hand<L, P, A> {
    pub seat: Seat<L, P, A>,
}

/// A list of hands.
pub type Hands<L, P, A> = Items<Hand<L, P, A>>;
