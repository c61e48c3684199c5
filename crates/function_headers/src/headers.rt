//! Headers without the names of their binders.
use chan_syntax::Ident;
use nameless_shapes::{Limits, Resource, Shape};
use sqlite_items::Items;

pub type Shapes = Items<Shape>;

/// What a call asks of a function's header.
#[derive(Drop)]
pub struct Header {
    pub name: Ident,
    pub binders: usize,
    pub limits: Limits,
    /// The shapes of its parameters.
    pub shapes: Shapes,
    pub result: Resource,
    /// Whether the result is the unit without binders.
    pub gives_unit: bool,
}

pub type Headers = Items<Header>;
