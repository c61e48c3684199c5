//! Protocols without the names of their parameters.
use chan_syntax::Ident;
use nameless_forms::Form;
use nameless_shapes::{Ref, Resource};
use sqlite_items::Items;

#[derive(Clone, Copy)]
pub enum Direction {
    Sends,
    Receives,
}

/// What an end sends or receives.
#[derive(Drop)]
pub struct Message {
    pub direction: Direction,
    pub res: Resource,
}

/// An end goes on as the first reference where the first term is at most the second, else as the other.
#[derive(Drop)]
pub struct Fork {
    pub left: Form,
    pub right: Form,
    pub this: Ref,
    pub other: Ref,
}

/// What an end does next.
#[derive(Drop)]
pub enum Step {
    Chooses(Fork),
    Tells(Message),
}

#[derive(Drop)]
pub struct Protocol {
    pub name: Ident,
    pub step: Step,
}

pub type Protocols = Items<Protocol>;
