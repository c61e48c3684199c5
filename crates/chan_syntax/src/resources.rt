//! What a value is worth, and the protocols of channels.
use crate::identifiers::{Ident, Idents};
use crate::linear::{Bound, Term, Terms};
use chan_base::{Span, Spans};
use sqlite_items::{Boxed, Items};

pub type Params = Items<Param>;

pub type Protos = Items<Proto>;

pub type Resources = Items<Res>;

pub type Refs = Items<Ref>;

/// A protocol at some arguments, or its dual.
#[derive(Drop)]
pub struct Ref {
    pub dual: bool,
    pub name: Ident,
    pub name_span: Span,
    pub args: Terms,
    pub span: Span,
}

#[cycle(shape)]
#[derive(Drop)]
pub enum Shape {
    Unit,
    Int(Term),
    End(Ref),
    Pair(Boxed<Res>, Boxed<Res>),
    Sum(Resources),
}

/// A resource: some integers within limits, and a shape that may name them.
#[cycle(shape)]
#[derive(Drop)]
pub struct Res {
    pub bound: Bound,
    pub shape: Shape,
}

#[derive(Drop)]
pub struct Param {
    pub name: Ident,
    pub name_span: Span,
    pub shape: Shape,
}

/// What an end of a channel does next. `Branch` goes on as the first reference where the first
/// term is at most the second, else as the other.
#[derive(Drop)]
pub enum Equation {
    Send(Res, Option<Ref>),
    Recv(Res, Option<Ref>),
    Close,
    Wait,
    Branch(Term, Term, Ref, Ref),
}

#[derive(Drop)]
pub struct Proto {
    pub name: Ident,
    pub name_span: Span,
    pub params: Idents,
    pub params_spans: Spans,
    pub equation: Equation,
    pub span: Span,
}
