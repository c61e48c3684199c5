//! What statements name: values, patterns, paths, and the proofs that are written beside them.
use crate::identifiers::{Ident, Idents};
use crate::linear::{Term, Terms};
use chan_base::{Span, Spans};
use sqlite_items::{Boxed, Items};

pub type Supplies = Items<Supply>;

pub type Path = Items<Letter>;

pub type WrittenMentions = Items<WrittenMention>;

pub type Certs = Items<WrittenCert>;

/// A value that a statement makes of variables and numbers. Arms are numbered from 0.
#[derive(Drop)]
pub enum Supply {
    Unit,
    Pair(Boxed<Supply>, Boxed<Supply>),
    Arm(u8, Boxed<Supply>),
    Sum(Term),
}

/// A name for a value, and names for the integers that its resource binds.
#[derive(Drop)]
pub struct Pat {
    pub name: Ident,
    pub name_span: Span,
    pub names: Idents,
    pub names_spans: Spans,
}

/// Which way a `Branch` equation is followed.
#[derive(Clone, Copy, PartialEq, Eq)]
pub enum Letter {
    Left,
    Right,
}

/// A mention as it is written: a text may hold numbers that a certificate can't.
#[derive(Clone, Copy, PartialEq, Eq)]
pub struct WrittenMention {
    pub negative: bool,
    pub factor: u64,
    pub factor_span: Span,
    pub index: u64,
    pub index_span: Span,
    pub span: Span,
}

/// A certificate as it is written. The divisor is 1 where none is.
#[derive(Drop)]
pub struct WrittenCert {
    pub divisor: u64,
    pub divisor_span: Option<Span>,
    pub mentions: WrittenMentions,
    pub span: Span,
}

/// Instances for binders, and certificates for obligations, each in order.
#[derive(Drop)]
pub struct Proof {
    pub instances: Terms,
    pub certs: Certs,
}
