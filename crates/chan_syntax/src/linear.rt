//! Linear terms, and limits between them.
ghost use Rattle.std.specs.Prelude.{◌≡◌, ◌≤◌, ◌^◌, unsigned_abs};
ghost use Rattle.linear_forms.specs.Terms.{times_of};
ghost use Rattle.chan_syntax.specs.Reading.{part_of};

use crate::identifiers::{Ident, Idents};
use chan_base::{Span, Spans};
use sqlite_items::Items;

pub type TermParts = Items<Part>;

pub type Terms = Items<Term>;

pub type Limits = Items<Limit>;

/// A product of a sum: a factor, times the value of a name where there is one, taken away from the
/// sum where it is negative.
#[derive(Drop)]
pub struct Part {
    pub negative: bool,
    pub factor: i64,
    pub name: Option<Ident>,
    pub name_span: Option<Span>,
}

impl Part {
    /// How often the part counts its name, or 1 where it has none.
    pub fn times(&self) -> i128
        ensures value { result ≡ times_of (part_of self.now) }
        ensures bound { unsigned_abs result ≤ 2 ^ 63 }
    {
        let factor = i128::from(self.factor);
        if self.negative { -factor } else { factor }
    }
}

#[derive(Drop)]
pub struct Term {
    pub parts: TermParts,
    pub span: Span,
}

#[derive(Clone, Copy, PartialEq, Eq)]
pub enum Relation {
    AtMost,
    Less,
    Same,
}

#[derive(Drop)]
pub struct Limit {
    pub left: Term,
    pub relation: Relation,
    pub right: Term,
}

/// Integer variables that are bound, and the limits that they keep.
#[derive(Drop)]
pub struct Bound {
    pub names: Idents,
    pub names_spans: Spans,
    pub limits: Limits,
}
