//! Faults of form, and the first of several.
ghost use Rattle.std.specs.Prelude.{◌≡◌, OnOk};
ghost use Rattle.form_faults.specs.Faults.{number_of, precedes, decides, least, of_name, at_span, unless};

use chan_base::{Memory, Span};
use chan_syntax::{Ident, Idents};
use sqlite_items::Items;
use std::alloc::Global;

/// What is wrong with a form.
#[derive(Clone, Copy, Debug, PartialEq, Eq)]
pub enum IllKind {
    UnknownName,
    Twice,
    Arity,
    NoMain,
    Unscoped,
    Unguarded,
    TooMany,
    BadNumber,
    WrongSession,
}

/// A fault of form: its kind, the names that it tells, and where it stands.
#[derive(Drop)]
pub struct Ill {
    pub kind: IllKind,
    pub names: Idents,
    pub span: Span,
}

impl IllKind {
    /// Of two faults that start at one place the one with the lesser number comes first.
    pub fn number(self) -> u32
        ensures { result ≡ number_of self }
    {
        match self {
            IllKind::UnknownName => 1,
            IllKind::Twice => 2,
            IllKind::Arity => 3,
            IllKind::NoMain => 4,
            IllKind::Unscoped => 5,
            IllKind::Unguarded => 6,
            IllKind::TooMany => 7,
            IllKind::BadNumber => 8,
            IllKind::WrongSession => 9,
        }
    }
}

fn precedes(kind: IllKind, span: Span, best: &Ill) -> bool
    ensures { result ≡ precedes kind span best.now }
{
    span.start < best.span.start
        || (span.start == best.span.start && kind.number() < best.kind.number())
}

fn decides(first: &Option<Ill>, kind: IllKind, span: Span) -> bool
    ensures { result ≡ decides first.now kind span }
{
    match first {
        None => true,
        Some(best) => precedes(kind, span, best),
    }
}

/// Takes a fault of a name, where it comes before the first one so far.
#[tactic(auto, using(crate::proofs::Firsts::first_rules))]
pub fn note_name(
    alloc: Global,
    first: &mut Option<Ill>,
    kind: IllKind,
    name: &Ident,
    span: Span,
) -> Result<(), Memory>
    ensures { OnOk result (first.new ≡ least first.old (of_name kind name.now span)) }
{
    if decides(first, kind, span) {
        let mut names = Items::new(alloc);
        names.push(name.copy()?)?;
        *first = Some(Ill { kind, names, span });
    }
    Ok(())
}

/// Takes a fault that names nothing.
#[tactic(auto, using(crate::proofs::Firsts::first_rules))]
pub fn note(alloc: Global, first: &mut Option<Ill>, kind: IllKind, span: Span)
    ensures { first.new ≡ least first.old (at_span kind span) }
{
    if decides(first, kind, span) {
        let names = Items::new(alloc);
        *first = Some(Ill { kind, names, span });
    }
}

/// A number that isn't allowed, unless it fits.
#[tactic(auto, using(crate::proofs::Firsts::first_rules), unfolding(crate::specs::Faults::unless))]
pub fn note_number(alloc: Global, first: &mut Option<Ill>, fits: bool, span: Span)
    ensures { first.new ≡ least first.old (unless fits span) }
{
    if !fits {
        note(alloc, first, IllKind::BadNumber, span);
    }
}
