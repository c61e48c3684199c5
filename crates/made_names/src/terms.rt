//! Terms that are a number or a name.
ghost use Rattle.std.specs.Prelude.{◌≡◌, [], ◌∷◌, IfOk};
ghost use Rattle.session_lowering.specs.PutTerms as spec;

use chan_base::{Memory, Span};
use chan_syntax::{Ident, Part, Term};
use sqlite_items::Items;
use std::alloc::Global;

fn one_part(alloc: Global, span: Span, part: Part) -> Result<Term, Memory>
    ensures { IfOk result (λ term. term ≡ record { parts = part ∷ []; span = span }) }
{
    let mut parts = Items::new(alloc);
    parts.push(part)?;
    Ok(Term { parts, span })
}

pub fn number_term(alloc: Global, span: Span, number: i64) -> Result<Term, Memory>
    ensures { IfOk result (λ term. term ≡ spec.number_term span number) }
{
    let part = Part {
        negative: false,
        factor: number,
        name: None,
        name_span: None,
    };
    one_part(alloc, span, part)
}

/// A name, where it stands.
pub fn name_term(alloc: Global, span: Span, name: &Ident, at: Span) -> Result<Term, Memory>
    ensures { IfOk result (λ term. term ≡ spec.name_term span name.now at) }
{
    let part = Part {
        negative: false,
        factor: 1,
        name: Some(name.copy()?),
        name_span: Some(at),
    };
    one_part(alloc, span, part)
}
