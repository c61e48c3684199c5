//! The number that tells which way a choice went.
ghost use Rattle.std.specs.Prelude.{◌≡◌, ◌<◌, ◌^◌, [], ◌∷◌, ◌++◌, pos, IfOk, OnOk};
ghost use Rattle.chan_syntax.specs.declared.linear.Relation.TheVariants as relation;
ghost use Rattle.session_lowering.specs.Choices as spec;
ghost use Rattle.session_lowering.specs.PutTerms as term;

use chan_base::{Memory, Span};
use chan_syntax::{Bound, Ident, Limit, Limits, Relation, Res, Shape, Term};
use made_names::{name_term, number_term};
use sqlite_items::Items;
use std::alloc::Global;

/// Its name.
pub(crate) fn bit(alloc: Global) -> Result<Ident, Memory>
    ensures { IfOk result (λ name. name ≡ spec.bit) }
{
    let name = Ident::from_slice(alloc, b"b.0")?;
    Ok(name)
}

/// Its name as a term.
pub(crate) fn bit_term(alloc: Global, span: Span) -> Result<Term, Memory>
    ensures { IfOk result (λ made. made ≡ term.name_term span spec.bit span) }
{
    let name = bit(alloc)?;
    name_term(alloc, span, &name, span)
}

pub(crate) fn index_term(alloc: Global, span: Span, index: usize) -> Result<Term, Memory>
    requires { index < 2 ^ 63 }
    ensures { IfOk result (λ made. made ≡ term.number_term span (pos index)) }
{
    number_term(alloc, span, index as i64)
}

fn put_at_most(limits: &mut Limits, left: Term, right: Term) -> Result<(), Memory>
    ensures { OnOk result (limits.new ≡ limits.old ++ record { left = left; relation = relation.AtMost; right = right } ∷ []) }
{
    limits.push(Limit {
        left,
        relation: Relation::AtMost,
        right,
    })?;
    Ok(())
}

fn limits_up_to(alloc: Global, span: Span, most: usize) -> Result<Limits, Memory>
    requires { most < 2 ^ 63 }
    ensures { IfOk result (λ limits. limits ≡ (spec.up_to span most).limits) }
{
    let mut limits = Items::new(alloc);
    let zero = index_term(alloc, span, 0)?;
    let bit = bit_term(alloc, span)?;
    put_at_most(&mut limits, zero, bit)?;
    let bit = bit_term(alloc, span)?;
    let most = index_term(alloc, span, most)?;
    put_at_most(&mut limits, bit, most)?;
    Ok(limits)
}

/// From 0 to the greatest number.
fn up_to(alloc: Global, span: Span, most: usize) -> Result<Bound, Memory>
    requires { most < 2 ^ 63 }
    ensures { IfOk result (λ bound. bound ≡ spec.up_to span most) }
{
    let mut names = Items::new(alloc);
    names.push(bit(alloc)?)?;
    let mut names_spans = Items::new(alloc);
    names_spans.push(span)?;
    let limits = limits_up_to(alloc, span, most)?;
    Ok(Bound {
        names,
        names_spans,
        limits,
    })
}

/// The integer that is sent.
pub(crate) fn bit_res(alloc: Global, span: Span, most: usize) -> Result<Res, Memory>
    requires { most < 2 ^ 63 }
    ensures { IfOk result (λ res. res ≡ spec.bit_res span most) }
{
    let term = bit_term(alloc, span)?;
    let bound = up_to(alloc, span, most)?;
    Ok(Res {
        bound,
        shape: Shape::Int(term),
    })
}
