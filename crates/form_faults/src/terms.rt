//! Terms, limits, binders and references.
#![tactic(auto, using(crate::proofs::Firsts::first_rules, std::proofs::lemmas::Grind::common_steps), unfolding(crate::specs::Terms::parts_faults, crate::specs::Terms::term_faults, crate::specs::Terms::terms_faults, crate::specs::Terms::fixed_term_faults, crate::specs::Terms::fixed_terms_faults, crate::specs::Terms::limit_faults, crate::specs::Terms::limits_faults, crate::specs::Terms::fixed_ref_faults, crate::specs::Terms::ref_faults))]

ghost use Rattle.std.specs.Prelude.{◌≡◌, length, OnOk};
ghost use Rattle.form_faults.specs.Faults.{least};
ghost use Rattle.form_faults.specs.Terms as spec;

use crate::faults::{Ill, note_number};
use crate::scopes::{Scope, check_name};
use crate::sorts::Naming;
use crate::tables::{Table, check_use};
use chan_base::{Memory, Span};
use chan_syntax::{Limit, Part, Ref, Term};
use narrow_terms::{is_narrow, is_narrow_limit};
use std::alloc::Global;

#[tactic(auto, using(crate::proofs::Firsts::first_rules, std::proofs::lemmas::Grind::common_steps), unfolding(crate::specs::Terms::part_faults))]
fn check_part(
    alloc: Global,
    first: &mut Option<Ill>,
    scope: &Scope,
    may: Naming,
    part: &Part,
    span: Span,
) -> Result<(), Memory>
    ensures { OnOk result (first.new ≡ least first.old (spec.part_faults may scope.now span part.now)) }
{
    match &part.name {
        None => Ok(()),
        Some(name) => {
            let span = part.name_span.unwrap_or(span);
            check_name(alloc, first, scope, may, name, span)
        }
    }
}

fn check_parts(
    alloc: Global,
    first: &mut Option<Ill>,
    scope: &Scope,
    may: Naming,
    parts: &[Part],
    span: Span,
) -> Result<(), Memory>
    ensures { OnOk result (first.new ≡ least first.old (spec.parts_faults may scope.now span parts.now)) }
{
    for part in parts {
        check_part(alloc, first, scope, may, part, span)?;
    }
    Ok(())
}

/// A term that may use some of the names in scope.
pub fn check_term(
    alloc: Global,
    first: &mut Option<Ill>,
    scope: &Scope,
    may: Naming,
    term: &Term,
) -> Result<(), Memory>
    ensures { OnOk result (first.new ≡ least first.old (spec.term_faults may scope.now term.now)) }
{
    check_parts(alloc, first, scope, may, term.parts.as_slice(), term.span)
}

pub fn check_terms(
    alloc: Global,
    first: &mut Option<Ill>,
    scope: &Scope,
    may: Naming,
    terms: &[Term],
) -> Result<(), Memory>
    ensures { OnOk result (first.new ≡ least first.old (spec.terms_faults may scope.now terms.now)) }
{
    for term in terms {
        check_term(alloc, first, scope, may, term)?;
    }
    Ok(())
}

/// A term of a header, a resource or a protocol.
pub fn check_fixed_term(
    alloc: Global,
    first: &mut Option<Ill>,
    scope: &Scope,
    term: &Term,
) -> Result<(), Memory>
    ensures { OnOk result (first.new ≡ least first.old (spec.fixed_term_faults scope.now term.now)) }
{
    let fits = is_narrow(alloc, term)?;
    note_number(alloc, first, fits, term.span);
    check_term(alloc, first, scope, Naming::Integers, term)
}

fn check_fixed_terms(
    alloc: Global,
    first: &mut Option<Ill>,
    scope: &Scope,
    terms: &[Term],
) -> Result<(), Memory>
    ensures { OnOk result (first.new ≡ least first.old (spec.fixed_terms_faults scope.now terms.now)) }
{
    for term in terms {
        check_fixed_term(alloc, first, scope, term)?;
    }
    Ok(())
}

fn check_limit(
    alloc: Global,
    first: &mut Option<Ill>,
    scope: &Scope,
    limit: &Limit,
) -> Result<(), Memory>
    ensures { OnOk result (first.new ≡ least first.old (spec.limit_faults scope.now limit.now)) }
{
    let fits = is_narrow_limit(alloc, limit)?;
    note_number(alloc, first, fits, limit.left.span);
    check_fixed_term(alloc, first, scope, &limit.left)?;
    check_fixed_term(alloc, first, scope, &limit.right)
}

pub(crate) fn check_limits(
    alloc: Global,
    first: &mut Option<Ill>,
    scope: &Scope,
    limits: &[Limit],
) -> Result<(), Memory>
    ensures { OnOk result (first.new ≡ least first.old (spec.limits_faults scope.now limits.now)) }
{
    for limit in limits {
        check_limit(alloc, first, scope, limit)?;
    }
    Ok(())
}

/// A reference of a header, a resource or a protocol.
pub fn check_fixed_ref(
    alloc: Global,
    first: &mut Option<Ill>,
    protos: &Table,
    scope: &Scope,
    reference: &Ref,
) -> Result<(), Memory>
    ensures { OnOk result (first.new ≡ least first.old (spec.fixed_ref_faults protos.now scope.now reference.now)) }
{
    let args = reference.args.as_slice();
    check_use(
        alloc,
        first,
        protos,
        &reference.name,
        reference.name_span,
        args.len(),
    )?;
    check_fixed_terms(alloc, first, scope, args)
}

/// A reference of a statement.
pub fn check_ref(
    alloc: Global,
    first: &mut Option<Ill>,
    protos: &Table,
    scope: &Scope,
    reference: &Ref,
) -> Result<(), Memory>
    ensures { OnOk result (first.new ≡ least first.old (spec.ref_faults protos.now scope.now reference.now)) }
{
    let args = reference.args.as_slice();
    check_use(
        alloc,
        first,
        protos,
        &reference.name,
        reference.name_span,
        args.len(),
    )?;
    check_terms(alloc, first, scope, Naming::Either, args)
}
