//! Binders and their limits.
#![tactic(auto, using(crate::proofs::Firsts::first_rules, std::proofs::lemmas::Grind::common_steps), unfolding(crate::specs::Faults::past, crate::specs::Terms::limits_past, crate::specs::Terms::bound_faults, crate::specs::Terms::bound_scope))]

ghost use Rattle.std.specs.Prelude.{◌≡◌, ◌<◌, length, map, OnOk};
ghost use Rattle.std.specs.List.{list_any};
ghost use Rattle.form_faults.specs.Faults.{least, past};
ghost use Rattle.form_faults.specs.Scopes.{binders, has_dot, most_of, names_past};
ghost use Rattle.form_faults.specs.Terms as spec;

use crate::binding::{bind_names, span_at};
use crate::faults::{Ill, IllKind, note};
use crate::scopes::Scope;
use crate::sorts::Sort;
use crate::terms::check_limits;
use chan_base::{Memory, Span};
use chan_syntax::{Bound, Ident, Limit};
use std::alloc::Global;

/// No text has a name with a dot.
fn has_dot(name: &Ident) -> bool
    ensures { result ≡ has_dot name.now }
{
    name.as_slice().iter().any(|byte| *byte == b'.')
}

fn have_dot(names: &[Ident]) -> bool
    ensures { result ≡ list_any has_dot names.now }
{
    for name in names {
        if has_dot(name) {
            return true;
        }
    }
    false
}

/// How many names, and how many limits, a list of binders may have.
fn most_of(names: &[Ident]) -> usize
    ensures { result ≡ most_of names.now }
{
    if have_dot(names) { 32 } else { 16 }
}

/// TooMany at the first name past so many.
#[tactic(auto, using(crate::proofs::Firsts::first_rules, std::proofs::lemmas::Grind::common_steps, crate::proofs::Binders::names_past_rules))]
pub fn check_names(
    alloc: Global,
    first: &mut Option<Ill>,
    most: usize,
    names: &[Ident],
    spans: &[Span],
)
    ensures { first.new ≡ least first.old (names_past most (binders Sort.Integer names.now spans.now)) }
{
    if most < names.len() {
        note(alloc, first, IllKind::TooMany, span_at(spans, most));
    }
}

fn check_count(alloc: Global, first: &mut Option<Ill>, most: usize, limits: &[Limit])
    ensures { first.new ≡ least first.old (spec.limits_past most limits.now) }
{
    match limits.get(most) {
        None => {}
        Some(limit) => note(alloc, first, IllKind::TooMany, limit.left.span),
    }
}

/// Binds integer variables, and checks their limits.
pub fn bind_bound(
    alloc: Global,
    first: &mut Option<Ill>,
    scope: &mut Scope,
    bound: &Bound,
) -> Result<(), Memory>
    ensures first { OnOk result (first.new ≡ least first.old (spec.bound_faults scope.old bound.now)) }
    ensures scope { OnOk result (scope.new ≡ spec.bound_scope scope.old bound.now) }
{
    let names = bound.names.as_slice();
    let spans = bound.names_spans.as_slice();
    let limits = bound.limits.as_slice();
    let most = most_of(names);
    bind_names(alloc, first, scope, Sort::Integer, names, spans)?;
    check_names(alloc, first, most, names, spans);
    check_limits(alloc, first, scope, limits)?;
    check_count(alloc, first, most, limits);
    Ok(())
}
