//! Whether a binder would catch a name of a term that is put in.
ghost use Rattle.std.specs.Prelude.{◌≡◌, map, flat_map, option_to_list, is_none, ◌&&◌, Some, IfOk};
ghost use Rattle.std.specs.List.{list_any};
ghost use Rattle.core_language.specs.Names.{same};
ghost use Rattle.chan_syntax.specs.Reading.{part_of, term_of, limit_of, shape_of, res_of};
ghost use Rattle.linear_forms.specs.Normal.{names_of};
ghost use Rattle.linear_forms.specs.Substitution.{put_names, puts, scoped, terms_of_limit, terms_of_shape, terms_of_res};
ghost use Rattle.substitution.specs.Likeness.{puts_below, catches_at};
ghost use Rattle.substitution.specs.Scopes.{put_in, before_of};

use crate::scope::{Binder, Put, Scope, is_free, joined, kept, put_named};
use chan_base::Memory;
use chan_syntax::{Ident, Limit, Part, Res, Shape, Term};
use std::alloc::Global;

fn part_names(part: &Part, name: &Ident) -> bool
    ensures { result ≡ list_any (λ x. same x name.now) (option_to_list part.now.name) }
{
    match &part.name {
        Some(other) => other == name,
        None => false,
    }
}

fn parts_name(parts: &[Part], name: &Ident) -> bool
    ensures { result ≡ list_any (λ x. same x name.now) (names_of (map part_of parts.now)) }
{
    for part in parts {
        if part_names(part, name) {
            return true;
        }
    }
    false
}

/// Whether a term stands for the name, and names the other.
fn replaces_naming(put: &[Put], name: &Ident, other: &Ident) -> bool
    ensures { result ≡ put_names (map put_in put.now) name.now other.now }
{
    match put_named(put, name) {
        Some(put) => parts_name(put.term.parts.as_slice(), other),
        None => false,
    }
}

fn part_puts(scope: &[Binder], put: &[Put], part: &Part, name: &Ident) -> bool
    ensures { result ≡ list_any (λ x. catches_at put.now scope.now x name.now) (option_to_list part.now.name) }
{
    match &part.name {
        Some(other) => is_free(scope, other) && replaces_naming(put, other, name),
        None => false,
    }
}

fn term_puts(scope: &[Binder], put: &[Put], term: &Term, name: &Ident) -> bool
    ensures { result ≡ puts (map put_in put.now) name.now (record { binders = before_of scope.now; term = term_of term.now }) }
{
    for part in term.parts.as_slice() {
        if part_puts(scope, put, part, name) {
            return true;
        }
    }
    false
}

fn terms_put(scope: &[Binder], put: &[Put], terms: &[Term], name: &Ident) -> bool
    ensures { result ≡ list_any (puts (map put_in put.now) name.now) (scoped (before_of scope.now) (map term_of terms.now)) }
{
    for term in terms {
        if term_puts(scope, put, term, name) {
            return true;
        }
    }
    false
}

fn limits_put(scope: &[Binder], put: &[Put], limits: &[Limit], name: &Ident) -> bool
    ensures { result ≡ list_any (puts (map put_in put.now) name.now) (scoped (before_of scope.now) (flat_map terms_of_limit (map limit_of limits.now))) }
{
    for limit in limits {
        if term_puts(scope, put, &limit.left, name) || term_puts(scope, put, &limit.right, name) {
            return true;
        }
    }
    false
}

#[cycle(catching)]
fn shape_puts(
    alloc: Global,
    scope: &Scope,
    put: &[Put],
    shape: &Shape,
    name: &Ident,
) -> Result<bool, Memory>
    ensures { IfOk result (λ caught. caught ≡ list_any (puts (map put_in put.now) name.now) (terms_of_shape (before_of scope.now) (shape_of shape.now))) }
{
    match shape {
        Shape::Unit => Ok(false),
        Shape::Int(term) => Ok(term_puts(scope.as_slice(), put, term, name)),
        Shape::End(end) => Ok(terms_put(scope.as_slice(), put, end.args.as_slice(), name)),
        Shape::Pair(first, second) => {
            let in_first = catches(alloc, scope, put, first.get(), name)?;
            let in_second = catches(alloc, scope, put, second.get(), name)?;
            Ok(in_first || in_second)
        }
        Shape::Sum(arms) => resources_put(alloc, scope, put, arms.as_slice(), name),
    }
}

#[cycle(catching)]
fn resources_put(
    alloc: Global,
    scope: &Scope,
    put: &[Put],
    resources: &[Res],
    name: &Ident,
) -> Result<bool, Memory>
    ensures { IfOk result (λ caught. caught ≡ puts_below put.now scope.now resources.now name.now) }
{
    for resource in resources {
        if catches(alloc, scope, put, resource, name)? {
            return Ok(true);
        }
    }
    Ok(false)
}

/// Whether a term that is put in within the resource names the name.
#[cycle(catching)]
pub(crate) fn catches(
    alloc: Global,
    scope: &Scope,
    put: &[Put],
    res: &Res,
    name: &Ident,
) -> Result<bool, Memory>
    ensures { IfOk result (λ caught. caught ≡ list_any (puts (map put_in put.now) name.now) (terms_of_res (before_of scope.now) (res_of res.now))) }
{
    let scope = joined(kept(alloc, &res.bound.names)?, scope)?;
    let in_limits = limits_put(scope.as_slice(), put, res.bound.limits.as_slice(), name);
    let in_shape = shape_puts(alloc, &scope, put, &res.shape, name)?;
    Ok(in_limits || in_shape)
}
