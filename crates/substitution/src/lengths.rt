//! The length of the longest name.
ghost use Rattle.std.specs.Prelude.{◌≤◌, All, map, option_to_list};
ghost use Rattle.chan_syntax.specs.Reading.{term_of, limit_of, shape_of, res_of};
ghost use Rattle.linear_forms.specs.Replacing.{IsShort, IsShortTerm, IsShortLimit, IsShortShape, IsShortRes, ArePutShort};
ghost use Rattle.substitution.specs.Scopes.{put_in};

use crate::scope::Put;
use chan_syntax::{Ident, Limit, Part, Res, Shape, Term};

fn with_name(most: usize, name: &Ident) -> usize
    ensures more { most ≤ result }
    ensures short { IsShort result name.now }
{
    most.max(name.as_slice().len())
}

fn with_names(most: usize, names: &[Ident]) -> usize
    ensures more { most ≤ result }
    ensures short { All (IsShort result) names.now }
{
    let mut longest = most;
    for name in names {
        longest = with_name(longest, name);
    }
    longest
}

fn with_part(most: usize, part: &Part) -> usize
    ensures more { most ≤ result }
    ensures short { All (IsShort result) (option_to_list part.now.name) }
{
    match &part.name {
        Some(name) => with_name(most, name),
        None => most,
    }
}

fn with_term(most: usize, term: &Term) -> usize
    ensures more { most ≤ result }
    ensures short { IsShortTerm result (term_of term.now) }
{
    let mut longest = most;
    for part in term.parts.as_slice() {
        longest = with_part(longest, part);
    }
    longest
}

fn with_terms(most: usize, terms: &[Term]) -> usize
    ensures more { most ≤ result }
    ensures short { All (IsShortTerm result) (map term_of terms.now) }
{
    let mut longest = most;
    for term in terms {
        longest = with_term(longest, term);
    }
    longest
}

fn with_limits(most: usize, limits: &[Limit]) -> usize
    ensures more { most ≤ result }
    ensures short { All (IsShortLimit result) (map limit_of limits.now) }
{
    let mut longest = most;
    for limit in limits {
        longest = with_term(with_term(longest, &limit.left), &limit.right);
    }
    longest
}

#[cycle(lengths)]
fn with_shape(most: usize, shape: &Shape) -> usize
    ensures more { most ≤ result }
    ensures short { IsShortShape result (shape_of shape.now) }
{
    match shape {
        Shape::Unit => most,
        Shape::Int(term) => with_term(most, term),
        Shape::End(end) => with_terms(most, end.args.as_slice()),
        Shape::Pair(first, second) => with_res(with_res(most, first.get()), second.get()),
        Shape::Sum(arms) => with_resources(most, arms.as_slice()),
    }
}

#[cycle(lengths)]
fn with_resources(most: usize, resources: &[Res]) -> usize
    ensures more { most ≤ result }
    ensures short { All (IsShortRes result) (map res_of resources.now) }
{
    let mut longest = most;
    for resource in resources {
        longest = with_res(longest, resource);
    }
    longest
}

/// At least so much, and no name of the resource is longer.
#[cycle(lengths)]
pub(crate) fn with_res(most: usize, res: &Res) -> usize
    ensures more { most ≤ result }
    ensures short { IsShortRes result (res_of res.now) }
{
    let names = with_names(most, res.bound.names.as_slice());
    let limits = with_limits(names, res.bound.limits.as_slice());
    with_shape(limits, &res.shape)
}

/// The length of the longest name of the terms that are put in.
pub(crate) fn longest_put(put: &[Put]) -> usize
    ensures { ArePutShort result (map put_in put.now) }
{
    let mut longest = 0;
    for put in put {
        longest = with_term(longest, &put.term);
    }
    longest
}
