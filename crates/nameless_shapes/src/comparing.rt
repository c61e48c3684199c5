//! Whether two shapes or resources are one.
ghost use Rattle.std.specs.Prelude.{◌≡◌, map};
ghost use Rattle.std.specs.Cmp.Lexicographic.{pointwise};
ghost use Rattle.outline_language.specs.LinearForms.{same_form};
ghost use Rattle.outline_language.specs.Nameless as nameless;
ghost use Rattle.chan_syntax.specs.Reading.{relation_of};
ghost use Rattle.nameless_forms.specs.Limits.{limit_of};
ghost use Rattle.nameless_shapes.specs.Parts.{ref_of};

use crate::shapes::{Node, Ref, Resource, Shape};
use chan_syntax::Relation;
use nameless_forms::{Form, Limit};

fn same_forms(left: &[Form], right: &[Form]) -> bool
    ensures { result ≡ pointwise same_form left.now right.now }
{
    if left.len() != right.len() {
        return false;
    }
    for index in 0..left.len() {
        if !left[index].is_same(&right[index]) {
            return false;
        }
    }
    true
}

fn same_relation(left: Relation, right: Relation) -> bool
    ensures { result ≡ nameless.same_relation (relation_of left) (relation_of right) }
{
    match left {
        Relation::AtMost => right == Relation::AtMost,
        Relation::Less => right == Relation::Less,
        Relation::Same => right == Relation::Same,
    }
}

fn same_limit(left: &Limit, right: &Limit) -> bool
    ensures { result ≡ nameless.same_limit (limit_of left.now) (limit_of right.now) }
{
    left.left.is_same(&right.left)
        && same_relation(left.relation, right.relation)
        && left.right.is_same(&right.right)
}

fn same_limits(left: &[Limit], right: &[Limit]) -> bool
    ensures { result ≡ pointwise nameless.same_limit (map limit_of left.now) (map limit_of right.now) }
{
    if left.len() != right.len() {
        return false;
    }
    for index in 0..left.len() {
        if !same_limit(&left[index], &right[index]) {
            return false;
        }
    }
    true
}

fn same_ref(left: &Ref, right: &Ref) -> bool
    ensures { result ≡ nameless.same_ref (ref_of left.now) (ref_of right.now) }
{
    left.dual == right.dual
        && left.name == right.name
        && same_forms(left.args.as_slice(), right.args.as_slice())
}

/// Whether it is one shape up to the names of binders.
#[cycle(comparing)]
pub fn same_shape(left: &Shape, right: &Shape) -> bool
    ensures { result ≡ nameless.same_shape left.now right.now }
{
    match (left.get(), right.get()) {
        (Node::Unit, Node::Unit) => true,
        (Node::Int(form), Node::Int(other)) => form.is_same(other),
        (Node::End(end), Node::End(other)) => same_ref(end, other),
        (Node::Pair(first, second), Node::Pair(other_first, other_second)) => {
            same_res(first, other_first) && same_res(second, other_second)
        }
        (Node::Sum(arms), Node::Sum(others)) => {
            same_resources(arms.as_slice(), others.as_slice())
        }
        _ => false,
    }
}

#[cycle(comparing)]
fn same_resources(left: &[Resource], right: &[Resource]) -> bool
    ensures { result ≡ pointwise nameless.same_res left.now right.now }
{
    if left.len() != right.len() {
        return false;
    }
    for index in 0..left.len() {
        if !same_res(&left[index], &right[index]) {
            return false;
        }
    }
    true
}

/// Whether it is one resource up to the names of binders.
#[cycle(comparing)]
pub fn same_res(left: &Resource, right: &Resource) -> bool
    ensures { result ≡ nameless.same_res left.now right.now }
{
    let left = left.get();
    let right = right.get();
    left.binders == right.binders
        && same_limits(left.limits, right.limits)
        && same_shape(left.shape, right.shape)
}
