//! Shapes, resources, protocols and headers.
#![tactic(auto, using(crate::proofs::Firsts::first_rules, std::proofs::lemmas::Grind::common_steps), unfolding(crate::specs::Resources::branch_faults, crate::specs::Resources::res_faults, crate::specs::Resources::unless_shallow, crate::specs::Resources::next_faults, crate::specs::Resources::message_faults, crate::specs::Resources::equation_faults, crate::specs::Resources::proto_faults))]

ghost use Rattle.std.specs.Prelude.{◌≡◌, nat_le, OnOk};
ghost use Rattle.form_faults.specs.Faults.{least};
ghost use Rattle.form_faults.specs.Resources as spec;

use crate::binding::bind_names;
use crate::bounds::{bind_bound, check_names};
use crate::faults::{Ill, IllKind, note};
use crate::scopes::Scope;
use crate::sorts::Sort;
use crate::tables::Table;
use crate::terms::{check_fixed_ref, check_fixed_term};
use chan_base::{Memory, Span};
use chan_syntax::{Equation, Proto, Ref, Res, Shape, Term};
use std::alloc::Global;

#[cycle(shapes)]
#[tactic(auto, using(crate::proofs::Firsts::first_rules, std::proofs::lemmas::Grind::common_steps, crate::proofs::Shapes::shapes))]
pub(crate) fn check_shape(
    alloc: Global,
    first: &mut Option<Ill>,
    protos: &Table,
    scope: &mut Scope,
    shape: &Shape,
) -> Result<(), Memory>
    ensures first { OnOk result (first.new ≡ least first.old (spec.shape_faults protos.now scope.old shape.now)) }
    ensures scope { OnOk result (scope.new ≡ scope.old) }
{
    match shape {
        Shape::Unit => Ok(()),
        Shape::Int(term) => check_fixed_term(alloc, first, scope, term),
        Shape::End(reference) => check_fixed_ref(alloc, first, protos, scope, reference),
        Shape::Pair(left, right) => {
            check_res(alloc, first, protos, scope, left.get())?;
            check_res(alloc, first, protos, scope, right.get())
        }
        Shape::Sum(arms) => check_resources(alloc, first, protos, scope, arms.as_slice()),
    }
}

/// The resources of a sum.
#[cycle(shapes)]
#[tactic(auto, using(crate::proofs::Firsts::first_rules, std::proofs::lemmas::Grind::common_steps), unfolding(crate::specs::Resources::resources_faults))]
fn check_resources(
    alloc: Global,
    first: &mut Option<Ill>,
    protos: &Table,
    scope: &mut Scope,
    resources: &[Res],
) -> Result<(), Memory>
    ensures first { OnOk result (first.new ≡ least first.old (spec.resources_faults protos.now scope.old resources.now)) }
    ensures scope { OnOk result (scope.new ≡ scope.old) }
{
    for resource in resources {
        check_res(alloc, first, protos, scope, resource)?;
    }
    Ok(())
}

/// A resource. Its binders are in scope in it alone.
#[cycle(shapes)]
#[tactic(auto, using(crate::proofs::Firsts::first_rules, std::proofs::lemmas::Grind::common_steps, crate::proofs::Binders::bound_cut), unfolding(crate::specs::Resources::res_faults, crate::specs::Terms::bound_scope))]
pub(crate) fn check_res(
    alloc: Global,
    first: &mut Option<Ill>,
    protos: &Table,
    scope: &mut Scope,
    res: &Res,
) -> Result<(), Memory>
    ensures first { OnOk result (first.new ≡ least first.old (spec.res_faults protos.now scope.old res.now)) }
    ensures scope { OnOk result (scope.new ≡ scope.old) }
{
    let mark = scope.len();
    bind_bound(alloc, first, scope, &res.bound)?;
    check_shape(alloc, first, protos, scope, &res.shape)?;
    scope.cut(mark);
    Ok(())
}

/// Whether a shape is nested at most so deep.
#[cycle(depths)]
#[tactic(auto, using(crate::proofs::Shapes::depths, std::proofs::lemmas::Bool::Decides::nat_tests))]
fn is_within(shape: &Shape, most: usize) -> bool
    ensures { result ≡ nat_le (spec.depth_of shape.now) most }
{
    match shape {
        Shape::Unit | Shape::Int(_) | Shape::End(_) => true,
        Shape::Pair(left, right) => {
            most > 0
                && is_within(&left.get().shape, most - 1)
                && is_within(&right.get().shape, most - 1)
        }
        Shape::Sum(arms) => most > 0 && are_within(arms.as_slice(), most - 1),
    }
}

/// Whether the shapes of resources are nested at most so deep.
#[cycle(depths)]
#[tactic(auto, using(std::proofs::lemmas::Bool::Decides::nat_tests, std::proofs::lemmas::Grind::common_steps), unfolding(crate::specs::Resources::greatest_depth))]
fn are_within(resources: &[Res], most: usize) -> bool
    ensures { result ≡ nat_le (spec.greatest_depth resources.now) most }
{
    for resource in resources {
        if !is_within(&resource.shape, most) {
            return false;
        }
    }
    true
}

pub(crate) fn is_shallow(shape: &Shape) -> bool
    ensures { result ≡ spec.is_shallow shape.now }
{
    is_within(shape, 200)
}

pub(crate) fn note_deep(alloc: Global, first: &mut Option<Ill>, shallow: bool, span: Span)
    ensures { first.new ≡ least first.old (spec.unless_shallow shallow span) }
{
    if !shallow {
        note(alloc, first, IllKind::TooMany, span);
    }
}

fn are_shallow(equation: &Equation) -> bool
    ensures { result ≡ spec.are_shallow equation.now }
{
    match equation {
        Equation::Send(res, _) => is_shallow(&res.shape),
        Equation::Recv(res, _) => is_shallow(&res.shape),
        Equation::Close => true,
        Equation::Wait => true,
        Equation::Branch(..) => true,
    }
}

fn check_next(
    alloc: Global,
    first: &mut Option<Ill>,
    protos: &Table,
    scope: &Scope,
    next: &Option<Ref>,
) -> Result<(), Memory>
    ensures { OnOk result (first.new ≡ least first.old (spec.next_faults protos.now scope.now next.now)) }
{
    match next {
        None => Ok(()),
        Some(reference) => check_fixed_ref(alloc, first, protos, scope, reference),
    }
}

/// A message and what follows it, which may name the binders of the message.
fn check_message(
    alloc: Global,
    first: &mut Option<Ill>,
    protos: &Table,
    scope: &mut Scope,
    res: &Res,
    next: &Option<Ref>,
) -> Result<(), Memory>
    ensures { OnOk result (first.new ≡ least first.old (spec.message_faults protos.now scope.old res.now next.now)) }
{
    bind_bound(alloc, first, scope, &res.bound)?;
    check_shape(alloc, first, protos, scope, &res.shape)?;
    check_next(alloc, first, protos, scope, next)
}

fn check_branch(
    alloc: Global,
    first: &mut Option<Ill>,
    protos: &Table,
    scope: &Scope,
    left: &Term,
    right: &Term,
    yes: &Ref,
    no: &Ref,
) -> Result<(), Memory>
    ensures { OnOk result (first.new ≡ least first.old (spec.branch_faults protos.now scope.now left.now right.now yes.now no.now)) }
{
    check_fixed_term(alloc, first, scope, left)?;
    check_fixed_term(alloc, first, scope, right)?;
    check_fixed_ref(alloc, first, protos, scope, yes)?;
    check_fixed_ref(alloc, first, protos, scope, no)
}

fn check_equation(
    alloc: Global,
    first: &mut Option<Ill>,
    protos: &Table,
    scope: &mut Scope,
    equation: &Equation,
) -> Result<(), Memory>
    ensures { OnOk result (first.new ≡ least first.old (spec.equation_faults protos.now scope.old equation.now)) }
{
    match equation {
        Equation::Send(res, next) => check_message(alloc, first, protos, scope, res, next),
        Equation::Recv(res, next) => check_message(alloc, first, protos, scope, res, next),
        Equation::Close => Ok(()),
        Equation::Wait => Ok(()),
        Equation::Branch(left, right, yes, no) => {
            check_branch(alloc, first, protos, scope, left, right, yes, no)
        }
    }
}

/// The faults of one protocol, among protocols with these signatures.
pub fn check_proto(
    alloc: Global,
    first: &mut Option<Ill>,
    protos: &Table,
    proto: &Proto,
) -> Result<(), Memory>
    ensures { OnOk result (first.new ≡ least first.old (spec.proto_faults protos.now proto.now)) }
{
    let names = proto.params.as_slice();
    let spans = proto.params_spans.as_slice();
    let mut scope = Scope::new(alloc);
    note_deep(alloc, first, are_shallow(&proto.equation), proto.name_span);
    bind_names(alloc, first, &mut scope, Sort::Integer, names, spans)?;
    check_names(alloc, first, 16, names, spans);
    check_equation(alloc, first, protos, &mut scope, &proto.equation)
}
