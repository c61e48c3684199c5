//! Shapes and resources of a text without names.
ghost use Rattle.std.specs.Prelude.{◌≡◌, ◌≤◌, ◌^◌, true, [], length, map, Ok, IfOk, IfErr, OnOk};
ghost use Rattle.std.specs.List.{list_all};
ghost use Rattle.outline_language.specs.LinearForms.{form_fits};
ghost use Rattle.outline_language.specs.Nameless as spec;
ghost use Rattle.outline_language.specs.Nameless.{limit_fits, shape_fits, res_fits};
ghost use Rattle.outline_language.specs.Contexts.{formed};
ghost use Rattle.outline_language.specs.Paths.{formed_ref, formed_res};
ghost use Rattle.chan_syntax.specs.Reading.{term_of, limit_of as written_limit, ref_of as written_ref, shape_of, res_of};
ghost use Rattle.nameless_forms.specs.Faults.{IsTooLarge};
ghost use Rattle.nameless_forms.specs.Limits.{limit_of};
ghost use Rattle.nameless_shapes.specs.Formed.{TellsMisfit, formed_shape, formed_limits};
ghost use Rattle.nameless_shapes.specs.Parts.{ref_of};
ghost use Rattle.shape_readings.specs.Ends.{turned_ref, shape_under, message_under};
ghost use Rattle.shape_readings.specs.Names.{names_in};

use crate::scope::{Scope, borrowed, joined};
use chan_base::Memory;
use chan_syntax::{
    Ident, Limit as WrittenLimit, Ref as WrittenRef, Res, Shape as WrittenShape, Term,
};
use nameless_forms::{Form, FormFault, Forms, Limit, form_of_term};
use nameless_shapes::{Limits, Ref, Resource, Resources, Shape};
use sqlite_items::Items;
use std::alloc::Global;

fn read_form(
    alloc: Global,
    ints: &[Ident],
    around: &[&Ident],
    term: &Term,
) -> Result<Form, FormFault>
    requires { length ints.now ≤ 2 ^ 32 }
    ensures ok { IfOk result (λ form. form ≡ spec.nameless_term ints.now (names_in around.now) (term_of term.now)) }
    ensures fits { OnOk result (form_fits (spec.nameless_term ints.now (names_in around.now) (term_of term.now)) ≡ true) }
    ensures err { IfErr result (TellsMisfit (form_fits (spec.nameless_term ints.now (names_in around.now) (term_of term.now)))) }
{
    form_of_term(alloc, &Scope { ints, around }, term)
}

fn read_forms(
    alloc: Global,
    ints: &[Ident],
    around: &[&Ident],
    terms: &[Term],
) -> Result<Forms, FormFault>
    requires { length ints.now ≤ 2 ^ 32 }
    ensures ok { IfOk result (λ forms. forms ≡ map (spec.nameless_term ints.now (names_in around.now)) (map term_of terms.now)) }
    ensures fits { OnOk result (list_all form_fits (map (spec.nameless_term ints.now (names_in around.now)) (map term_of terms.now)) ≡ true) }
    ensures err { IfErr result (TellsMisfit (list_all form_fits (map (spec.nameless_term ints.now (names_in around.now)) (map term_of terms.now)))) }
{
    let mut forms = Items::new(alloc);
    for term in terms {
        forms.push(read_form(alloc, ints, around, term)?)?;
    }
    Ok(forms)
}

fn read_limit(
    alloc: Global,
    ints: &[Ident],
    around: &[&Ident],
    limit: &WrittenLimit,
) -> Result<Limit, FormFault>
    requires { length ints.now ≤ 2 ^ 32 }
    ensures ok { IfOk result (λ read. limit_of read ≡ spec.nameless_limit ints.now (names_in around.now) (written_limit limit.now)) }
    ensures fits { OnOk result (limit_fits (spec.nameless_limit ints.now (names_in around.now) (written_limit limit.now)) ≡ true) }
    ensures err { IfErr result (TellsMisfit (limit_fits (spec.nameless_limit ints.now (names_in around.now) (written_limit limit.now)))) }
{
    let left = read_form(alloc, ints, around, &limit.left)?;
    let right = read_form(alloc, ints, around, &limit.right)?;
    Ok(Limit {
        left,
        relation: limit.relation,
        right,
    })
}

fn read_limits(
    alloc: Global,
    ints: &[Ident],
    around: &[&Ident],
    limits: &[WrittenLimit],
) -> Result<Limits, FormFault>
    requires { length ints.now ≤ 2 ^ 32 }
    ensures ok { IfOk result (λ read. map limit_of read ≡ map (spec.nameless_limit ints.now (names_in around.now)) (map written_limit limits.now)) }
    ensures fits { OnOk result (list_all limit_fits (map (spec.nameless_limit ints.now (names_in around.now)) (map written_limit limits.now)) ≡ true) }
    ensures err { IfErr result (TellsMisfit (list_all limit_fits (map (spec.nameless_limit ints.now (names_in around.now)) (map written_limit limits.now)))) }
{
    let mut read = Items::new(alloc);
    for limit in limits {
        read.push(read_limit(alloc, ints, around, limit)?)?;
    }
    Ok(read)
}

fn read_end(
    alloc: Global,
    ints: &[Ident],
    around: &[&Ident],
    end: &WrittenRef,
) -> Result<Ref, FormFault>
    requires { length ints.now ≤ 2 ^ 32 }
    ensures ok { IfOk result (λ read. ref_of read ≡ spec.nameless_ref ints.now (names_in around.now) (written_ref end.now)) }
    ensures fits { OnOk result (list_all form_fits (map (spec.nameless_term ints.now (names_in around.now)) (map term_of end.now.args)) ≡ true) }
    ensures err { IfErr result (TellsMisfit (list_all form_fits (map (spec.nameless_term ints.now (names_in around.now)) (map term_of end.now.args)))) }
{
    let name = end.name.copy()?;
    let args = read_forms(alloc, ints, around, end.args.as_slice())?;
    Ok(Ref {
        dual: end.dual,
        name,
        args,
    })
}

fn read_int(
    alloc: Global,
    ints: &[Ident],
    around: &[&Ident],
    term: &Term,
) -> Result<Shape, FormFault>
    requires { length ints.now ≤ 2 ^ 32 }
    ensures ok { IfOk result (λ shape. shape ≡ spec.Int (spec.nameless_term ints.now (names_in around.now) (term_of term.now))) }
    ensures fits { OnOk result (form_fits (spec.nameless_term ints.now (names_in around.now) (term_of term.now)) ≡ true) }
    ensures err { IfErr result (TellsMisfit (form_fits (spec.nameless_term ints.now (names_in around.now) (term_of term.now)))) }
{
    let form = read_form(alloc, ints, around, term)?;
    Ok(Shape::int(alloc, form)?)
}

fn read_end_shape(
    alloc: Global,
    ints: &[Ident],
    around: &[&Ident],
    end: &WrittenRef,
) -> Result<Shape, FormFault>
    requires { length ints.now ≤ 2 ^ 32 }
    ensures ok { IfOk result (λ shape. shape ≡ spec.End (spec.nameless_ref ints.now (names_in around.now) (written_ref end.now))) }
    ensures fits { OnOk result (list_all form_fits (map (spec.nameless_term ints.now (names_in around.now)) (map term_of end.now.args)) ≡ true) }
    ensures err { IfErr result (TellsMisfit (list_all form_fits (map (spec.nameless_term ints.now (names_in around.now)) (map term_of end.now.args)))) }
{
    let end = read_end(alloc, ints, around, end)?;
    Ok(Shape::end(alloc, end)?)
}

#[cycle(reading)]
#[tactic(auto, using(chan_syntax::proofs::Rows::shape_pair))]
fn read_shape(
    alloc: Global,
    ints: &[Ident],
    around: &[&Ident],
    shape: &WrittenShape,
) -> Result<Shape, FormFault>
    requires { length ints.now ≤ 2 ^ 32 }
    ensures ok { IfOk result (λ read. read ≡ spec.nameless_shape ints.now (names_in around.now) (shape_of shape.now)) }
    ensures fits { OnOk result (shape_fits (spec.nameless_shape ints.now (names_in around.now) (shape_of shape.now)) ≡ true) }
    ensures err { IfErr result (TellsMisfit (shape_fits (spec.nameless_shape ints.now (names_in around.now) (shape_of shape.now)))) }
{
    match shape {
        WrittenShape::Unit => Ok(Shape::unit(alloc)?),
        WrittenShape::Int(term) => read_int(alloc, ints, around, term),
        WrittenShape::End(end) => read_end_shape(alloc, ints, around, end),
        WrittenShape::Pair(first, second) => {
            let first = read_res(alloc, ints, around, first.get())?;
            let second = read_res(alloc, ints, around, second.get())?;
            Ok(Shape::pair(alloc, first, second)?)
        }
        WrittenShape::Sum(arms) => {
            let arms = read_resources(alloc, ints, around, arms.as_slice())?;
            Ok(Shape::sum(alloc, arms)?)
        }
    }
}

#[cycle(reading)]
fn read_resources(
    alloc: Global,
    ints: &[Ident],
    around: &[&Ident],
    resources: &[Res],
) -> Result<Resources, FormFault>
    requires { length ints.now ≤ 2 ^ 32 }
    ensures ok { IfOk result (λ read. read ≡ map (spec.nameless_res ints.now (names_in around.now)) (map res_of resources.now)) }
    ensures fits { OnOk result (list_all res_fits (map (spec.nameless_res ints.now (names_in around.now)) (map res_of resources.now)) ≡ true) }
    ensures err { IfErr result (TellsMisfit (list_all res_fits (map (spec.nameless_res ints.now (names_in around.now)) (map res_of resources.now)))) }
{
    let mut read = Items::new(alloc);
    for resource in resources {
        read.push(read_res(alloc, ints, around, resource)?)?;
    }
    Ok(read)
}

#[cycle(reading)]
fn read_res(
    alloc: Global,
    ints: &[Ident],
    around: &[&Ident],
    res: &Res,
) -> Result<Resource, FormFault>
    requires { length ints.now ≤ 2 ^ 32 }
    ensures ok { IfOk result (λ read. read ≡ spec.nameless_res ints.now (names_in around.now) (res_of res.now)) }
    ensures fits { OnOk result (res_fits (spec.nameless_res ints.now (names_in around.now) (res_of res.now)) ≡ true) }
    ensures err { IfErr result (TellsMisfit (res_fits (spec.nameless_res ints.now (names_in around.now) (res_of res.now)))) }
{
    let names = res.bound.names.as_slice();
    let within = joined(alloc, names, around)?;
    let limits = read_limits(alloc, ints, within.as_slice(), res.bound.limits.as_slice())?;
    let shape = read_shape(alloc, ints, within.as_slice(), &res.shape)?;
    Ok(Resource::new(alloc, names.len(), limits, shape)?)
}

/// The shape without binders.
fn bare(alloc: Global, shape: Shape) -> Result<Resource, Memory>
    ensures { IfOk result (λ res. res ≡ spec.Binds 0 [] shape) }
{
    Resource::new(alloc, 0, Items::new(alloc), shape)
}

/// The shape, and the end at which a receiver goes on.
fn with_end(alloc: Global, shape: Shape, end: Shape) -> Result<Shape, Memory>
    ensures { IfOk result (λ pair. pair ≡ spec.Pair (spec.Binds 0 [] shape) (spec.Binds 0 [] end)) }
{
    let end = bare(alloc, end)?;
    let first = bare(alloc, shape)?;
    Shape::pair(alloc, first, end)
}

/// The end, or its dual.
fn read_turned_end(
    alloc: Global,
    ints: &[Ident],
    around: &[&Ident],
    end: &WrittenRef,
    turned: bool,
) -> Result<Shape, FormFault>
    requires { length ints.now ≤ 2 ^ 32 }
    ensures ok { IfOk result (λ shape. shape ≡ spec.End (spec.nameless_ref ints.now (names_in around.now) (turned_ref turned (written_ref end.now)))) }
    ensures fits { OnOk result (list_all form_fits (map (spec.nameless_term ints.now (names_in around.now)) (map term_of end.now.args)) ≡ true) }
    ensures err { IfErr result (TellsMisfit (list_all form_fits (map (spec.nameless_term ints.now (names_in around.now)) (map term_of end.now.args)))) }
{
    let mut end = read_end(alloc, ints, around, end)?;
    end.dual = end.dual != turned;
    Ok(Shape::end(alloc, end)?)
}

/// The shape, and the end or its dual.
fn read_going_on(
    alloc: Global,
    ints: &[Ident],
    around: &[&Ident],
    shape: &WrittenShape,
    next: &WrittenRef,
    turned: bool,
) -> Result<Shape, FormFault>
    requires { length ints.now ≤ 2 ^ 32 }
    ensures ok { IfOk result (λ read. read ≡ shape_under ints.now (names_in around.now) (shape_of shape.now) turned (written_ref next.now)) }
    ensures fits { OnOk result (shape_fits (shape_under ints.now (names_in around.now) (shape_of shape.now) turned (written_ref next.now)) ≡ true) }
    ensures err { IfErr result (TellsMisfit (shape_fits (shape_under ints.now (names_in around.now) (shape_of shape.now) turned (written_ref next.now)))) }
{
    let end = read_turned_end(alloc, ints, around, next, turned)?;
    let shape = read_shape(alloc, ints, around, shape)?;
    Ok(with_end(alloc, shape, end)?)
}

fn read_with_end(
    alloc: Global,
    ints: &[Ident],
    around: &[&Ident],
    res: &Res,
    next: &WrittenRef,
    turned: bool,
) -> Result<Resource, FormFault>
    requires { length ints.now ≤ 2 ^ 32 }
    ensures ok { IfOk result (λ read. read ≡ message_under ints.now (names_in around.now) (res_of res.now) turned (written_ref next.now)) }
    ensures fits { OnOk result (res_fits (message_under ints.now (names_in around.now) (res_of res.now) turned (written_ref next.now)) ≡ true) }
    ensures err { IfErr result (TellsMisfit (res_fits (message_under ints.now (names_in around.now) (res_of res.now) turned (written_ref next.now)))) }
{
    let names = res.bound.names.as_slice();
    let within = joined(alloc, names, around)?;
    let limits = read_limits(alloc, ints, within.as_slice(), res.bound.limits.as_slice())?;
    let shape = read_going_on(alloc, ints, within.as_slice(), &res.shape, next, turned)?;
    Ok(Resource::new(alloc, names.len(), limits, shape)?)
}

/// The term under these binders, the innermost first.
pub fn nameless_term(
    alloc: Global,
    ints: &[Ident],
    around: &[Ident],
    term: &Term,
) -> Result<Form, FormFault>
    requires { length ints.now ≤ 2 ^ 32 }
    ensures ok { IfOk result (λ read. formed (spec.nameless_term ints.now around.now (term_of term.now)) ≡ Ok read) }
    ensures err { IfErr result (IsTooLarge (formed (spec.nameless_term ints.now around.now (term_of term.now)))) }
{
    let within = borrowed(alloc, around)?;
    let read = read_form(alloc, ints, within.as_slice(), term)?;
    Ok(read)
}

/// The limits under these binders.
pub fn nameless_limits(
    alloc: Global,
    ints: &[Ident],
    around: &[Ident],
    limits: &[WrittenLimit],
) -> Result<Limits, FormFault>
    requires { length ints.now ≤ 2 ^ 32 }
    ensures ok { IfOk result (λ read. formed_limits (map (spec.nameless_limit ints.now around.now) (map written_limit limits.now)) ≡ Ok (map limit_of read)) }
    ensures err { IfErr result (IsTooLarge (formed_limits (map (spec.nameless_limit ints.now around.now) (map written_limit limits.now)))) }
{
    let within = borrowed(alloc, around)?;
    let read = read_limits(alloc, ints, within.as_slice(), limits)?;
    Ok(read)
}

/// The end under these binders.
pub fn nameless_ref(
    alloc: Global,
    ints: &[Ident],
    around: &[Ident],
    end: &WrittenRef,
) -> Result<Ref, FormFault>
    requires { length ints.now ≤ 2 ^ 32 }
    ensures ok { IfOk result (λ read. formed_ref (spec.nameless_ref ints.now around.now (written_ref end.now)) ≡ Ok (ref_of read)) }
    ensures err { IfErr result (IsTooLarge (formed_ref (spec.nameless_ref ints.now around.now (written_ref end.now)))) }
{
    let within = borrowed(alloc, around)?;
    let read = read_end(alloc, ints, within.as_slice(), end)?;
    Ok(read)
}

/// The shape under these binders.
pub fn nameless_shape(
    alloc: Global,
    ints: &[Ident],
    around: &[Ident],
    shape: &WrittenShape,
) -> Result<Shape, FormFault>
    requires { length ints.now ≤ 2 ^ 32 }
    ensures ok { IfOk result (λ read. formed_shape (spec.nameless_shape ints.now around.now (shape_of shape.now)) ≡ Ok read) }
    ensures err { IfErr result (IsTooLarge (formed_shape (spec.nameless_shape ints.now around.now (shape_of shape.now)))) }
{
    let within = borrowed(alloc, around)?;
    let read = read_shape(alloc, ints, within.as_slice(), shape)?;
    Ok(read)
}

/// The resource under these binders.
pub fn nameless_res(
    alloc: Global,
    ints: &[Ident],
    around: &[Ident],
    res: &Res,
) -> Result<Resource, FormFault>
    requires { length ints.now ≤ 2 ^ 32 }
    ensures ok { IfOk result (λ read. formed_res (spec.nameless_res ints.now around.now (res_of res.now)) ≡ Ok read) }
    ensures err { IfErr result (IsTooLarge (formed_res (spec.nameless_res ints.now around.now (res_of res.now)))) }
{
    let within = borrowed(alloc, around)?;
    let read = read_res(alloc, ints, within.as_slice(), res)?;
    Ok(read)
}

/// The resource under these binders, with the end at which its receiver goes on, or the dual of that end.
pub fn nameless_with_end(
    alloc: Global,
    ints: &[Ident],
    around: &[Ident],
    res: &Res,
    next: &WrittenRef,
    turned: bool,
) -> Result<Resource, FormFault>
    requires { length ints.now ≤ 2 ^ 32 }
    ensures ok { IfOk result (λ read. formed_res (message_under ints.now around.now (res_of res.now) turned (written_ref next.now)) ≡ Ok read) }
    ensures err { IfErr result (IsTooLarge (formed_res (message_under ints.now around.now (res_of res.now) turned (written_ref next.now)))) }
{
    let within = borrowed(alloc, around)?;
    let read = read_with_end(alloc, ints, within.as_slice(), res, next, turned)?;
    Ok(read)
}
