//! Shapes and resources in which instances stand for binders. What no instance stands in is shared.
ghost use Rattle.std.specs.Prelude.{◌≡◌, true, map, Ok, IfOk, IfErr, OnOk};
ghost use Rattle.std.specs.List.{list_all};
ghost use Rattle.outline_language.specs.LinearForms.{form_fits};
ghost use Rattle.outline_language.specs.Nameless as spec;
ghost use Rattle.outline_language.specs.Nameless.{limit_fits, shape_fits, res_fits};
ghost use Rattle.outline_language.specs.Contexts as context;
ghost use Rattle.outline_language.specs.Paths.{formed_ref, formed_res};
ghost use Rattle.nameless_forms.specs.Faults.{IsTooLarge};
ghost use Rattle.nameless_forms.specs.Limits.{limit_of};
ghost use Rattle.nameless_shapes.specs.Formed.{TellsMisfit, formed_shape};
ghost use Rattle.nameless_shapes.specs.Parts.{ref_of};

use nameless_forms::{Form, FormFault, Forms, Limit, form_with};
use nameless_shapes::{Limits, Node, Ref, Resource, Resources, Shape};
use sqlite_items::Items;
use std::alloc::Global;

fn put_form(alloc: Global, instances: &[Form], depth: usize, form: &Form) -> Result<Form, FormFault>
    ensures ok { IfOk result (λ put. put ≡ spec.form_with instances.now depth form.now) }
    ensures fits { OnOk result (form_fits (spec.form_with instances.now depth form.now) ≡ true) }
    ensures err { IfErr result (TellsMisfit (form_fits (spec.form_with instances.now depth form.now))) }
{
    form_with(alloc, instances, depth, form)
}

fn put_forms(
    alloc: Global,
    instances: &[Form],
    depth: usize,
    forms: &[Form],
) -> Result<Forms, FormFault>
    ensures ok { IfOk result (λ put. put ≡ map (spec.form_with instances.now depth) forms.now) }
    ensures fits { OnOk result (list_all form_fits (map (spec.form_with instances.now depth) forms.now) ≡ true) }
    ensures err { IfErr result (TellsMisfit (list_all form_fits (map (spec.form_with instances.now depth) forms.now))) }
{
    let mut put = Items::new(alloc);
    for form in forms {
        put.push(put_form(alloc, instances, depth, form)?)?;
    }
    Ok(put)
}

fn put_limit(
    alloc: Global,
    instances: &[Form],
    depth: usize,
    limit: &Limit,
) -> Result<Limit, FormFault>
    ensures ok { IfOk result (λ put. limit_of put ≡ spec.limit_with instances.now depth (limit_of limit.now)) }
    ensures fits { OnOk result (limit_fits (spec.limit_with instances.now depth (limit_of limit.now)) ≡ true) }
    ensures err { IfErr result (TellsMisfit (limit_fits (spec.limit_with instances.now depth (limit_of limit.now)))) }
{
    let left = put_form(alloc, instances, depth, &limit.left)?;
    let right = put_form(alloc, instances, depth, &limit.right)?;
    Ok(Limit {
        left,
        relation: limit.relation,
        right,
    })
}

fn put_limits(
    alloc: Global,
    instances: &[Form],
    depth: usize,
    limits: &[Limit],
) -> Result<Limits, FormFault>
    ensures ok { IfOk result (λ put. map limit_of put ≡ map (spec.limit_with instances.now depth) (map limit_of limits.now)) }
    ensures fits { OnOk result (list_all limit_fits (map (spec.limit_with instances.now depth) (map limit_of limits.now)) ≡ true) }
    ensures err { IfErr result (TellsMisfit (list_all limit_fits (map (spec.limit_with instances.now depth) (map limit_of limits.now)))) }
{
    let mut put = Items::new(alloc);
    for limit in limits {
        put.push(put_limit(alloc, instances, depth, limit)?)?;
    }
    Ok(put)
}

fn put_ref(alloc: Global, instances: &[Form], depth: usize, end: &Ref) -> Result<Ref, FormFault>
    ensures ok { IfOk result (λ put. ref_of put ≡ spec.ref_with instances.now depth (ref_of end.now)) }
    ensures fits { OnOk result (list_all form_fits (map (spec.form_with instances.now depth) end.now.args) ≡ true) }
    ensures err { IfErr result (TellsMisfit (list_all form_fits (map (spec.form_with instances.now depth) end.now.args))) }
{
    let name = end.name.copy()?;
    let args = put_forms(alloc, instances, depth, end.args.as_slice())?;
    Ok(Ref {
        dual: end.dual,
        name,
        args,
    })
}

fn put_int(alloc: Global, instances: &[Form], depth: usize, form: &Form) -> Result<Shape, FormFault>
    ensures ok { IfOk result (λ put. put ≡ spec.Int (spec.form_with instances.now depth form.now)) }
    ensures fits { OnOk result (form_fits (spec.form_with instances.now depth form.now) ≡ true) }
    ensures err { IfErr result (TellsMisfit (form_fits (spec.form_with instances.now depth form.now))) }
{
    let form = put_form(alloc, instances, depth, form)?;
    Ok(Shape::int(alloc, form)?)
}

fn put_end(alloc: Global, instances: &[Form], depth: usize, end: &Ref) -> Result<Shape, FormFault>
    ensures ok { IfOk result (λ put. put ≡ spec.End (spec.ref_with instances.now depth (ref_of end.now))) }
    ensures fits { OnOk result (list_all form_fits (map (spec.form_with instances.now depth) end.now.args) ≡ true) }
    ensures err { IfErr result (TellsMisfit (list_all form_fits (map (spec.form_with instances.now depth) end.now.args))) }
{
    let end = put_ref(alloc, instances, depth, end)?;
    Ok(Shape::end(alloc, end)?)
}

#[cycle(putting)]
fn put_node(
    alloc: Global,
    instances: &[Form],
    depth: usize,
    shape: &Shape,
) -> Result<Shape, FormFault>
    ensures ok { IfOk result (λ put. put ≡ spec.shape_with instances.now depth shape.now) }
    ensures fits { OnOk result (shape_fits (spec.shape_with instances.now depth shape.now) ≡ true) }
    ensures err { IfErr result (TellsMisfit (shape_fits (spec.shape_with instances.now depth shape.now))) }
{
    match shape.get() {
        Node::Unit => Ok(Shape::unit(alloc)?),
        Node::Int(form) => put_int(alloc, instances, depth, form),
        Node::End(end) => put_end(alloc, instances, depth, end),
        Node::Pair(first, second) => {
            let first = put_res(alloc, instances, depth, first)?;
            let second = put_res(alloc, instances, depth, second)?;
            Ok(Shape::pair(alloc, first, second)?)
        }
        Node::Sum(arms) => {
            let arms = put_resources(alloc, instances, depth, arms.as_slice())?;
            Ok(Shape::sum(alloc, arms)?)
        }
    }
}

#[cycle(putting)]
fn put_shape(
    alloc: Global,
    instances: &[Form],
    depth: usize,
    shape: &Shape,
) -> Result<Shape, FormFault>
    ensures ok { IfOk result (λ put. put ≡ spec.shape_with instances.now depth shape.now) }
    ensures fits { OnOk result (shape_fits (spec.shape_with instances.now depth shape.now) ≡ true) }
    ensures err { IfErr result (TellsMisfit (shape_fits (spec.shape_with instances.now depth shape.now))) }
{
    if shape.reach() <= depth {
        Ok(shape.copy()?)
    } else {
        put_node(alloc, instances, depth, shape)
    }
}

#[cycle(putting)]
fn put_resources(
    alloc: Global,
    instances: &[Form],
    depth: usize,
    resources: &[Resource],
) -> Result<Resources, FormFault>
    ensures ok { IfOk result (λ put. put ≡ map (spec.res_with instances.now depth) resources.now) }
    ensures fits { OnOk result (list_all res_fits (map (spec.res_with instances.now depth) resources.now) ≡ true) }
    ensures err { IfErr result (TellsMisfit (list_all res_fits (map (spec.res_with instances.now depth) resources.now))) }
{
    let mut put = Items::new(alloc);
    for resource in resources {
        put.push(put_res(alloc, instances, depth, resource)?)?;
    }
    Ok(put)
}

#[cycle(putting)]
fn put_res(
    alloc: Global,
    instances: &[Form],
    depth: usize,
    res: &Resource,
) -> Result<Resource, FormFault>
    ensures ok { IfOk result (λ put. put ≡ spec.res_with instances.now depth res.now) }
    ensures fits { OnOk result (res_fits (spec.res_with instances.now depth res.now) ≡ true) }
    ensures err { IfErr result (TellsMisfit (res_fits (spec.res_with instances.now depth res.now))) }
{
    if res.reach() <= depth {
        return Ok(res.copy()?);
    }
    let under = res.get();
    let within = under.binders + depth;
    let limits = put_limits(alloc, instances, within, under.limits)?;
    let shape = put_shape(alloc, instances, within, under.shape)?;
    Ok(Resource::new(alloc, under.binders, limits, shape)?)
}

/// The instances put in, as the definitions do it where there are some.
pub fn put_in_shape(alloc: Global, instances: &[Form], shape: &Shape) -> Result<Shape, FormFault>
    ensures ok { IfOk result (λ put. context.put_in_shape instances.now shape.now ≡ Ok put) }
    ensures err { IfErr result (IsTooLarge (context.put_in_shape instances.now shape.now)) }
{
    if instances.is_empty() {
        return Ok(shape.copy()?);
    }
    put_shape(alloc, instances, 0, shape)
}

pub fn put_in_res(alloc: Global, instances: &[Form], res: &Resource) -> Result<Resource, FormFault>
    ensures ok { IfOk result (λ put. context.put_in_res instances.now res.now ≡ Ok put) }
    ensures err { IfErr result (IsTooLarge (context.put_in_res instances.now res.now)) }
{
    if instances.is_empty() {
        return Ok(res.copy()?);
    }
    put_res(alloc, instances, 0, res)
}

/// The shape with instances for the binders around so many others.
pub fn shape_with(
    alloc: Global,
    instances: &[Form],
    depth: usize,
    shape: &Shape,
) -> Result<Shape, FormFault>
    ensures ok { IfOk result (λ put. formed_shape (spec.shape_with instances.now depth shape.now) ≡ Ok put) }
    ensures err { IfErr result (IsTooLarge (formed_shape (spec.shape_with instances.now depth shape.now))) }
{
    put_shape(alloc, instances, depth, shape)
}

/// The resource with instances for the binders around so many others.
pub fn res_with(
    alloc: Global,
    instances: &[Form],
    depth: usize,
    res: &Resource,
) -> Result<Resource, FormFault>
    ensures ok { IfOk result (λ put. formed_res (spec.res_with instances.now depth res.now) ≡ Ok put) }
    ensures err { IfErr result (IsTooLarge (formed_res (spec.res_with instances.now depth res.now))) }
{
    put_res(alloc, instances, depth, res)
}

/// The end with instances for the binders around it.
pub fn ref_with(alloc: Global, instances: &[Form], end: &Ref) -> Result<Ref, FormFault>
    ensures ok { IfOk result (λ put. formed_ref (spec.ref_with instances.now 0 (ref_of end.now)) ≡ Ok (ref_of put)) }
    ensures err { IfErr result (IsTooLarge (formed_ref (spec.ref_with instances.now 0 (ref_of end.now)))) }
{
    put_ref(alloc, instances, 0, end)
}
