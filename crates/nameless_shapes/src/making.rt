//! Shapes and resources of their parts.
ghost use Rattle.std.specs.Prelude.{◌≡◌, map, IfOk};
ghost use Rattle.outline_language.specs.Nameless as nameless;
ghost use Rattle.nameless_forms.specs.Limits.{limit_of};
ghost use Rattle.nameless_shapes.specs.Parts.{ref_of};
ghost use Rattle.nameless_shapes.specs.Reading.{resources_from};
ghost use Rattle.nameless_shapes.specs.Closed.{AreFormsKept, AreLimitsKept, AreKept};

use crate::shapes::{Bound, Limits, Node, Ref, Resource, Resources, Shape};
use chan_base::Memory;
use nameless_forms::{Form, Forms, Limit};
use sqlite_items::Items;
use std::alloc::Global;

/// How many binders outwards the forms' variables stand at most.
fn forms_reach(forms: &[Form]) -> usize
    ensures { AreFormsKept result forms.now }
{
    let mut reach = 0;
    let mut left = forms.len();
    while left > 0 {
        left -= 1;
        reach = reach.max(forms[left].reach());
    }
    reach
}

fn limits_reach(limits: &[Limit]) -> usize
    ensures { AreLimitsKept result (map limit_of limits.now) }
{
    let mut reach = 0;
    let mut left = limits.len();
    while left > 0 {
        left -= 1;
        let limit = &limits[left];
        reach = reach.max(limit.left.reach().max(limit.right.reach()));
    }
    reach
}

/// Whether an end stands in one of the arms, and how many binders outwards their variables stand.
fn arms_kept(arms: &[Resource]) -> (bool, usize)
    ensures { AreKept result.0 result.1 (resources_from arms.now) }
{
    let mut has_end = false;
    let mut reach = 0;
    let mut left = arms.len();
    while left > 0 {
        left -= 1;
        let arm = &arms[left];
        has_end = arm.has_end() || has_end;
        reach = reach.max(arm.reach());
    }
    (has_end, reach)
}

fn copy_forms(alloc: Global, forms: &[Form]) -> Result<Forms, Memory>
    ensures { IfOk result (λ copy. copy ≡ forms.now) }
{
    let mut copy = Items::new(alloc);
    for form in forms {
        copy.push(form.copy(alloc)?)?;
    }
    Ok(copy)
}

impl Ref {
    pub fn copy(&self, alloc: Global) -> Result<Ref, Memory>
        ensures { IfOk result (λ copy. copy ≡ self.now) }
    {
        let name = self.name.copy()?;
        let args = copy_forms(alloc, self.args.as_slice())?;
        Ok(Ref {
            dual: self.dual,
            name,
            args,
        })
    }
}

impl Shape {
    pub fn unit(alloc: Global) -> Result<Shape, Memory>
        ensures { IfOk result (λ shape. shape ≡ nameless.Unit) }
    {
        Shape::keep(alloc, Node::Unit, false, 0)
    }

    pub fn int(alloc: Global, form: Form) -> Result<Shape, Memory>
        ensures { IfOk result (λ shape. shape ≡ nameless.Int form) }
    {
        let reach = form.reach();
        Shape::keep(alloc, Node::Int(form), false, reach)
    }

    pub fn end(alloc: Global, end: Ref) -> Result<Shape, Memory>
        ensures { IfOk result (λ shape. shape ≡ nameless.End (ref_of end)) }
    {
        let reach = forms_reach(end.args.as_slice());
        Shape::keep(alloc, Node::End(end), true, reach)
    }

    pub fn pair(alloc: Global, first: Resource, second: Resource) -> Result<Shape, Memory>
        ensures { IfOk result (λ shape. shape ≡ nameless.Pair first second) }
    {
        let has_end = first.has_end() || second.has_end();
        let reach = first.reach().max(second.reach());
        Shape::keep(alloc, Node::Pair(first, second), has_end, reach)
    }

    pub fn sum(alloc: Global, arms: Resources) -> Result<Shape, Memory>
        ensures { IfOk result (λ shape. shape ≡ nameless.Sum (resources_from arms)) }
    {
        let (has_end, reach) = arms_kept(arms.as_slice());
        Shape::keep(alloc, Node::Sum(arms), has_end, reach)
    }
}

impl Resource {
    pub fn new(
        alloc: Global,
        binders: usize,
        limits: Limits,
        shape: Shape,
    ) -> Result<Resource, Memory>
        ensures { IfOk result (λ res. res ≡ nameless.Binds binders (map limit_of limits) shape) }
    {
        let within = limits_reach(limits.as_slice()).max(shape.reach());
        let reach = within.saturating_sub(binders);
        Resource::keep(alloc, Bound { binders, limits }, shape, reach)
    }
}
