//! The rule on `match`, and the contexts of its arms.
ghost use Rattle.std.specs.Prelude.{◌≡◌, ℕ, List, length, Ok, OnOk, IfOk, IfErr};
ghost use Rattle.std.specs.Option.{option_map, option_and_then, option_copied};
ghost use Rattle.outline_language.specs.Nameless.{resource_at};
ghost use Rattle.core_language.specs.Programs.{Body};
ghost use Rattle.chan_syntax.specs.Reading.{pat_of};
ghost use Rattle.core_programs.specs.Bodies.{arms_opened};
ghost use Rattle.outline_language.specs.Contexts as context;
ghost use Rattle.outline_language.specs.Giving.{sum_of};
ghost use Rattle.outline_language.specs.Rules as spec;
ghost use Rattle.outline_obligations.specs.Reasons.{IsReason};
ghost use Rattle.outline_walk.specs.Forms.{arm_res, arm_in};
ghost use Rattle.outline_contexts.specs.Trails.{IsAfter, context_in};
ghost use Rattle.nameless_shapes.specs.Reading.{resources_from};
ghost use Rattle.value_rules.specs.Arms.{IsTaken, bound_arm};

use chan_syntax::{Ident, Pat};
use core_programs::Arm;
use nameless_shapes::{Node, Resource, Shape};
use outline_contexts::Context;
use outline_obligations::{ContextFault, Why};
use std::alloc::Global;

/// The resources of a sum.
fn resources(shape: &Shape) -> Option<&[Resource]>
    ensures { option_map (λ rs. resources_from rs.now) result ≡ sum_of shape.now }
{
    match shape.get() {
        Node::Sum(arms) => Some(arms.as_slice()),
        _ => None,
    }
}

/// Binds the pattern of an arm, and takes it back.
fn try_arm(alloc: Global, ctx: &mut Context, pat: &Pat, res: &Resource) -> Result<(), ContextFault>
    ensures ok { OnOk result ((after : context.Context) × (context.bind (context_in ctx.old) (pat_of pat.now) res.now ≡ Ok after)) }
    ensures stays { OnOk result (ctx.new ≡ ctx.old) }
    ensures err { IfErr result (IsReason (context.bind (context_in ctx.old) (pat_of pat.now) res.now)) }
    ensures after { IsAfter ctx.old ctx.new }
{
    let mark = ctx.mark();
    ctx.bind(alloc, pat, res)?;
    ctx.rewind(mark);
    Ok(())
}

/// Tries each arm, in order.
fn try_arms(
    alloc: Global,
    ctx: &mut Context,
    resources: &[Resource],
    arms: &[Arm],
) -> Result<(), ContextFault>
    requires { length resources.now ≡ length arms.now }
    ensures ok { OnOk result ((at : ℕ → Body) → (each : List context.Context) × (spec.bind_arms (context_in ctx.old) (resources_from resources.now) (arms_opened arms.now at) ≡ Ok each)) }
    ensures stays { OnOk result (ctx.new ≡ ctx.old) }
    ensures err { IfErr result (λ fault. (at : ℕ → Body) → IsReason (spec.bind_arms (context_in ctx.old) (resources_from resources.now) (arms_opened arms.now at)) fault) }
    ensures after { IsAfter ctx.old ctx.new }
{
    for index in 0..arms.len() {
        try_arm(alloc, ctx, &arms[index].pat, &resources[index])?;
    }
    Ok(())
}

/// `match x`: x is taken and a sum with as many resources as there are arms, and each arm can be
/// bound. The context is the one without x.
pub fn meet_match(
    alloc: Global,
    ctx: &mut Context,
    name: &Ident,
    arms: &[Arm],
) -> Result<(), ContextFault>
    ensures taken { OnOk result (IsTaken (context_in ctx.old) name.now (context_in ctx.new)) }
    ensures ok { OnOk result ((at : ℕ → Body) → (each : List context.Context) × (spec.rule_match (context_in ctx.old) name.now (arms_opened arms.now at) ≡ Ok each)) }
    ensures err { IfErr result (λ fault. (at : ℕ → Body) → IsReason (spec.rule_match (context_in ctx.old) name.now (arms_opened arms.now at)) fault) }
    ensures after { IsAfter ctx.old ctx.new }
{
    let shape = ctx.take(name)?;
    match resources(&shape) {
        Some(resources) => {
            if resources.len() != arms.len() {
                return Err(ContextFault::Why(Why::WrongForm));
            }
            try_arms(alloc, ctx, resources, arms)?;
            Ok(())
        }
        None => Err(ContextFault::Why(Why::WrongForm)),
    }
}

/// The resource with a number, where the shape is a sum that has it.
fn nth_resource(shape: &Shape, number: usize) -> Option<&Resource>
    ensures { option_copied result ≡ option_and_then (λ rs. resource_at rs number) (sum_of shape.now) }
{
    match resources(shape) {
        Some(resources) => resources.get(number),
        None => None,
    }
}

/// The resource with a number, of the sum that a name has.
fn arm_resource<'a>(ctx: &'a Context, name: &Ident, number: usize) -> Option<&'a Resource>
    ensures { option_copied result ≡ arm_res (context_in ctx.now) name.now number }
{
    match ctx.shape_of(name) {
        Some(shape) => nth_resource(shape, number),
        None => None,
    }
}

fn arm_copy(ctx: &Context, name: &Ident, number: usize) -> Result<Resource, ContextFault>
    ensures ok { IfOk result (λ res. context.or_why (arm_res (context_in ctx.now) name.now number) context.WrongForm ≡ Ok res) }
    ensures err { IfErr result (IsReason (context.or_why (arm_res (context_in ctx.now) name.now number) context.WrongForm)) }
{
    match arm_resource(ctx, name, number) {
        Some(res) => {
            let res = res.copy()?;
            Ok(res)
        }
        None => Err(ContextFault::Why(Why::WrongForm)),
    }
}

/// Binds the pattern of the arm with this number.
fn bind_arm(
    alloc: Global,
    ctx: &mut Context,
    arms: &[Arm],
    number: usize,
    res: &Resource,
) -> Result<(), ContextFault>
    ensures ok { OnOk result ((at : ℕ → Body) → bound_arm (context_in ctx.old) (arms_opened arms.now at) number res.now ≡ Ok (context_in ctx.new)) }
    ensures err { IfErr result (λ fault. (at : ℕ → Body) → IsReason (bound_arm (context_in ctx.old) (arms_opened arms.now at) number res.now) fault) }
    ensures after { IsAfter ctx.old ctx.new }
{
    match arms.get(number) {
        Some(arm) => {
            ctx.bind(alloc, &arm.pat, res)?;
            Ok(())
        }
        None => Err(ContextFault::Why(Why::WrongForm)),
    }
}

/// Makes of the context that a `match` left the one of the arm with this number.
pub fn enter_arm(
    alloc: Global,
    ctx: &mut Context,
    name: &Ident,
    arms: &[Arm],
    number: usize,
) -> Result<(), ContextFault>
    ensures ok { OnOk result ((at : ℕ → Body) → arm_in (context_in ctx.old) name.now (arms_opened arms.now at) number ≡ Ok (context_in ctx.new)) }
    ensures err { IfErr result (λ fault. (at : ℕ → Body) → IsReason (arm_in (context_in ctx.old) name.now (arms_opened arms.now at) number) fault) }
    ensures after { IsAfter ctx.old ctx.new }
{
    let res = arm_copy(ctx, name, number)?;
    bind_arm(alloc, ctx, arms, number, &res)?;
    Ok(())
}
