//! Limits that certificates show, with instances for their binders.
ghost use Rattle.std.specs.Prelude.{◌≡◌, [], ◌∷◌, map, flat_map, All, Ok, IfOk, IfErr};
ghost use Rattle.chan_syntax.specs.Bounds.{IsBounded};
ghost use Rattle.outline_language.specs.LinearForms.{plus_one};
ghost use Rattle.outline_language.specs.Contexts as spec;
ghost use Rattle.nameless_forms.specs.Differences.{difference_at};
ghost use Rattle.nameless_forms.specs.Limits.{limit_of};
ghost use Rattle.outline_obligations.specs.Cursors.{cursor_at};
ghost use Rattle.outline_obligations.specs.Reasons.{IsReason};
ghost use Rattle.outline_contexts.specs.Growing.{limit_forms};
ghost use Rattle.outline_contexts.specs.Trails.{context_in};

use chan_syntax::{Proof, Relation};
use nameless_forms::{Form, Limit, at_most_row_with, less_row_with};
use outline_contexts::Context;
use outline_obligations::{ContextFault, Taken};
use std::alloc::Global;

fn oblige_at_most(
    alloc: Global,
    ctx: &Context,
    forms: &[Form],
    left: &Form,
    right: &Form,
    proof: &Proof,
    taken: Taken,
) -> Result<Taken, ContextFault>
    requires { All IsBounded proof.now.certs }
    ensures ok { IfOk result (λ after. spec.oblige spec.NotProved (context_in ctx.now) (difference_at forms.now left.now right.now) (cursor_at proof.now taken) ≡ Ok (cursor_at proof.now after)) }
    ensures err { IfErr result (IsReason (spec.oblige spec.NotProved (context_in ctx.now) (difference_at forms.now left.now right.now) (cursor_at proof.now taken))) }
{
    let row = at_most_row_with(alloc, ctx.variables(), forms, left, right)?;
    ctx.oblige_row(alloc, &row, proof, taken)
}

fn oblige_less(
    alloc: Global,
    ctx: &Context,
    forms: &[Form],
    left: &Form,
    right: &Form,
    proof: &Proof,
    taken: Taken,
) -> Result<Taken, ContextFault>
    requires { All IsBounded proof.now.certs }
    ensures ok { IfOk result (λ after. spec.oblige spec.NotProved (context_in ctx.now) (plus_one (difference_at forms.now left.now right.now)) (cursor_at proof.now taken) ≡ Ok (cursor_at proof.now after)) }
    ensures err { IfErr result (IsReason (spec.oblige spec.NotProved (context_in ctx.now) (plus_one (difference_at forms.now left.now right.now)) (cursor_at proof.now taken))) }
{
    let row = less_row_with(alloc, ctx.variables(), forms, left, right)?;
    ctx.oblige_row(alloc, &row, proof, taken)
}

fn oblige_same(
    alloc: Global,
    ctx: &Context,
    forms: &[Form],
    left: &Form,
    right: &Form,
    proof: &Proof,
    taken: Taken,
) -> Result<Taken, ContextFault>
    requires { All IsBounded proof.now.certs }
    ensures ok { IfOk result (λ after. spec.oblige_all (context_in ctx.now) (difference_at forms.now left.now right.now ∷ difference_at forms.now right.now left.now ∷ []) (cursor_at proof.now taken) ≡ Ok (cursor_at proof.now after)) }
    ensures err { IfErr result (IsReason (spec.oblige_all (context_in ctx.now) (difference_at forms.now left.now right.now ∷ difference_at forms.now right.now left.now ∷ []) (cursor_at proof.now taken))) }
{
    let taken = oblige_at_most(alloc, ctx, forms, left, right, proof, taken)?;
    let taken = oblige_at_most(alloc, ctx, forms, right, left, proof, taken)?;
    Ok(taken)
}

fn oblige_limit(
    alloc: Global,
    ctx: &Context,
    forms: &[Form],
    limit: &Limit,
    proof: &Proof,
    taken: Taken,
) -> Result<Taken, ContextFault>
    requires { All IsBounded proof.now.certs }
    ensures ok { IfOk result (λ after. spec.oblige_all (context_in ctx.now) (limit_forms forms.now (limit_of limit.now)) (cursor_at proof.now taken) ≡ Ok (cursor_at proof.now after)) }
    ensures err { IfErr result (IsReason (spec.oblige_all (context_in ctx.now) (limit_forms forms.now (limit_of limit.now)) (cursor_at proof.now taken))) }
{
    let left = &limit.left;
    let right = &limit.right;
    match limit.relation {
        Relation::AtMost => oblige_at_most(alloc, ctx, forms, left, right, proof, taken),
        Relation::Less => oblige_less(alloc, ctx, forms, left, right, proof, taken),
        Relation::Same => oblige_same(alloc, ctx, forms, left, right, proof, taken),
    }
}

/// Each row of the limits, with the instances put in, is at most 0.
pub(crate) fn oblige_limits(
    alloc: Global,
    ctx: &Context,
    forms: &[Form],
    limits: &[Limit],
    proof: &Proof,
    taken: Taken,
) -> Result<Taken, ContextFault>
    requires { All IsBounded proof.now.certs }
    ensures ok { IfOk result (λ after. spec.oblige_all (context_in ctx.now) (flat_map (limit_forms forms.now) (map limit_of limits.now)) (cursor_at proof.now taken) ≡ Ok (cursor_at proof.now after)) }
    ensures err { IfErr result (IsReason (spec.oblige_all (context_in ctx.now) (flat_map (limit_forms forms.now) (map limit_of limits.now)) (cursor_at proof.now taken))) }
{
    let mut now = taken;
    for limit in limits {
        now = oblige_limit(alloc, ctx, forms, limit, proof, now)?;
    }
    Ok(now)
}
