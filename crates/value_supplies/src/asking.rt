//! The shape that a resource asks a value for.
ghost use Rattle.std.specs.Prelude.{◌≡◌, map, All, Ok, IfOk, IfErr};
ghost use Rattle.chan_syntax.specs.Bounds.{IsBounded};
ghost use Rattle.nameless_forms.specs.Limits.{limit_of};
ghost use Rattle.outline_language.specs.Nameless.{Binds};
ghost use Rattle.outline_obligations.specs.Cursors.{cursor_at};
ghost use Rattle.outline_obligations.specs.Reasons.{IsReason};
ghost use Rattle.outline_contexts.specs.Trails.{context_in};
ghost use Rattle.value_supplies.specs.Asking.{asked};
ghost use Rattle.value_supplies.specs.Reading.{asked_of};

use chan_syntax::Proof;
use nameless_forms::Limit;
use nameless_shapes::{Resource, Shape};
use outline_contexts::Context;
use outline_instances::instances;
use outline_obligations::{ContextFault, Taken};
use shape_instances::put_in_shape;
use std::alloc::Global;

/// A shape whose binders have their instances, and how much of the proof is taken then.
#[derive(Drop)]
pub(crate) struct Asked {
    pub shape: Shape,
    pub taken: Taken,
}

fn ask_under(
    alloc: Global,
    ctx: &Context,
    binders: usize,
    limits: &[Limit],
    shape: &Shape,
    proof: &Proof,
    taken: Taken,
) -> Result<Asked, ContextFault>
    requires { All IsBounded proof.now.certs }
    ensures ok { IfOk result (λ made. asked (context_in ctx.now) (Binds binders (map limit_of limits.now) shape.now) (cursor_at proof.now taken) ≡ Ok (asked_of proof.now made)) }
    ensures err { IfErr result (IsReason (asked (context_in ctx.now) (Binds binders (map limit_of limits.now) shape.now) (cursor_at proof.now taken))) }
{
    let supplied = instances(alloc, ctx, binders, limits, proof, taken)?;
    let shape = put_in_shape(alloc, supplied.forms.as_slice(), shape)?;
    Ok(Asked {
        shape,
        taken: supplied.taken,
    })
}

/// The shape that a resource asks for, once its binders have their instances.
pub(crate) fn ask(
    alloc: Global,
    ctx: &Context,
    res: &Resource,
    proof: &Proof,
    taken: Taken,
) -> Result<Asked, ContextFault>
    requires { All IsBounded proof.now.certs }
    ensures ok { IfOk result (λ made. asked (context_in ctx.now) res.now (cursor_at proof.now taken) ≡ Ok (asked_of proof.now made)) }
    ensures err { IfErr result (IsReason (asked (context_in ctx.now) res.now (cursor_at proof.now taken))) }
{
    let under = res.get();
    ask_under(
        alloc,
        ctx,
        under.binders,
        under.limits,
        under.shape,
        proof,
        taken,
    )
}
