//! Instances that a proof has for binders.
ghost use Rattle.std.specs.Prelude.{◌≡◌, suc, map, All, Ok, IfOk, IfErr};
ghost use Rattle.chan_syntax.specs.Bounds.{IsBounded};
ghost use Rattle.outline_language.specs.Contexts as spec;
ghost use Rattle.nameless_forms.specs.Limits.{limit_of};
ghost use Rattle.outline_obligations.specs.Cursors.{cursor_at};
ghost use Rattle.outline_obligations.specs.Reasons.{IsReason};
ghost use Rattle.outline_contexts.specs.Trails.{context_in};
ghost use Rattle.outline_instances.specs.Reading.{supplied_of};

use crate::limits::oblige_limits;
use chan_base::Memory;
use chan_syntax::Proof;
use nameless_forms::{Form, Forms, Limit};
use outline_contexts::Context;
use outline_obligations::{ContextFault, Taken, Why};
use sqlite_items::Items;
use std::alloc::Global;

/// An instance for each binder, the first binder's first, and how much of the proof is taken then.
#[derive(Drop)]
pub struct Supplied {
    pub forms: Forms,
    pub taken: Taken,
}

fn one_more(count: u32) -> Result<u32, Memory>
    ensures { IfOk result (λ more. more ≡ suc count) }
{
    count.checked_add(1).ok_or(Memory)
}

fn next_instance(
    alloc: Global,
    ctx: &Context,
    proof: &Proof,
    taken: Taken,
) -> Result<Form, ContextFault>
    ensures ok { IfOk result (λ form. spec.next_instance (context_in ctx.now) (cursor_at proof.now taken) ≡ Ok form) }
    ensures err { IfErr result (IsReason (spec.next_instance (context_in ctx.now) (cursor_at proof.now taken))) }
{
    match proof.instances.as_slice().get(taken.instance as usize) {
        None => Err(ContextFault::Why(Why::InstanceCount)),
        Some(term) => ctx.meaning(alloc, term),
    }
}

/// So many instances, each with its meaning.
fn take_instances(
    alloc: Global,
    ctx: &Context,
    binders: usize,
    proof: &Proof,
    taken: Taken,
) -> Result<Supplied, ContextFault>
    ensures ok { IfOk result (λ supplied. spec.take_instances (context_in ctx.now) binders (cursor_at proof.now taken) ≡ Ok (supplied_of proof.now supplied)) }
    ensures err { IfErr result (IsReason (spec.take_instances (context_in ctx.now) binders (cursor_at proof.now taken))) }
{
    let mut forms = Items::new(alloc);
    let mut now = taken;
    for _binder in 0..binders {
        let form = next_instance(alloc, ctx, proof, now)?;
        forms.push(form)?;
        now = Taken {
            instance: one_more(now.instance)?,
            cert: now.cert,
        };
    }
    Ok(Supplied { forms, taken: now })
}

/// An instance for each binder, and then a certificate for each row of the limits that asks for
/// one. InstanceCount where an instance is missing, and what `meaning` and `oblige` answer. Memory also
/// where more instances or certificates were taken than 32 bits count.
pub fn instances(
    alloc: Global,
    ctx: &Context,
    binders: usize,
    limits: &[Limit],
    proof: &Proof,
    taken: Taken,
) -> Result<Supplied, ContextFault>
    requires certs { All IsBounded proof.now.certs }
    ensures ok { IfOk result (λ supplied. spec.instances (context_in ctx.now) binders (map limit_of limits.now) (cursor_at proof.now taken) ≡ Ok (supplied_of proof.now supplied)) }
    ensures err { IfErr result (IsReason (spec.instances (context_in ctx.now) binders (map limit_of limits.now) (cursor_at proof.now taken))) }
{
    let supplied = take_instances(alloc, ctx, binders, proof, taken)?;
    let forms = supplied.forms;
    let after = oblige_limits(alloc, ctx, forms.as_slice(), limits, proof, supplied.taken)?;
    Ok(Supplied {
        forms,
        taken: after,
    })
}
