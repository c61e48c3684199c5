//! Values at shapes and at resources.
ghost use Rattle.std.specs.Prelude.{◌≡◌, All, Ok, IfOk, IfErr};
ghost use Rattle.chan_syntax.specs.Bounds.{IsBounded};
ghost use Rattle.chan_syntax.specs.Reading.{supply_of};
ghost use Rattle.outline_language.specs.Giving as spec;
ghost use Rattle.outline_obligations.specs.Reasons.{IsReason};
ghost use Rattle.outline_contexts.specs.Trails.{IsAfter};
ghost use Rattle.value_supplies.specs.Reading.{given_at};

use crate::asking::ask;
use crate::parts::{arm, is_unit, pair_parts};
use crate::terms::give_term;
use chan_syntax::{Proof, Supply};
use nameless_shapes::{Resource, Shape};
use outline_contexts::Context;
use outline_obligations::{ContextFault, Taken, Why};
use std::alloc::Global;

/// A value at a shape: a pair gives its first part first, and a tag picks the resource of its arm.
#[cycle(giving)]
pub(crate) fn give_shape(
    alloc: Global,
    ctx: &mut Context,
    value: &Supply,
    shape: &Shape,
    proof: &Proof,
    taken: Taken,
) -> Result<Taken, ContextFault>
    requires { All IsBounded proof.now.certs }
    ensures ok { IfOk result (λ after. spec.give_shape (supply_of value.now) shape.now (given_at ctx.old proof.now taken) ≡ Ok (given_at ctx.new proof.now after)) }
    ensures err { IfErr result (IsReason (spec.give_shape (supply_of value.now) shape.now (given_at ctx.old proof.now taken))) }
    ensures after { IsAfter ctx.old ctx.new }
{
    match value {
        Supply::Unit => {
            if is_unit(shape) {
                Ok(taken)
            } else {
                Err(ContextFault::Why(Why::WrongForm))
            }
        }
        Supply::Pair(first, second) => match pair_parts(shape) {
            Some(parts) => {
                let taken = give(alloc, ctx, first.get(), parts.first, proof, taken)?;
                give(alloc, ctx, second.get(), parts.second, proof, taken)
            }
            None => Err(ContextFault::Why(Why::WrongForm)),
        },
        Supply::Arm(number, value) => match arm(shape, *number) {
            Some(res) => give(alloc, ctx, value.get(), res, proof, taken),
            None => Err(ContextFault::Why(Why::WrongForm)),
        },
        Supply::Sum(term) => give_term(alloc, ctx, term, shape, proof, taken),
    }
}

/// A value at a resource: its binders take instances, its limits certificates, and then its shape
/// takes the value. What a value takes of the context and of the proof, or the first reason why it fails.
#[cycle(giving)]
pub fn give(
    alloc: Global,
    ctx: &mut Context,
    value: &Supply,
    res: &Resource,
    proof: &Proof,
    taken: Taken,
) -> Result<Taken, ContextFault>
    requires certs { All IsBounded proof.now.certs }
    ensures ok { IfOk result (λ after. spec.give (supply_of value.now) res.now (given_at ctx.old proof.now taken) ≡ Ok (given_at ctx.new proof.now after)) }
    ensures err { IfErr result (IsReason (spec.give (supply_of value.now) res.now (given_at ctx.old proof.now taken))) }
    ensures after { IsAfter ctx.old ctx.new }
{
    let asked = ask(alloc, ctx, res, proof, taken)?;
    give_shape(alloc, ctx, value, &asked.shape, proof, asked.taken)
}
