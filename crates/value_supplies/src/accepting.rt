//! Variables of a shape that are accepted where another one is asked for.
ghost use Rattle.std.specs.Prelude.{◌≡◌, All, Ok, IfOk, IfErr};
ghost use Rattle.chan_syntax.specs.Bounds.{IsBounded};
ghost use Rattle.outline_language.specs.Nameless.{End, same_shape};
ghost use Rattle.outline_language.specs.Contexts.{WrongForm, provided};
ghost use Rattle.outline_language.specs.Giving as spec;
ghost use Rattle.nameless_shapes.specs.Parts.{ref_of};
ghost use Rattle.outline_obligations.specs.Cursors.{cursor_at};
ghost use Rattle.outline_obligations.specs.Reasons.{IsReason};
ghost use Rattle.outline_contexts.specs.Trails.{context_in};

use crate::equalities::{equate, equate_all};
use chan_syntax::Proof;
use nameless_shapes::{Node, Ref, Shape, same_shape};
use outline_contexts::Context;
use outline_obligations::{ContextFault, Taken, Why};
use std::alloc::Global;

fn accept_end(
    alloc: Global,
    ctx: &Context,
    has: &Ref,
    asked: &Ref,
    proof: &Proof,
    taken: Taken,
) -> Result<Taken, ContextFault>
    requires { All IsBounded proof.now.certs }
    ensures ok { IfOk result (λ after. spec.accept (context_in ctx.now) (End (ref_of has.now)) (End (ref_of asked.now)) (cursor_at proof.now taken) ≡ Ok (cursor_at proof.now after)) }
    ensures err { IfErr result (IsReason (spec.accept (context_in ctx.now) (End (ref_of has.now)) (End (ref_of asked.now)) (cursor_at proof.now taken))) }
{
    if has.dual != asked.dual || has.name != asked.name {
        return Err(ContextFault::Why(Why::WrongForm));
    }
    equate_all(
        alloc,
        ctx,
        has.args.as_slice(),
        asked.args.as_slice(),
        proof,
        taken,
    )
}

fn accept_same(
    has: &Shape,
    asked: &Shape,
    proof: &Proof,
    taken: Taken,
) -> Result<Taken, ContextFault>
    ensures ok { IfOk result (λ after. provided (same_shape has.now asked.now) WrongForm (cursor_at proof.now taken) ≡ Ok (cursor_at proof.now after)) }
    ensures err { IfErr result (IsReason (provided (same_shape has.now asked.now) WrongForm (cursor_at proof.now taken))) }
{
    if same_shape(has, asked) {
        Ok(taken)
    } else {
        Err(ContextFault::Why(Why::WrongForm))
    }
}

/// A variable has the first shape where the second is asked for: integers are equal, and so are the
/// arguments of ends, in order; pairs and sums are one up to the names of binders. Else it is WrongForm.
pub fn accept(
    alloc: Global,
    ctx: &Context,
    has: &Shape,
    asked: &Shape,
    proof: &Proof,
    taken: Taken,
) -> Result<Taken, ContextFault>
    requires certs { All IsBounded proof.now.certs }
    ensures ok { IfOk result (λ after. spec.accept (context_in ctx.now) has.now asked.now (cursor_at proof.now taken) ≡ Ok (cursor_at proof.now after)) }
    ensures err { IfErr result (IsReason (spec.accept (context_in ctx.now) has.now asked.now (cursor_at proof.now taken))) }
{
    match (has.get(), asked.get()) {
        (Node::Unit, Node::Unit) => Ok(taken),
        (Node::Int(form), Node::Int(other)) => equate(alloc, ctx, form, other, proof, taken),
        (Node::End(end), Node::End(other)) => accept_end(alloc, ctx, end, other, proof, taken),
        (Node::Pair(_, _), Node::Pair(_, _)) => accept_same(has, asked, proof, taken),
        (Node::Sum(_), Node::Sum(_)) => accept_same(has, asked, proof, taken),
        _ => Err(ContextFault::Why(Why::WrongForm)),
    }
}
