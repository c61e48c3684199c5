//! Integers that are shown to be equal.
ghost use Rattle.std.specs.Prelude.{◌≡◌, [], ◌∷◌, All, Ok, IfOk, IfErr};
ghost use Rattle.chan_syntax.specs.Bounds.{IsBounded};
ghost use Rattle.outline_language.specs.LinearForms.{minus};
ghost use Rattle.outline_language.specs.Contexts as spec;
ghost use Rattle.outline_obligations.specs.Cursors.{cursor_at};
ghost use Rattle.outline_obligations.specs.Reasons.{IsReason};
ghost use Rattle.outline_contexts.specs.Trails.{context_in};

use chan_syntax::Proof;
use nameless_forms::Form;
use outline_contexts::Context;
use outline_obligations::{ContextFault, Taken, Why};
use std::alloc::Global;

/// Neither form is more than the other.
fn oblige_both(
    alloc: Global,
    ctx: &Context,
    left: &Form,
    right: &Form,
    proof: &Proof,
    taken: Taken,
) -> Result<Taken, ContextFault>
    requires { All IsBounded proof.now.certs }
    ensures ok { IfOk result (λ after. spec.oblige_all (context_in ctx.now) (minus left.now right.now ∷ minus right.now left.now ∷ []) (cursor_at proof.now taken) ≡ Ok (cursor_at proof.now after)) }
    ensures err { IfErr result (IsReason (spec.oblige_all (context_in ctx.now) (minus left.now right.now ∷ minus right.now left.now ∷ []) (cursor_at proof.now taken))) }
{
    let taken = ctx.oblige_at_most(alloc, left, right, proof, taken)?;
    let taken = ctx.oblige_at_most(alloc, right, left, proof, taken)?;
    Ok(taken)
}

/// Both integers are equal: forms that aren't the same take a certificate for each difference that
/// isn't a constant at most 0.
pub fn equate(
    alloc: Global,
    ctx: &Context,
    left: &Form,
    right: &Form,
    proof: &Proof,
    taken: Taken,
) -> Result<Taken, ContextFault>
    requires certs { All IsBounded proof.now.certs }
    ensures ok { IfOk result (λ after. spec.equate (context_in ctx.now) left.now right.now (cursor_at proof.now taken) ≡ Ok (cursor_at proof.now after)) }
    ensures err { IfErr result (IsReason (spec.equate (context_in ctx.now) left.now right.now (cursor_at proof.now taken))) }
{
    if left.is_same(right) {
        return Ok(taken);
    }
    oblige_both(alloc, ctx, left, right, proof, taken)
}

/// Integers are equal one by one, and then there are as many of both, or it is WrongForm.
pub fn equate_all(
    alloc: Global,
    ctx: &Context,
    left: &[Form],
    right: &[Form],
    proof: &Proof,
    taken: Taken,
) -> Result<Taken, ContextFault>
    requires certs { All IsBounded proof.now.certs }
    ensures ok { IfOk result (λ after. spec.equate_all (context_in ctx.now) left.now right.now (cursor_at proof.now taken) ≡ Ok (cursor_at proof.now after)) }
    ensures err { IfErr result (IsReason (spec.equate_all (context_in ctx.now) left.now right.now (cursor_at proof.now taken))) }
{
    let mut now = taken;
    for index in 0..left.len().min(right.len()) {
        now = equate(alloc, ctx, &left[index], &right[index], proof, now)?;
    }
    if left.len() != right.len() {
        return Err(ContextFault::Why(Why::WrongForm));
    }
    Ok(now)
}
