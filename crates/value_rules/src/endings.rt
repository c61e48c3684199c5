//! The rule on bodies that are never come to.
ghost use Rattle.std.specs.Prelude.{◌≡◌, All, Ok, OnOk, IfErr};
ghost use Rattle.chan_syntax.specs.Bounds.{IsBounded};
ghost use Rattle.chan_syntax.specs.Reading.{proof_of};
ghost use Rattle.outline_language.specs.Contexts.{nothing};
ghost use Rattle.outline_language.specs.Rules as spec;
ghost use Rattle.outline_obligations.specs.Reasons.{IsReason};
ghost use Rattle.outline_contexts.specs.Trails.{context_in};

use chan_syntax::Proof;
use nameless_forms::Form;
use outline_contexts::Context;
use outline_obligations::{ContextFault, Taken, leftovers};
use std::alloc::Global;

/// `absurd`: a certificate shows that 1 is at most 0, and nothing of the proof is left.
pub fn meet_absurd(alloc: Global, ctx: &Context, proof: &Proof) -> Result<(), ContextFault>
    requires { All IsBounded proof.now.certs }
    ensures ok { OnOk result (spec.rule_absurd (context_in ctx.now) (proof_of proof.now) ≡ Ok nothing) }
    ensures err { IfErr result (IsReason (spec.rule_absurd (context_in ctx.now) (proof_of proof.now))) }
{
    let one = Form::constant(alloc, 1);
    let taken = ctx.oblige(alloc, &one, proof, Taken::none())?;
    leftovers(proof, taken)?;
    Ok(())
}
