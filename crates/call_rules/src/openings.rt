//! The message of an end that is taken.
ghost use Rattle.std.specs.Prelude.{◌≡◌, map, All, Ok, IfOk, IfErr};
ghost use Rattle.chan_syntax.specs.Bounds.{IsBounded};
ghost use Rattle.chan_syntax.specs.Reading.{letter_of, proof_of};
ghost use Rattle.nameless_shapes.specs.Parts.{ref_of};
ghost use Rattle.outline_language.specs.Contexts.{start_of};
ghost use Rattle.outline_language.specs.Paths.{unfolded};
ghost use Rattle.outline_language.specs.Rules as spec;
ghost use Rattle.outline_obligations.specs.Reasons.{IsReason};
ghost use Rattle.outline_contexts.specs.Trails.{IsAfter, context_in};
ghost use Rattle.outline_paths.specs.Answers.{unfolded_of};
ghost use Rattle.call_rules.specs.Reading.{program_in, opened_as};

use crate::children::end_of;
use crate::tables::Tables;
use chan_syntax::{Ident, Letter, Proof};
use nameless_shapes::Ref;
use outline_contexts::Context;
use outline_obligations::{ContextFault, Taken, Why};
use outline_paths::{Unfolded, unfold};
use std::alloc::Global;

/// Follows an end by a path, from the beginning of the proof.
fn follow(
    alloc: Global,
    tables: &Tables<'_>,
    ctx: &Context,
    end: &Ref,
    path: &[Letter],
    proof: &Proof,
) -> Result<Unfolded, ContextFault>
    requires { All IsBounded proof.now.certs }
    ensures ok { IfOk result (λ found. unfolded (program_in tables.now).protos (context_in ctx.now) (ref_of end.now) (map letter_of path.now) (start_of (proof_of proof.now)) ≡ Ok (unfolded_of proof.now found)) }
    ensures err { IfErr result (IsReason (unfolded (program_in tables.now).protos (context_in ctx.now) (ref_of end.now) (map letter_of path.now) (start_of (proof_of proof.now)))) }
{
    unfold(
        alloc,
        tables.protocols,
        ctx.variables(),
        ctx.hyps(),
        end,
        path,
        proof,
        Taken::none(),
    )
}

/// A name is taken, is an end, and is followed by its path to the message.
pub(crate) fn open(
    alloc: Global,
    tables: &Tables<'_>,
    ctx: &mut Context,
    channel: &Ident,
    path: &[Letter],
    proof: &Proof,
) -> Result<Unfolded, ContextFault>
    requires { All IsBounded proof.now.certs }
    ensures ok { IfOk result (λ found. spec.opened (program_in tables.now) (context_in ctx.old) channel.now (map letter_of path.now) (proof_of proof.now) ≡ Ok (opened_as ctx.new proof.now found)) }
    ensures err { IfErr result (IsReason (spec.opened (program_in tables.now) (context_in ctx.old) channel.now (map letter_of path.now) (proof_of proof.now))) }
    ensures after { IsAfter ctx.old ctx.new }
{
    let shape = ctx.take(channel)?;
    match end_of(&shape) {
        Some(end) => {
            let found = follow(alloc, tables, ctx, end, path, proof)?;
            Ok(found)
        }
        None => Err(ContextFault::Why(Why::WrongForm)),
    }
}
