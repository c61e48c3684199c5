//! Rules on messages.
ghost use Rattle.std.specs.Prelude.{◌≡◌, map, All, Ok, OnOk, IfErr};
ghost use Rattle.chan_syntax.specs.Bounds.{IsBounded};
ghost use Rattle.chan_syntax.specs.Reading.{pat_of, letter_of, supply_of, proof_of};
ghost use Rattle.outline_language.specs.Equations as equations;
ghost use Rattle.outline_language.specs.Rules as spec;
ghost use Rattle.outline_obligations.specs.Reasons.{IsReason};
ghost use Rattle.outline_contexts.specs.Trails.{IsAfter, context_in};
ghost use Rattle.protocol_tables.specs.Reading.{direction_of};
ghost use Rattle.call_rules.specs.Reading.{program_in};

use crate::openings::open;
use crate::tables::Tables;
use chan_syntax::{Ident, Letter, Pat, Proof, Supply};
use outline_contexts::Context;
use outline_obligations::{ContextFault, Why, leftovers};
use protocol_tables::Direction;
use std::alloc::Global;
use value_supplies::give;

fn sends(direction: Direction) -> bool
    ensures { result ≡ equations.sends (direction_of direction) }
{
    match direction {
        Direction::Sends => true,
        Direction::Receives => false,
    }
}

/// `send1 c v`: the message of c is sent, v is given at it, leftovers.
pub fn meet_send(
    alloc: Global,
    tables: &Tables<'_>,
    ctx: &mut Context,
    channel: &Ident,
    path: &[Letter],
    value: &Supply,
    proof: &Proof,
) -> Result<(), ContextFault>
    requires certs { All IsBounded proof.now.certs }
    ensures ok { OnOk result (spec.rule_send (program_in tables.now) (context_in ctx.old) channel.now (map letter_of path.now) (supply_of value.now) (proof_of proof.now) ≡ Ok (context_in ctx.new)) }
    ensures err { IfErr result (IsReason (spec.rule_send (program_in tables.now) (context_in ctx.old) channel.now (map letter_of path.now) (supply_of value.now) (proof_of proof.now))) }
    ensures after { IsAfter ctx.old ctx.new }
{
    let end = open(alloc, tables, ctx, channel, path, proof)?;
    if !sends(end.message.direction) {
        return Err(ContextFault::Why(Why::WrongForm));
    }
    let given = give(alloc, ctx, value, &end.message.res, proof, end.taken)?;
    leftovers(proof, given)?;
    Ok(())
}

/// `let p = recv1 c`: the message of c is received, leftovers, and it is bound.
pub fn meet_recv(
    alloc: Global,
    tables: &Tables<'_>,
    ctx: &mut Context,
    pat: &Pat,
    channel: &Ident,
    path: &[Letter],
    proof: &Proof,
) -> Result<(), ContextFault>
    requires certs { All IsBounded proof.now.certs }
    ensures ok { OnOk result (spec.rule_recv (program_in tables.now) (context_in ctx.old) (pat_of pat.now) channel.now (map letter_of path.now) (proof_of proof.now) ≡ Ok (context_in ctx.new)) }
    ensures err { IfErr result (IsReason (spec.rule_recv (program_in tables.now) (context_in ctx.old) (pat_of pat.now) channel.now (map letter_of path.now) (proof_of proof.now))) }
    ensures after { IsAfter ctx.old ctx.new }
{
    let end = open(alloc, tables, ctx, channel, path, proof)?;
    if sends(end.message.direction) {
        return Err(ContextFault::Why(Why::WrongForm));
    }
    leftovers(proof, end.taken)?;
    ctx.bind(alloc, pat, &end.message.res)?;
    Ok(())
}
