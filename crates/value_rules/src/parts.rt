//! The rule on pairs that are taken apart.
ghost use Rattle.std.specs.Prelude.{◌≡◌, Ok, OnOk, IfErr};
ghost use Rattle.std.specs.Option.{option_map};
ghost use Rattle.chan_syntax.specs.Reading.{pat_of};
ghost use Rattle.outline_language.specs.Giving.{pair_of};
ghost use Rattle.outline_language.specs.Rules as spec;
ghost use Rattle.outline_obligations.specs.Reasons.{IsReason};
ghost use Rattle.outline_contexts.specs.Trails.{IsAfter, context_in};
ghost use Rattle.value_rules.specs.Halves.{halves_of};

use chan_syntax::{Ident, Pat};
use nameless_shapes::{Node, Resource, Shape};
use outline_contexts::Context;
use outline_obligations::{ContextFault, Why};
use std::alloc::Global;

/// The resources of a pair.
#[derive(Clone, Copy)]
struct Halves<'a> {
    first: &'a Resource,
    second: &'a Resource,
}

fn both_of(shape: &Shape) -> Option<Halves<'_>>
    ensures { option_map halves_of result ≡ pair_of shape.now }
{
    match shape.get() {
        Node::Pair(first, second) => Some(Halves { first, second }),
        _ => None,
    }
}

/// `let (p, q) = x`: x is taken and a pair, and its parts are bound.
pub fn meet_split(
    alloc: Global,
    ctx: &mut Context,
    first: &Pat,
    second: &Pat,
    name: &Ident,
) -> Result<(), ContextFault>
    ensures ok { OnOk result (spec.rule_split (context_in ctx.old) (pat_of first.now) (pat_of second.now) name.now ≡ Ok (context_in ctx.new)) }
    ensures err { IfErr result (IsReason (spec.rule_split (context_in ctx.old) (pat_of first.now) (pat_of second.now) name.now)) }
    ensures after { IsAfter ctx.old ctx.new }
{
    let shape = ctx.take(name)?;
    match both_of(&shape) {
        Some(parts) => {
            ctx.bind(alloc, first, parts.first)?;
            ctx.bind(alloc, second, parts.second)?;
            Ok(())
        }
        None => Err(ContextFault::Why(Why::WrongForm)),
    }
}
