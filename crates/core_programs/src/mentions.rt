//! The names that nodes mention.
ghost use Rattle.std.specs.Prelude.{◌≡◌, ◌∷◌, ◌++◌, IfOk, OnOk};
ghost use Rattle.chan_syntax.specs.Reading.{supply_of};
ghost use Rattle.name_uses.specs.Uses.{supply_names};
ghost use Rattle.core_programs.specs.Uses.{mentions};

use crate::nodes::Node;
use chan_base::Memory;
use chan_syntax::{Ident, Supply};
use name_uses::{add_name, add_supplies, add_supply, add_term, add_terms};
use std::alloc::Global;

fn add_sent(names: &mut Vec<Ident>, channel: &Ident, value: &Supply) -> Result<(), Memory>
    ensures { OnOk result (names.new.items ≡ names.old.items ++ channel.now ∷ supply_names (supply_of value.now)) }
{
    add_name(names, channel)?;
    add_supply(names, value)
}

fn add_mentions(names: &mut Vec<Ident>, node: &Node) -> Result<(), Memory>
    ensures { OnOk result (names.new.items ≡ names.old.items ++ mentions node.now) }
{
    match node {
        Node::Let { term, .. } => add_term(names, term),
        Node::Mul { left, right, .. } => add_terms(names, left, right),
        Node::Div { term, .. } => add_term(names, term),
        Node::Rem { term, .. } => add_term(names, term),
        Node::Call { values, .. } => add_supplies(names, values.as_slice()),
        Node::Tail { values, .. } => add_supplies(names, values.as_slice()),
        Node::Fork { values, .. } => add_supplies(names, values.as_slice()),
        Node::Send1 { channel, value, .. } => add_sent(names, channel, value),
        Node::Recv1 { channel, .. } => add_name(names, channel),
        Node::Print { term, .. } => add_term(names, term),
        Node::If { left, right, .. } => add_terms(names, left, right),
        Node::Split { name, .. } => add_name(names, name),
        Node::Match { name, .. } => add_name(names, name),
        Node::Absurd { .. } => Ok(()),
        Node::Ret { value, .. } => add_supply(names, value),
    }
}

/// The names that a node mentions, in their order.
pub(crate) fn mentions_of(alloc: Global, node: &Node) -> Result<Vec<Ident>, Memory>
    ensures { IfOk result (λ names. names.items ≡ mentions node.now) }
{
    let mut names = Vec::new(alloc);
    add_mentions(&mut names, node)?;
    Ok(names)
}
