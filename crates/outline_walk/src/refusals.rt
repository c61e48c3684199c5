//! The first fault so far.
ghost use Rattle.std.specs.Prelude.{◌≡◌, ℕ, ◌∷◌, [], List, IfOk, OnOk, Some, slice_get};
ghost use Rattle.core_programs.specs.declared.nodes.Node.{Node as Form};
ghost use Rattle.core_programs.specs.Bodies.{span_of};
ghost use Rattle.outline_language.specs.Outlined as spec;
ghost use Rattle.outline_obligations.specs.Reasons.{why_of};
ghost use Rattle.outline_walk.specs.Refusals.{found, is_before, span_of_node, IsPlaced};

use chan_base::{Memory, Span};
use chan_syntax::{Ident, Idents};
use core_programs::Node;
use outline_obligations::Why;
use sqlite_items::Items;
use std::alloc::Global;

/// The node whose rule fails, the first reason, and the integer variables of its context in order,
/// by which a `CertFault` numbers them.
#[derive(Drop)]
pub struct Refusal {
    pub node: u32,
    pub span: Span,
    pub why: Why,
    pub names: Idents,
}

fn copy_of(alloc: Global, names: &[Ident]) -> Result<Idents, Memory>
    ensures { IfOk result (λ copy. copy ≡ names.now) }
{
    let mut copy = Items::new(alloc);
    for name in names {
        copy.push(name.copy()?)?;
    }
    Ok(copy)
}

fn span_at(node: &Node) -> Span
    ensures { result ≡ span_of_node node.now }
{
    match node {
        Node::Let { span, .. } => *span,
        Node::Mul { span, .. } => *span,
        Node::Div { span, .. } => *span,
        Node::Rem { span, .. } => *span,
        Node::Call { span, .. } => *span,
        Node::Tail { span, .. } => *span,
        Node::Fork { span, .. } => *span,
        Node::Send1 { span, .. } => *span,
        Node::Recv1 { span, .. } => *span,
        Node::Print { span, .. } => *span,
        Node::If { span, .. } => *span,
        Node::Split { span, .. } => *span,
        Node::Match { span, .. } => *span,
        Node::Absurd { span, .. } => *span,
        Node::Ret { span, .. } => *span,
    }
}

fn comes_before(start: u32, first: &Option<Refusal>) -> bool
    ensures { result ≡ is_before start first.now }
{
    match first {
        None => true,
        Some(refusal) => start < refusal.span.start,
    }
}

/// Takes the fault of a node, where it starts before the first one so far.
#[tactic(auto, unfolding(outline_language::specs::Outlined::least))]
pub(crate) fn note(
    alloc: Global,
    first: &mut Option<Refusal>,
    node: &Node,
    number: u32,
    why: Why,
    names: &[Ident],
) -> Result<(), Memory>
    ensures first { OnOk result (found first.new ≡ spec.least (found first.old) (record { span = span_of (span_of_node node.now); why = why_of why; names = names.now } ∷ [])) }
    ensures placed { (nodes : List Form) → IsPlaced nodes first.old → slice_get nodes number ≡ Some node.now → IsPlaced nodes first.new }
{
    let span = span_at(node);
    if comes_before(span.start, first) {
        let names = copy_of(alloc, names)?;
        *first = Some(Refusal {
            node: number,
            span,
            why,
            names,
        });
    }
    Ok(())
}
