//! Nodes that are added one by one. The number of a node is known when it is named, since those that it
//! names are there before it.
ghost use Rattle.std.specs.Prelude.{◌≡◌, List, ◌+◌, ◌<◌, ◌^◌, ◌++◌, ◌∷◌, [], length, map, IfOk, OnOk};
ghost use Rattle.chan_syntax.specs.declared.surface_tree.Last.TheVariants as last;
ghost use Rattle.core_numbering.specs.Numbering.{EndsAt};
ghost use Rattle.core_numbering.specs.Rooted.{Adds, Joins, JoinsIn, JoinsArms};

use chan_base::{Memory, Span};
use chan_syntax::{Ident, Proof, Supplies, Supply, Term};
use core_programs::{Arms, Node, Nodes};
use statement_copies::called;
use std::alloc::Global;

/// Fewer than 2^32 nodes have numbers.
const MAX_NODES: usize = 4294967295;

/// Adds a node, and gives its number. A table has room for fewer than 2^32 nodes, since a number names
/// each of them: there it is full, as a list is at the greatest size of an allocation.
pub(crate) fn push_node(nodes: &mut Nodes, node: Node) -> Result<u32, Memory>
    ensures number { IfOk result (λ n. n ≡ length nodes.old) }
    ensures few { IfOk result (λ n. n + 1 < 2 ^ 32) }
    ensures added { OnOk result (nodes.new ≡ nodes.old ++ node ∷ []) }
{
    if nodes.len() >= MAX_NODES {
        return Err(Memory);
    }
    let number = nodes.len() as u32;
    nodes.push(node)?;
    Ok(number)
}

pub(crate) fn add_ret(
    alloc: Global,
    nodes: &mut Nodes,
    value: &Supply,
    proof: &Proof,
    span: Span,
) -> Result<u32, Memory>
    ensures adds { IfOk result (Adds nodes.old nodes.new []) }
    ensures body { IfOk result (EndsAt nodes.new (last.Ret value.now proof.now span)) }
{
    let value = value.copy(alloc)?;
    let proof = proof.copy(alloc)?;
    let number = push_node(nodes, Node::Ret { value, proof, span })?;
    Ok(number)
}

pub(crate) fn add_tail(
    alloc: Global,
    nodes: &mut Nodes,
    func: &Ident,
    func_span: Span,
    values: &Supplies,
    proof: &Proof,
    span: Span,
) -> Result<u32, Memory>
    ensures adds { IfOk result (Adds nodes.old nodes.new []) }
    ensures body { IfOk result (EndsAt nodes.new (last.Tail func.now func_span values.now proof.now span)) }
{
    let (func, values, proof) = called(alloc, func, values, proof)?;
    let node = Node::Tail {
        func,
        func_span,
        values,
        proof,
        span,
    };
    let number = push_node(nodes, node)?;
    Ok(number)
}

/// Adds the choice of two bodies.
pub(crate) fn add_if(
    alloc: Global,
    nodes: &mut Nodes,
    left: &Term,
    right: &Term,
    bodies: (u32, u32),
    span: Span,
) -> Result<u32, Memory>
    ensures adds { IfOk result (Joins nodes.old nodes.new (bodies.0 ∷ bodies.1 ∷ [])) }
    ensures body { IfOk result (JoinsIn (λ a b. last.If left.now right.now a b span) nodes.old nodes.new bodies) }
{
    let left = left.copy(alloc)?;
    let right = right.copy(alloc)?;
    let node = Node::If {
        left,
        right,
        yes: bodies.0,
        no: bodies.1,
        span,
    };
    let number = push_node(nodes, node)?;
    Ok(number)
}

/// Adds the choice of a body by a value.
pub(crate) fn add_match(
    nodes: &mut Nodes,
    name: &Ident,
    name_span: Span,
    arms: Arms,
    span: Span,
) -> Result<u32, Memory>
    ensures adds { IfOk result (Joins nodes.old nodes.new (map (λ a. a.next) arms)) }
    ensures body { IfOk result (JoinsArms (λ blocks. last.Match name.now name_span blocks span) nodes.old nodes.new arms) }
{
    let name = name.copy()?;
    let node = Node::Match {
        name,
        name_span,
        arms,
        span,
    };
    let number = push_node(nodes, node)?;
    Ok(number)
}

pub(crate) fn add_absurd(
    alloc: Global,
    nodes: &mut Nodes,
    proof: &Proof,
    span: Span,
) -> Result<u32, Memory>
    ensures adds { IfOk result (Adds nodes.old nodes.new []) }
    ensures body { IfOk result (EndsAt nodes.new (last.Absurd proof.now span)) }
{
    let proof = proof.copy(alloc)?;
    let number = push_node(nodes, Node::Absurd { proof, span })?;
    Ok(number)
}
