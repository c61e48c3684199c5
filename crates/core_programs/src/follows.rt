//! The nodes that follow a node, by turns.
#![tactic(auto, using(std::proofs::lemmas::Grind::common_steps, crate::proofs::Turns::turn_rules))]

ghost use Rattle.std.specs.Prelude.{◌≡◌, [], ◌∷◌, length, map, slice_get};
ghost use Rattle.core_programs.specs.Formed.{nexts};

use crate::nodes::{Arm, Node};

/// The one number, at the first turn.
fn only(next: u32, turn: usize) -> Option<u32>
    ensures { result ≡ slice_get (next ∷ []) turn }
{
    if turn == 0 { Some(next) } else { None }
}

/// The one of two numbers.
fn either(first: u32, second: u32, turn: usize) -> Option<u32>
    ensures { result ≡ slice_get (first ∷ second ∷ []) turn }
{
    if turn == 0 {
        Some(first)
    } else {
        only(second, turn - 1)
    }
}

fn arm_next(arms: &[Arm], turn: usize) -> Option<u32>
    ensures { result ≡ slice_get (map (λ arm. arm.next) arms.now) turn }
{
    match arms.get(turn) {
        Some(arm) => Some(arm.next),
        None => None,
    }
}

/// The number of the body at a turn, of those that follow a node.
pub(crate) fn next_number(node: &Node, turn: usize) -> Option<u32>
    ensures { result ≡ slice_get (nexts node.now) turn }
{
    match node {
        Node::Let { next, .. } => only(*next, turn),
        Node::Mul { next, .. } => only(*next, turn),
        Node::Div { next, .. } => only(*next, turn),
        Node::Rem { next, .. } => only(*next, turn),
        Node::Call { next, .. } => only(*next, turn),
        Node::Tail { .. } => None,
        Node::Fork { next, .. } => only(*next, turn),
        Node::Send1 { next, .. } => only(*next, turn),
        Node::Recv1 { next, .. } => only(*next, turn),
        Node::Print { next, .. } => only(*next, turn),
        Node::If { yes, no, .. } => either(*yes, *no, turn),
        Node::Split { next, .. } => only(*next, turn),
        Node::Match { arms, .. } => arm_next(arms.as_slice(), turn),
        Node::Absurd { .. } => None,
        Node::Ret { .. } => None,
    }
}

/// How many bodies follow a node.
pub(crate) fn next_count(node: &Node) -> usize
    ensures { result ≡ length (nexts node.now) }
{
    match node {
        Node::Let { .. } => 1,
        Node::Mul { .. } => 1,
        Node::Div { .. } => 1,
        Node::Rem { .. } => 1,
        Node::Call { .. } => 1,
        Node::Tail { .. } => 0,
        Node::Fork { .. } => 1,
        Node::Send1 { .. } => 1,
        Node::Recv1 { .. } => 1,
        Node::Print { .. } => 1,
        Node::If { .. } => 2,
        Node::Split { .. } => 1,
        Node::Match { arms, .. } => arms.len(),
        Node::Absurd { .. } => 0,
        Node::Ret { .. } => 0,
    }
}
