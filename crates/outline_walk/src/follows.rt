//! The nodes that follow a node, by their turns.
#![tactic(auto, using(std::proofs::lemmas::Grind::common_steps))]

ghost use Rattle.std.specs.Prelude.{◌≡◌, ◌<◌, [], ◌∷◌, map, slice_get, IfSome};
ghost use Rattle.core_programs.specs.Formed.{nexts};

use core_programs::{Arm, Node};

/// The one number, at the first turn.
fn only(next: u32, turn: usize) -> Option<u32>
    ensures number { result ≡ slice_get (next ∷ []) turn }
    ensures room { IfSome result (λ _. turn < usize.MAX) }
{
    if turn == 0 { Some(next) } else { None }
}

/// The one of two numbers.
fn either(first: u32, second: u32, turn: usize) -> Option<u32>
    ensures number { result ≡ slice_get (first ∷ second ∷ []) turn }
    ensures room { IfSome result (λ _. turn < usize.MAX) }
{
    if turn == 0 {
        Some(first)
    } else {
        only(second, turn - 1)
    }
}

fn arm_next(arms: &[Arm], turn: usize) -> Option<u32>
    ensures number { result ≡ slice_get (map (λ arm. arm.next) arms.now) turn }
    ensures room { IfSome result (λ _. turn < usize.MAX) }
{
    match arms.get(turn) {
        Some(arm) => Some(arm.next),
        None => None,
    }
}

/// The number of the body at a turn, of those that follow a node.
pub(crate) fn next_number(node: &Node, turn: usize) -> Option<u32>
    ensures number { result ≡ slice_get (nexts node.now) turn }
    ensures room { IfSome result (λ _. turn < usize.MAX) }
{
    match node {
        Node::Let { next, .. } => only(*next, turn),
        Node::Mul { next, .. } => only(*next, turn),
        Node::Div { next, .. } => only(*next, turn),
        Node::Rem { next, .. } => only(*next, turn),
        Node::Call { next, .. } => only(*next, turn),
        Node::Tail { .. } => None,
        Node::Fork { next, .. } => only(*next, turn),
        Node::Send1 { next, .. } => only(*next, turn),
        Node::Recv1 { next, .. } => only(*next, turn),
        Node::Print { next, .. } => only(*next, turn),
        Node::If { yes, no, .. } => either(*yes, *no, turn),
        Node::Split { next, .. } => only(*next, turn),
        Node::Match { arms, .. } => arm_next(arms.as_slice(), turn),
        Node::Absurd { .. } => None,
        Node::Ret { .. } => None,
    }
}
