//! The contexts of the bodies that follow a form.
ghost use Rattle.std.specs.Prelude.{◌≡◌, ℕ, Ok, OnOk, IfErr};
ghost use Rattle.core_language.specs.Programs.{Body};
ghost use Rattle.core_programs.specs.Bodies.{opened};
ghost use Rattle.outline_obligations.specs.Reasons.{IsReason};
ghost use Rattle.outline_contexts.specs.Trails.{IsAfter, context_in};
ghost use Rattle.outline_walk.specs.Forms.{picked};

use core_programs::Node;
use outline_contexts::Context;
use outline_obligations::ContextFault;
use std::alloc::Global;
use value_rules::{enter_arm, enter_branch};

/// Makes of the context that the rule of a form left the one of the body with this number.
pub(crate) fn enter_body(
    alloc: Global,
    ctx: &mut Context,
    node: &Node,
    number: usize,
) -> Result<(), ContextFault>
    ensures ok { OnOk result ((at : ℕ → Body) → picked (context_in ctx.old) (opened node.now at) number ≡ Ok (context_in ctx.new)) }
    ensures err { IfErr result (λ fault. (at : ℕ → Body) → IsReason (picked (context_in ctx.old) (opened node.now at) number) fault) }
    ensures after { IsAfter ctx.old ctx.new }
{
    match node {
        Node::Let { .. } => Ok(()),
        Node::Mul { .. } => Ok(()),
        Node::Div { .. } => Ok(()),
        Node::Rem { .. } => Ok(()),
        Node::Call { .. } => Ok(()),
        Node::Tail { .. } => Ok(()),
        Node::Fork { .. } => Ok(()),
        Node::Send1 { .. } => Ok(()),
        Node::Recv1 { .. } => Ok(()),
        Node::Print { .. } => Ok(()),
        Node::If { left, right, .. } => enter_branch(alloc, ctx, left, right, number),
        Node::Split { .. } => Ok(()),
        Node::Match { name, arms, .. } => enter_arm(alloc, ctx, name, arms.as_slice(), number),
        Node::Absurd { .. } => Ok(()),
        Node::Ret { .. } => Ok(()),
    }
}
