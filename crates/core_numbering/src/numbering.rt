//! The nodes of blocks, and the numbers by which they follow one another.
ghost use Rattle.std.specs.Prelude.{◌≡◌, ◌∷◌, [], true, map, IfOk};
ghost use Rattle.std.specs.List.{list_all};
ghost use Rattle.core_trees.specs.Core.{is_core_stmt, is_core_last, is_core_block, is_core_arm};
ghost use Rattle.core_numbering.specs.Numbering.{is_end, StmtsAt, EndsAt, IsBodyAt, AreArmsAt};
ghost use Rattle.core_numbering.specs.Rooted.{Adds, AddsAll};

use crate::adding::{add_absurd, add_if, add_match, add_ret, add_tail, push_node};
use chan_base::Memory;
use chan_syntax::{Block, Last, Stmt, SurfaceArm};
use core_programs::{Arm, Arms, Nodes};
use sqlite_items::Items;
use statement_nodes::stmt_node;
use std::alloc::Global;

/// Adds the nodes of statements before the body at this number.
fn number_stmts(alloc: Global, nodes: &mut Nodes, stmts: &[Stmt], last: u32) -> Result<u32, Memory>
    requires core { list_all is_core_stmt stmts.now ≡ true }
    ensures adds { IfOk result (Adds nodes.old nodes.new (last ∷ [])) }
    ensures body { IfOk result (λ n. StmtsAt nodes.new stmts.now n last) }
{
    let mut next = last;
    let mut left = stmts.len();
    while left > 0 {
        left -= 1;
        let node = stmt_node(alloc, &stmts[left], next)?;
        let number = push_node(nodes, node)?;
        next = number;
    }
    Ok(next)
}

/// Adds the node of a Ret, Tail or Absurd.
fn number_end(alloc: Global, nodes: &mut Nodes, last: &Last) -> Result<u32, Memory>
    requires { is_end last.now ≡ true }
    ensures adds { IfOk result (Adds nodes.old nodes.new []) }
    ensures body { IfOk result (EndsAt nodes.new last.now) }
{
    match last {
        Last::Ret { value, proof, span } => {
            let number = add_ret(alloc, nodes, value, proof, *span)?;
            Ok(number)
        }
        Last::Tail {
            func,
            func_span,
            values,
            proof,
            span,
        } => {
            let number = add_tail(alloc, nodes, func, *func_span, values, proof, *span)?;
            Ok(number)
        }
        Last::Absurd { proof, span } => {
            let number = add_absurd(alloc, nodes, proof, *span)?;
            Ok(number)
        }
        _ => unreachable!(),
    }
}

/// Adds the nodes of what ends a block.
#[cycle(numbering)]
#[tactic(auto, using(core_trees::proofs::CoreBlocks::core_rules, std::proofs::lemmas::Grind::common_steps))]
fn number_last(alloc: Global, nodes: &mut Nodes, last: &Last) -> Result<u32, Memory>
    requires core { is_core_last last.now ≡ true }
    ensures adds { IfOk result (Adds nodes.old nodes.new []) }
    ensures body { IfOk result (EndsAt nodes.new last.now) }
{
    match last {
        Last::If {
            left,
            right,
            yes,
            no,
            span,
        } => {
            let yes = number_block(alloc, nodes, yes)?;
            let no = number_block(alloc, nodes, no)?;
            let number = add_if(alloc, nodes, left, right, (yes, no), *span)?;
            Ok(number)
        }
        Last::Match {
            name,
            name_span,
            arms,
            span,
        } => {
            let arms = number_arms(alloc, nodes, arms.as_slice())?;
            let number = add_match(nodes, name, *name_span, arms, *span)?;
            Ok(number)
        }
        Last::Ret { .. } => number_end(alloc, nodes, last),
        Last::Tail { .. } => number_end(alloc, nodes, last),
        Last::Absurd { .. } => number_end(alloc, nodes, last),
        Last::Branch { .. } => unreachable!(),
        Last::Loop { .. } => unreachable!(),
        Last::Again { .. } => unreachable!(),
    }
}

/// Adds the nodes of the arms of a match.
#[cycle(numbering)]
fn number_arms(alloc: Global, nodes: &mut Nodes, arms: &[SurfaceArm]) -> Result<Arms, Memory>
    requires core { list_all is_core_arm arms.now ≡ true }
    ensures adds { IfOk result (λ numbered. AddsAll nodes.old nodes.new (map (λ a. a.next) numbered)) }
    ensures body { IfOk result (AreArmsAt nodes.new arms.now) }
{
    let mut numbered = Items::new(alloc);
    for arm in arms {
        let pat = arm.pat.copy(alloc)?;
        let next = number_block(alloc, nodes, &arm.block)?;
        numbered.push(Arm { pat, next })?;
    }
    Ok(numbered)
}

/// Adds the nodes of a block, and gives the number of its first one.
#[cycle(numbering)]
pub(crate) fn number_block(alloc: Global, nodes: &mut Nodes, block: &Block) -> Result<u32, Memory>
    requires core { is_core_block block.now ≡ true }
    ensures adds { IfOk result (Adds nodes.old nodes.new []) }
    ensures body { IfOk result (IsBodyAt nodes.new block.now) }
{
    let last = number_last(alloc, nodes, block.last.get())?;
    let first = number_stmts(alloc, nodes, block.stmts.as_slice(), last)?;
    Ok(first)
}
