//! Statements, blocks and how they end.
#![tactic(auto, using(surface_spelling::proofs::Bytes::byte_rules, surface_spelling::proofs::SpelledBlocks::block_is, surface_spelling::proofs::SpelledBlocks::statements, surface_spelling::proofs::SpelledBlocks::lasts, std::proofs::lemmas::Grind::common_steps), unfolding(surface_spelling::specs::Blocks::stmts))]

ghost use Rattle.std.specs.Prelude.{◌≡◌, ◌++◌, OnOk};
ghost use Rattle.surface_spelling.specs.Layout.{bytes, closing};
ghost use Rattle.surface_spelling.specs.Blocks as spec;
ghost use Rattle.chan_printer.specs.Groups.{group_of_last, session};

use crate::heads::{
    put_arm_head, put_branch_head, put_condition, put_let_fork, put_loop_head, put_match_head,
    put_task_head,
};
use crate::plain::{put_computation, put_end, put_exchange, put_message, put_signal, put_started};
use chan_base::Memory;
use chan_syntax::{Block, Last, Stmt, SurfaceArm};
use operand_printer::{deeper, put, put_line, put_proof, put_values};
use std::alloc::Global;

/// What stands between the blocks of an `if` or a `branch`.
const ELSE: &[u8] = b" else ";

/// The end of a block.
fn put_closing(text: &mut Vec<u8>, depth: usize) -> Result<(), Memory>
    ensures { OnOk result (text.new.items ≡ text.old.items ++ bytes (closing depth)) }
{
    put_line(text, depth)?;
    put(text, b"}")
}

#[cycle(blocks)]
pub fn put_block(
    alloc: Global,
    text: &mut Vec<u8>,
    block: &Block,
    depth: usize,
) -> Result<(), Memory>
    ensures { OnOk result (text.new.items ≡ text.old.items ++ bytes (spec.block depth block.now)) }
{
    let inner = deeper(depth)?;
    put(text, b"{")?;
    put_stmts(alloc, text, block.stmts.as_slice(), inner)?;
    put_line(text, inner)?;
    put_last(alloc, text, block.last.get(), inner)?;
    put_closing(text, depth)
}

/// Each statement on a line of its own.
#[cycle(blocks)]
fn put_stmts(alloc: Global, text: &mut Vec<u8>, stmts: &[Stmt], depth: usize) -> Result<(), Memory>
    ensures { OnOk result (text.new.items ≡ text.old.items ++ bytes (spec.stmts depth stmts.now)) }
{
    for stmt in stmts {
        put_line(text, depth)?;
        put_stmt(alloc, text, stmt, depth)?;
        put(text, b";")?;
    }
    Ok(())
}

#[cycle(blocks)]
fn put_stmt(alloc: Global, text: &mut Vec<u8>, stmt: &Stmt, depth: usize) -> Result<(), Memory>
    ensures { OnOk result (text.new.items ≡ text.old.items ++ bytes (spec.stmt depth stmt.now)) }
{
    match stmt {
        Stmt::ForkDo {
            name,
            proto,
            func,
            bound,
            param,
            starts,
            proof,
            block,
            ..
        } => {
            put_let_fork(alloc, text, name, proto)?;
            put(text, b"do ")?;
            put_task_head(alloc, text, func, bound, param, starts.as_slice(), proof)?;
            put_block(alloc, text, block, depth)
        }
        Stmt::Let { .. } | Stmt::Mul { .. } | Stmt::Div { .. } | Stmt::Rem { .. } => {
            put_computation(alloc, text, stmt)
        }
        Stmt::Call { .. } | Stmt::Fork { .. } | Stmt::Print { .. } => {
            put_started(alloc, text, stmt)
        }
        Stmt::Send1 { .. } | Stmt::Recv1 { .. } | Stmt::Split { .. } => {
            put_exchange(alloc, text, stmt)
        }
        Stmt::Send { .. } | Stmt::Recv { .. } => put_message(alloc, text, stmt),
        Stmt::Close { .. } | Stmt::Wait { .. } | Stmt::Choose { .. } => {
            put_signal(alloc, text, stmt)
        }
    }
}

/// The arms of a match, each on lines of its own.
#[cycle(blocks)]
#[tactic(auto, using(surface_spelling::proofs::Bytes::byte_rules, std::proofs::lemmas::Grind::common_steps), unfolding(surface_spelling::specs::Blocks::arms))]
fn put_arms(
    alloc: Global,
    text: &mut Vec<u8>,
    arms: &[SurfaceArm],
    depth: usize,
) -> Result<(), Memory>
    ensures { OnOk result (text.new.items ≡ text.old.items ++ bytes (spec.arms depth 0 arms.now)) }
{
    for (number, arm) in arms.iter().enumerate() {
        put_arm_head(alloc, text, number as u64, &arm.pat, depth)?;
        put_block(alloc, text, &arm.block, depth)?;
    }
    Ok(())
}

/// Blocks with `else` between them.
#[cycle(blocks)]
#[tactic(auto, using(surface_spelling::proofs::Bytes::byte_rules, std::proofs::lemmas::Grind::common_steps), unfolding(surface_spelling::specs::Blocks::behind_else, surface_spelling::specs::Blocks::blocks))]
fn put_blocks(
    alloc: Global,
    text: &mut Vec<u8>,
    blocks: &[Block],
    depth: usize,
) -> Result<(), Memory>
    ensures { OnOk result (text.new.items ≡ text.old.items ++ bytes (spec.blocks depth blocks.now)) }
{
    let mut behind = false;
    for block in blocks {
        put(text, if behind { ELSE } else { b"" })?;
        put_block(alloc, text, block, depth)?;
        behind = true;
    }
    Ok(())
}

#[cycle(blocks)]
fn put_last(alloc: Global, text: &mut Vec<u8>, last: &Last, depth: usize) -> Result<(), Memory>
    ensures { OnOk result (text.new.items ≡ text.old.items ++ bytes (spec.last depth last.now)) }
{
    match last {
        Last::If {
            left,
            right,
            yes,
            no,
            ..
        } => {
            put_condition(alloc, text, left, right)?;
            put_block(alloc, text, yes, depth)?;
            put(text, ELSE)?;
            put_block(alloc, text, no, depth)
        }
        Last::Match { name, arms, .. } => {
            let inner = deeper(depth)?;
            put_match_head(text, name)?;
            put_arms(alloc, text, arms.as_slice(), inner)?;
            put_closing(text, depth)
        }
        Last::Branch { .. } | Last::Loop { .. } | Last::Again { .. } => {
            put_session_last(alloc, text, last, depth)
        }
        Last::Ret { .. } | Last::Tail { .. } | Last::Absurd { .. } => put_end(alloc, text, last),
    }
}

/// A Branch, Loop or Again.
#[cycle(blocks)]
fn put_session_last(
    alloc: Global,
    text: &mut Vec<u8>,
    last: &Last,
    depth: usize,
) -> Result<(), Memory>
    requires form { group_of_last last.now ≡ session }
    ensures { OnOk result (text.new.items ≡ text.old.items ++ bytes (spec.last depth last.now)) }
{
    match last {
        Last::Branch {
            channel,
            path,
            proof,
            bit,
            rest,
            blocks,
            ..
        } => {
            put_branch_head(alloc, text, channel, path.as_slice(), proof, bit, rest)?;
            put_blocks(alloc, text, blocks.as_slice(), depth)
        }
        Last::Loop {
            name,
            bound,
            starts,
            result: res,
            proof,
            block,
            ..
        } => {
            put(text, b"loop ")?;
            put_loop_head(alloc, text, name, bound, starts.as_slice(), res, proof)?;
            put_block(alloc, text, block, depth)
        }
        Last::Again { values, proof, .. } => {
            put(text, b"again")?;
            put_values(alloc, text, values.as_slice())?;
            put_proof(alloc, text, proof)
        }
        _ => unreachable!(),
    }
}
