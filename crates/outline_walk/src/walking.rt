//! The walk over the nodes of a body.
ghost use Rattle.std.specs.Prelude.{◌≡◌, ◌<◌, ◌++◌, ◌∷◌, [], Option, Some, None, length, slice_get, IfOk, OnOk};
ghost use Rattle.core_programs.specs.Bodies.{program_of, rest};
ghost use Rattle.outline_language.specs.Outlined.{Fault, least, faults_of_body};
ghost use Rattle.outline_walk.specs.Forms.{form_at};
ghost use Rattle.outline_walk.specs.Refusals.{found, IsPlaced};
ghost use Rattle.outline_walk.specs.Walking.{IsTried, Waiting, Walking, left_size};

use crate::follows::next_number;
use crate::outlining::Outlining;
use crate::refusals::{Refusal, note};
use chan_base::Memory;
use core_programs::{Node, Program};
use outline_obligations::ContextFault;
use std::alloc::Global;

/// A node whose bodies from a turn on are still to be walked.
#[derive(Clone, Copy)]
pub(crate) struct Later {
    pub number: u32,
    pub turn: usize,
}

/// Meets the rule of a node, or takes its fault.
fn is_met<C: Outlining>(
    alloc: Global,
    outline: &mut C,
    node: &Node,
    number: u32,
    first: &mut Option<Refusal>,
) -> Result<bool, Memory>
    requires { slice_get (C.setting outline.old).parts.nodes number ≡ Some node.now }
    ensures tried { IfOk result (λ met. IsTried met (C.setting outline.old) (C.context outline.old) (C.context outline.new) (form_at (C.setting outline.old) node.now) (found first.old) (found first.new)) }
    ensures placed { IsPlaced (C.setting outline.old).parts.nodes first.old → IsPlaced (C.setting outline.old).parts.nodes first.new }
    ensures saved { C.saved outline.new ≡ C.saved outline.old }
    ensures setting { C.setting outline.new ≡ C.setting outline.old }
{
    match outline.meet(alloc, node) {
        Ok(()) => Ok(true),
        Err(ContextFault::Why(why)) => {
            note(alloc, first, node, number, why, outline.names())?;
            Ok(false)
        }
        Err(ContextFault::Memory) => Err(Memory),
    }
}

/// Walks over a node, and puts off the bodies that follow it.
fn enter<C: Outlining>(
    alloc: Global,
    program: &Program,
    outline: &mut C,
    number: u32,
    first: &mut Option<Refusal>,
    later: &mut Vec<Later>,
) -> Result<(), Memory>
    requires setting { (C.setting outline.old).parts ≡ program.now }
    requires within { number < length program.now.nodes }
    ensures walks { (whole : Option Fault) → Walking (C.setting outline.old) whole (found first.old) (C.context outline.old) (C.saved outline.old) (Some number) later.old.items → OnOk result (Walking (C.setting outline.old) whole (found first.new) (C.context outline.new) (C.saved outline.new) None later.new.items) }
    ensures smaller { OnOk result (left_size (C.setting outline.old) None later.new.items < left_size (C.setting outline.old) (Some number) later.old.items) }
    ensures placed { IsPlaced program.now.nodes first.old → IsPlaced program.now.nodes first.new }
    ensures setting { C.setting outline.new ≡ C.setting outline.old }
{
    let node = program.node(number);
    if is_met(alloc, outline, node, number, first)? {
        outline.save()?;
        later.push(Later { number, turn: 0 })?;
    }
    Ok(())
}

/// Goes back to the node that was put off last, and tells the next body that follows it.
fn go_on<C: Outlining>(
    alloc: Global,
    program: &Program,
    outline: &mut C,
    next: Later,
    later: &mut Vec<Later>,
) -> Result<Option<u32>, Memory>
    requires setting { (C.setting outline.old).parts ≡ program.now }
    requires waiting { Waiting (C.setting outline.old) (C.saved outline.old) (later.old.items ++ next ∷ []) }
    ensures walks { (whole best : Option Fault) → Walking (C.setting outline.old) whole best (C.context outline.old) (C.saved outline.old) None (later.old.items ++ next ∷ []) → IfOk result (λ at. Walking (C.setting outline.old) whole best (C.context outline.new) (C.saved outline.new) at later.new.items) }
    ensures smaller { IfOk result (λ at. left_size (C.setting outline.old) at later.new.items < left_size (C.setting outline.old) None (later.old.items ++ next ∷ [])) }
    ensures setting { C.setting outline.new ≡ C.setting outline.old }
{
    outline.go_back();
    let node = program.node(next.number);
    match next_number(node, next.turn) {
        None => Ok(None),
        Some(number) => {
            outline.save()?;
            later.push(Later {
                number: next.number,
                turn: next.turn + 1,
            })?;
            outline.pick(alloc, node, next.turn)?;
            Ok(Some(number))
        }
    }
}

/// Keeps the first fault of those that were found before and of the body at a node, in the context
/// of the outline. A fault stops what comes after it on its way alone.
pub fn walk<C: Outlining>(
    alloc: Global,
    program: &Program,
    outline: &mut C,
    start: u32,
    first: &mut Option<Refusal>,
) -> Result<(), Memory>
    requires setting { (C.setting outline.old).parts ≡ program.now }
    requires saved { C.saved outline.old ≡ [] }
    requires within { start < length program.now.nodes }
    ensures first { OnOk result (found first.new ≡ least (found first.old) (faults_of_body (program_of program.now) (C.setting outline.old).own (C.context outline.old) (rest program.now.nodes start))) }
    ensures placed { IsPlaced program.now.nodes first.old → IsPlaced program.now.nodes first.new }
{
    let mut later: Vec<Later> = Vec::new(alloc);
    let mut at = Some(start);
    'walk: loop {
        match at {
            Some(number) => {
                enter(alloc, program, outline, number, first, &mut later)?;
                at = None;
            }
            None => match later.pop() {
                None => return Ok(()),
                Some(next) => {
                    at = go_on(alloc, program, outline, next, &mut later)?;
                }
            },
        }
    }
}
