//! Where the bodies of nodes begin in the list.
ghost use Rattle.std.specs.Prelude.{◌≡◌, ◌<◌, ◌+◌, ◌^◌, length, Some, slice_get, IfSome, IfOk};
ghost use Rattle.core_programs.specs.Formed.{nexts};
ghost use Rattle.core_programs.specs.Uses.{AreStarts, StandBefore};

use crate::follows::{next_count, next_number};
use crate::nodes::Node;
use chan_base::Memory;
use std::alloc::Global;

/// Where the body at a node begins, if it ends right before a number.
fn start_before(starts: &[u32], node: u32, end: u32) -> Option<u32>
    ensures { IfSome result (λ s. (node + 1 ≡ end) × (slice_get starts.now node ≡ Some s)) }
{
    if node < end && end - node == 1 {
        starts.get(node as usize).copied()
    } else {
        None
    }
}

/// Where the body at the node with this number begins, if the node stands right behind the bodies
/// that it names.
fn start_of(starts: &[u32], node: &Node, number: u32) -> Option<u32>
    ensures { IfSome result (StandBefore starts.now (nexts node.now) number) }
{
    let mut turn = next_count(node);
    let mut start = number;
    'turns: while turn > 0 {
        turn -= 1;
        let Some(next) = next_number(node, turn) else {
            return None;
        };
        let Some(before) = start_before(starts, next, start) else {
            return None;
        };
        start = before;
    }
    Some(start)
}

/// Where the body at each node begins, if each node stands right behind the bodies that it names.
pub(crate) fn find_starts(alloc: Global, nodes: &[Node]) -> Result<Option<Vec<u32>>, Memory>
    requires { length nodes.now < 2 ^ 32 }
    ensures { IfOk result (AreStarts nodes.now) }
{
    let mut starts = Vec::new(alloc);
    let mut number: u32 = 0;
    'nodes: for node in nodes {
        match start_of(starts.as_slice(), node, number) {
            Some(start) => starts.push(start)?,
            None => return Ok(None),
        }
        number += 1;
    }
    Ok(Some(starts))
}
