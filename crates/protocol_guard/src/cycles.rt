//! The first cycle of a table of protocols.
ghost use Rattle.std.specs.Prelude.{◌≡◌, ◌<◌, length, IfOk};
ghost use Rattle.protocol_guard.specs.Guards.{graph_of};
ghost use Rattle.protocol_guard.specs.Ranks.{NeverRises};
ghost use Rattle.protocol_guard.specs.Searches.{IsAnswer, IsClosed};
ghost use Rattle.protocol_guard.specs.Cycles.{IsFirstAnswer};

use crate::graphs::{Turns, graph_of};
use crate::ranks::{falls, ranks};
use crate::searches::shortest_return;
use chan_base::Memory;
use chan_syntax::{Path, Proto};
use std::alloc::Global;

/// A cycle: the place of the protocol where it starts, and the turns that lead back.
#[derive(Drop)]
pub struct FirstCycle {
    pub start: usize,
    pub way: Path,
}

/// A shortest way from a place back to it. None is sought where its turns lead to lower ranks alone.
fn way_back(
    alloc: Global,
    graph: &[Turns],
    ranks: &[usize],
    start: usize,
) -> Result<Option<Path>, Memory>
    requires closed { IsClosed graph.now }
    requires ranks { NeverRises graph.now ranks.now }
    requires within { start < length graph.now }
    ensures { IfOk result (IsAnswer graph.now start) }
{
    if falls(graph, ranks, start) {
        Ok(None)
    } else {
        shortest_return(alloc, graph, start)
    }
}

fn first_cycle(alloc: Global, graph: &[Turns]) -> Result<Option<FirstCycle>, Memory>
    requires { IsClosed graph.now }
    ensures { IfOk result (IsFirstAnswer graph.now) }
{
    let ranks = ranks(alloc, graph)?;
    let mut start = 0;
    'starts: while start < graph.len() {
        match way_back(alloc, graph, ranks.as_slice(), start)? {
            Some(way) => return Ok(Some(FirstCycle { start, way })),
            None => start += 1,
        }
    }
    Ok(None)
}

/// The cycle of the first protocol that reaches itself through Branch equations alone: a shortest
/// one, which goes by `then` where it first differs from another.
pub fn find_cycle(alloc: Global, protos: &[Proto]) -> Result<Option<FirstCycle>, Memory>
    ensures { IfOk result (IsFirstAnswer (graph_of protos.now)) }
{
    let graph = graph_of(alloc, protos)?;
    let cycle = first_cycle(alloc, graph.as_slice())?;
    Ok(cycle)
}
