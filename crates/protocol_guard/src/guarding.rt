//! Whether a table of protocols is guarded.
ghost use Rattle.std.specs.Prelude.{◌≡◌, ◌++◌, Some, option_and_then, slice_get, IfOk, IfErr, OnOk};
ghost use Rattle.protocol_guard.specs.Guards.{graph_of, step, name_of, name_at, names_on, IsGuarded, IsFirstCycle};
ghost use Rattle.protocol_guard.specs.Faults.{IsFaultOf};

use crate::cycles::{FirstCycle, find_cycle};
use crate::graphs::{Turns, graph_of};
use crate::searches::lead;
use chan_base::Memory;
use chan_syntax::{Idents, Letter, Proto, Protos};
use sqlite_items::Items;
use std::alloc::Global;

/// The names of protocols of which each leads to the next, and the last to the first, by one
/// Branch equation.
#[derive(Drop)]
pub struct Cycle {
    pub names: Idents,
}

#[derive(Drop)]
pub enum GuardFault {
    Cycle(Cycle),
    Memory,
}

fn add_name_of(names: &mut Idents, protos: &[Proto], place: usize) -> Result<(), Memory>
    ensures { OnOk result (names.new ≡ names.old ++ name_of (slice_get protos.now place)) }
{
    match protos.get(place) {
        None => Ok(()),
        Some(proto) => {
            let name = proto.name.copy()?;
            names.push(name)?;
            Ok(())
        }
    }
}

fn add_name(names: &mut Idents, protos: &[Proto], at: Option<usize>) -> Result<(), Memory>
    ensures { OnOk result (names.new ≡ names.old ++ name_at protos.now at) }
{
    match at {
        None => Ok(()),
        Some(place) => add_name_of(names, protos, place),
    }
}

fn next(graph: &[Turns], at: Option<usize>, turn: Letter) -> Option<usize>
    ensures { result ≡ option_and_then (λ i. step graph.now i turn) at }
{
    match at {
        None => None,
        Some(place) => lead(graph, place, turn),
    }
}

#[tactic(auto, using(std::proofs::lemmas::Grind::common_steps), unfolding(crate::specs::Guards::names_on))]
fn all_names(
    alloc: Global,
    protos: &[Proto],
    graph: &[Turns],
    start: usize,
    way: &[Letter],
) -> Result<Idents, Memory>
    requires { graph.now ≡ graph_of protos.now }
    ensures { IfOk result (λ names. names ≡ names_on protos.now (Some start) way.now) }
{
    let mut names = Items::new(alloc);
    let mut at = Some(start);
    for turn in way {
        add_name(&mut names, protos, at)?;
        at = next(graph, at, *turn);
    }
    Ok(names)
}

/// The names of the protocols of a cycle.
pub fn names_of(alloc: Global, protos: &[Proto], cycle: &FirstCycle) -> Result<Idents, Memory>
    ensures { IfOk result (λ names. names ≡ names_on protos.now (Some cycle.now.start) cycle.now.way) }
{
    let graph = graph_of(alloc, protos)?;
    let names = all_names(
        alloc,
        protos,
        graph.as_slice(),
        cycle.start,
        cycle.way.as_slice(),
    )?;
    Ok(names)
}

fn fault(alloc: Global, protos: &[Proto], cycle: &FirstCycle) -> GuardFault
    requires { IsFirstCycle (graph_of protos.now) cycle.now.start cycle.now.way }
    ensures { IsFaultOf protos.now result }
{
    match names_of(alloc, protos, cycle) {
        Ok(names) => GuardFault::Cycle(Cycle { names }),
        Err(_) => GuardFault::Memory,
    }
}

/// Whether no protocol reaches itself through Branch equations alone, or the first cycle.
pub fn guarded(alloc: Global, protos: &Protos) -> Result<(), GuardFault>
    ensures ok { OnOk result (IsGuarded protos.now) }
    ensures err { IfErr result (IsFaultOf protos.now) }
{
    match find_cycle(alloc, protos.as_slice()) {
        Err(_) => Err(GuardFault::Memory),
        Ok(None) => Ok(()),
        Ok(Some(cycle)) => Err(fault(alloc, protos.as_slice(), &cycle)),
    }
}
