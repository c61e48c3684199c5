//! A table of protocols as a graph of its Branch equations.
#![tactic(auto, using(std::proofs::lemmas::Grind::common_steps))]

ghost use Rattle.std.specs.Prelude.{◌≡◌, ◌<◌, map, Some, IfOk, OnOk};
ghost use Rattle.protocol_guard.specs.Guards.{turns_of, graph_of, turned};
ghost use Rattle.protocol_guard.specs.Places.{placed, AddsPlace, ArePlaces};

use chan_base::Memory;
use chan_syntax::{Equation, Ident, Letter, Proto};
use std::alloc::Global;
use std::collections::BTreeMap;

/// Where the two turns of a protocol lead: that after `then`, and that after `else`.
#[derive(Clone, Copy)]
pub struct Turns {
    pub left: Option<usize>,
    pub right: Option<usize>,
}

impl Turns {
    pub fn by(self, turn: Letter) -> Option<usize>
        ensures { result ≡ turned (Some self) turn }
    {
        match turn {
            Letter::Left => self.left,
            Letter::Right => self.right,
        }
    }
}

fn add_place(places: &mut BTreeMap<Ident, usize>, name: &Ident, place: usize) -> Result<(), Memory>
    ensures { OnOk result (AddsPlace places.old places.new name.now place) }
{
    match places.get(name) {
        Some(_) => Ok(()),
        None => {
            let key = name.copy()?;
            places.insert(key, place)?;
            Ok(())
        }
    }
}

fn places_of(alloc: Global, protos: &[Proto]) -> Result<BTreeMap<Ident, usize>, Memory>
    ensures { IfOk result (ArePlaces protos.now) }
{
    let mut places = BTreeMap::new(alloc);
    let mut index = 0;
    'protos: while index < protos.len() {
        add_place(&mut places, &protos[index].name, index)?;
        index += 1;
    }
    Ok(places)
}

fn turns_of(places: &BTreeMap<Ident, usize>, proto: &Proto) -> Turns
    ensures { result ≡ turns_of (placed places.now) proto.now }
{
    match &proto.equation {
        Equation::Branch(_, _, yes, no) => Turns {
            left: places.get(&yes.name).copied(),
            right: places.get(&no.name).copied(),
        },
        Equation::Send(..) => NO_TURNS,
        Equation::Recv(..) => NO_TURNS,
        Equation::Close => NO_TURNS,
        Equation::Wait => NO_TURNS,
    }
}

const NO_TURNS: Turns = Turns {
    left: None,
    right: None,
};

fn all_turns(
    alloc: Global,
    places: &BTreeMap<Ident, usize>,
    protos: &[Proto],
) -> Result<Vec<Turns>, Memory>
    ensures { IfOk result (λ graph. graph.items ≡ map (turns_of (placed places.now)) protos.now) }
{
    let mut graph = Vec::new(alloc);
    for proto in protos {
        graph.push(turns_of(places, proto))?;
    }
    Ok(graph)
}

/// The graph of the protocols.
pub(crate) fn graph_of(alloc: Global, protos: &[Proto]) -> Result<Vec<Turns>, Memory>
    ensures { IfOk result (λ graph. graph.items ≡ graph_of protos.now) }
{
    let places = places_of(alloc, protos)?;
    let graph = all_turns(alloc, &places, protos)?;
    Ok(graph)
}
