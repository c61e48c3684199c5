//! A search by breadth for a shortest way back to a place.
#![tactic(auto, using(std::proofs::lemmas::Grind::common_steps))]

ghost use Rattle.std.specs.Prelude.{◌≡◌, ◌<◌, ◌≤◌, ◌+◌, ◌*◌, ◌∷◌, ◌++◌, [], suc, false, true, replicate, reverse, length, set, get_or, OnOk, IfOk};
ghost use Rattle.protocol_guard.specs.Guards.{step};
ghost use Rattle.protocol_guard.specs.Searches.{bit, way_to, ComeBefore, IsClosed, IsSearch, Takes, IsAnswer};

use crate::graphs::Turns;
use chan_base::Memory;
use chan_syntax::{Letter, Path};
use sqlite_items::Items;
use std::alloc::Global;

/// A turn, from the place with this number among those that were found.
#[derive(Clone, Copy)]
pub struct Step {
    pub from: usize,
    pub turn: Letter,
}

/// The places that were found in order, the turns by which all but the first were, and which
/// places were.
#[derive(Drop)]
pub(crate) struct Search {
    pub places: Vec<usize>,
    pub steps: Vec<Step>,
    pub seen: Vec<bool>,
}

#[tactic(auto, using(crate::proofs::Repeats::replicate_more))]
pub(crate) fn unseen(alloc: Global, count: usize) -> Result<Vec<bool>, Memory>
    ensures { IfOk result (λ seen. seen.items ≡ replicate count false) }
{
    let mut seen = Vec::with_capacity(alloc, count)?;
    for _place in 0..count {
        seen.push(false)?;
    }
    Ok(seen)
}

fn begin(alloc: Global, graph: &[Turns], start: usize) -> Result<Search, Memory>
    requires { start < length graph.now }
    ensures { IfOk result (λ search. IsSearch graph.now start search 0) }
{
    let mut seen = unseen(alloc, graph.len())?;
    seen[start] = true;
    let mut places = Vec::new(alloc);
    places.push(start)?;
    let steps = Vec::new(alloc);
    Ok(Search {
        places,
        steps,
        seen,
    })
}

/// Where a turn leads from a place.
#[tactic(auto, unfolding(crate::specs::Guards::step))]
pub(crate) fn lead(graph: &[Turns], place: usize, turn: Letter) -> Option<usize>
    ensures { result ≡ step graph.now place turn }
{
    match graph.get(place) {
        None => None,
        Some(turns) => turns.by(turn),
    }
}

fn place_at(search: &Search, at: usize) -> usize
    requires { at < length search.now.places.items }
    ensures { result ≡ get_or search.now.places.items at 0 }
{
    search.places[at]
}

fn was_seen(search: &Search, place: usize) -> bool
    requires { place < length search.now.seen.items }
    ensures { result ≡ get_or search.now.seen.items place false }
{
    search.seen[place]
}

fn find(search: &mut Search, place: usize, step: Step) -> Result<(), Memory>
    requires { place < length search.old.seen.items }
    ensures places { OnOk result (search.new.places.items ≡ search.old.places.items ++ place ∷ []) }
    ensures steps { OnOk result (search.new.steps.items ≡ search.old.steps.items ++ step ∷ []) }
    ensures seen { OnOk result (search.new.seen.items ≡ set search.old.seen.items place true) }
{
    search.seen[place] = true;
    search.places.push(place)?;
    search.steps.push(step)?;
    Ok(())
}

/// Takes a turn from the place with the number `at`. It tells whether the turn leads back.
fn take(
    graph: &[Turns],
    start: usize,
    search: &mut Search,
    at: usize,
    turn: Letter,
) -> Result<bool, Memory>
    requires closed { IsClosed graph.now }
    requires search { IsSearch graph.now start search.old (2 * at + bit turn) }
    requires within { at < length search.old.places.items }
    ensures { IfOk result (Takes graph.now start search.old search.new at turn) }
{
    let place = place_at(search, at);
    match lead(graph, place, turn) {
        None => Ok(false),
        Some(next) if next == start => Ok(true),
        Some(next) if was_seen(search, next) => Ok(false),
        Some(next) => {
            find(search, next, Step { from: at, turn })?;
            Ok(false)
        }
    }
}

fn place_after(at: usize, turn: Letter, count: usize) -> usize
    requires { at < count }
    ensures { result ≡ at + bit turn }
{
    match turn {
        Letter::Left => at,
        Letter::Right => at + 1,
    }
}

fn turn_after(turn: Letter) -> Letter
    ensures { bit result + bit turn ≡ 1 }
{
    match turn {
        Letter::Left => Letter::Right,
        Letter::Right => Letter::Left,
    }
}

/// The turns to a place that was found, from the last to the first.
fn turns_back(alloc: Global, steps: &[Step], place: usize) -> Result<Vec<Letter>, Memory>
    requires before { ComeBefore steps.now }
    requires within { place ≤ length steps.now }
    ensures { IfOk result (λ turns. reverse turns.items ≡ way_to steps.now place) }
{
    let mut turns = Vec::new(alloc);
    let mut at = place;
    'back: while at > 0 {
        let step = steps[at - 1];
        turns.push(step.turn)?;
        at = step.from;
    }
    Ok(turns)
}

/// The way to a place that was found, and one turn more.
fn way(alloc: Global, steps: &[Step], place: usize, turn: Letter) -> Result<Path, Memory>
    requires before { ComeBefore steps.now }
    requires within { place ≤ length steps.now }
    ensures { IfOk result (λ way. way ≡ way_to steps.now place ++ turn ∷ []) }
{
    let mut turns = turns_back(alloc, steps, place)?;
    turns.reverse();
    turns.push(turn)?;
    let way = Items::from_slice(alloc, turns.as_slice())?;
    Ok(way)
}

/// A shortest way from a place back to it.
pub(crate) fn shortest_return(
    alloc: Global,
    graph: &[Turns],
    start: usize,
) -> Result<Option<Path>, Memory>
    requires closed { IsClosed graph.now }
    requires within { start < length graph.now }
    ensures { IfOk result (IsAnswer graph.now start) }
{
    let mut search = begin(alloc, graph, start)?;
    let mut at = 0;
    let mut turn = Letter::Left;
    'search: while at < search.places.len() {
        let count = search.places.len();
        if take(graph, start, &mut search, at, turn)? {
            let way = way(alloc, search.steps.as_slice(), at, turn)?;
            return Ok(Some(way));
        }
        at = place_after(at, turn, count);
        turn = turn_after(turn);
    }
    Ok(None)
}
