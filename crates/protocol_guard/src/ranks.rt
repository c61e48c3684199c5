//! Ranks of places, by which most of them are told to lie on no cycle.
ghost use Rattle.std.specs.Prelude.{◌≡◌, ◌<◌, ◌≤◌, ◌+◌, true, false, get_or, length, suc, IfOk, IfSome, OnOk};
ghost use Rattle.protocol_guard.specs.Ranks.{Falls, NeverRises, StaysDown, effort, rank, weight};

use crate::graphs::Turns;
use crate::searches::{lead, unseen};
use chan_base::Memory;
use chan_syntax::Letter;
use std::alloc::Global;

/// What a walk has still to do: to enter a place, to take a turn from it, or to leave it.
#[derive(Clone, Copy)]
pub(crate) enum Visit {
    Enter(usize),
    Take(usize, Letter),
    Leave(usize),
}

/// A walk by depth, which ranks the places that lead to one another alike (after H. N. Gabow,
/// Path-based depth-first search for strong and biconnected components, 2000). `open` has the
/// places without a rank in the order in which they were found, `numbers` where in it each stands,
/// and `heads` the numbers of those that no later one is known to lead back before.
#[derive(Drop)]
pub(crate) struct Walk {
    visits: Vec<Visit>,
    found: Vec<bool>,
    numbers: Vec<usize>,
    open: Vec<usize>,
    heads: Vec<usize>,
    ranks: Vec<usize>,
    rank: usize,
}

fn zeroes(alloc: Global, count: usize) -> Result<Vec<usize>, Memory> {
    let mut numbers = Vec::with_capacity(alloc, count)?;
    for _place in 0..count {
        numbers.push(0)?;
    }
    Ok(numbers)
}

/// A walk that is to enter each place.
fn begin(alloc: Global, count: usize) -> Result<Walk, Memory> {
    let mut visits = Vec::with_capacity(alloc, count)?;
    for place in 0..count {
        visits.push(Visit::Enter(place))?;
    }
    Ok(Walk {
        visits,
        found: unseen(alloc, count)?,
        numbers: zeroes(alloc, count)?,
        open: Vec::new(alloc),
        heads: Vec::new(alloc),
        ranks: zeroes(alloc, count)?,
        rank: 0,
    })
}

fn number_at(numbers: &[usize], place: usize) -> usize
    ensures { result ≡ rank numbers.now place }
{
    match numbers.get(place) {
        Some(number) => *number,
        None => 0,
    }
}

fn set_number(numbers: &mut [usize], place: usize, number: usize) {
    if let Some(slot) = numbers.get_mut(place) {
        *slot = number;
    }
}

/// Whether the place is still to be found.
fn is_new(found: &[bool], place: usize) -> bool
    ensures { result ≡ true → (place < length found.now) × (get_or found.now place false ≡ false) }
{
    match found.get(place) {
        Some(found) => !*found,
        None => false,
    }
}

/// Notes a place that is found, and that its turns are to be taken and it is to be left.
fn enter(walk: &mut Walk, place: usize) -> Result<(), Memory>
    ensures { OnOk result (effort walk.new < 1 + effort walk.old) }
{
    if !is_new(walk.found.as_slice(), place) {
        return Ok(());
    }
    walk.found[place] = true;
    let number = walk.open.len();
    set_number(walk.numbers.as_mut_slice(), place, number);
    walk.open.push(place)?;
    walk.heads.push(number)?;
    walk.visits.push(Visit::Leave(place))?;
    walk.visits.push(Visit::Take(place, Letter::Right))?;
    walk.visits.push(Visit::Take(place, Letter::Left))?;
    Ok(())
}

/// A later place leads back to the one with this number.
fn lead_back(heads: &mut Vec<usize>, number: usize) {
    'heads: while let Some(head) = heads.last() {
        if *head <= number {
            return;
        }
        let _later = heads.pop();
    }
}

/// Takes a turn to a place: it is entered, or leads back where it has no rank yet.
fn take(walk: &mut Walk, place: usize) -> Result<(), Memory>
    ensures { OnOk result (effort walk.new < 2 + effort walk.old) }
{
    if is_new(walk.found.as_slice(), place) {
        walk.visits.push(Visit::Enter(place))?;
        return Ok(());
    }
    if number_at(walk.ranks.as_slice(), place) == 0 {
        let number = number_at(walk.numbers.as_slice(), place);
        lead_back(&mut walk.heads, number);
    }
    Ok(())
}

/// Ranks the open places from this number on.
fn close(open: &mut Vec<usize>, ranks: &mut [usize], number: usize, rank: usize) {
    'open: while open.len() > number {
        if let Some(place) = open.pop() {
            set_number(ranks, place, rank);
        }
    }
}

/// Ranks the places that were found since the place was, where none of them leads back before it.
fn leave(walk: &mut Walk, place: usize)
    ensures { effort walk.new ≡ effort walk.old }
{
    let number = number_at(walk.numbers.as_slice(), place);
    if walk.heads.last() != Some(&number) {
        return;
    }
    let _head = walk.heads.pop();
    walk.rank = walk.rank.saturating_add(1);
    close(&mut walk.open, walk.ranks.as_mut_slice(), number, walk.rank);
}

fn make(graph: &[Turns], walk: &mut Walk, visit: Visit) -> Result<(), Memory>
    ensures { OnOk result (effort walk.new < weight visit + effort walk.old) }
{
    match visit {
        Visit::Enter(place) => enter(walk, place),
        Visit::Take(place, turn) => match lead(graph, place, turn) {
            Some(next) => take(walk, next),
            None => Ok(()),
        },
        Visit::Leave(place) => {
            leave(walk, place);
            Ok(())
        }
    }
}

/// Ranks that are one where places lead to one another, and else lower the later a place comes on
/// a way.
fn walk_ranks(alloc: Global, graph: &[Turns]) -> Result<Vec<usize>, Memory> {
    let mut walk = begin(alloc, graph.len())?;
    'visits: while let Some(visit) = walk.visits.pop() {
        make(graph, &mut walk, visit)?;
    }
    Ok(walk.ranks)
}

fn is_at_most(ranks: &[usize], to: Option<usize>, limit: usize) -> bool
    ensures { result ≡ true → IfSome to (λ place. rank ranks.now place ≤ limit) }
{
    match to {
        Some(place) => number_at(ranks, place) <= limit,
        None => true,
    }
}

fn is_below(ranks: &[usize], to: Option<usize>, limit: usize) -> bool
    ensures { result ≡ true → IfSome to (λ place. rank ranks.now place < limit) }
{
    match to {
        Some(place) => number_at(ranks, place) < limit,
        None => true,
    }
}

/// Whether no turn from the place leads to a higher rank.
fn stays_down(graph: &[Turns], ranks: &[usize], place: usize) -> bool
    ensures { result ≡ true → StaysDown graph.now ranks.now place }
{
    let limit = number_at(ranks, place);
    is_at_most(ranks, lead(graph, place, Letter::Left), limit)
        && is_at_most(ranks, lead(graph, place, Letter::Right), limit)
}

/// Whether each turn from the place leads to a lower rank.
pub(crate) fn falls(graph: &[Turns], ranks: &[usize], place: usize) -> bool
    ensures { result ≡ true → Falls graph.now ranks.now place }
{
    let limit = number_at(ranks, place);
    is_below(ranks, lead(graph, place, Letter::Left), limit)
        && is_below(ranks, lead(graph, place, Letter::Right), limit)
}

fn never_rises(graph: &[Turns], ranks: &[usize]) -> bool
    ensures { result ≡ true → NeverRises graph.now ranks.now }
{
    let mut place = 0;
    'places: while place < graph.len() {
        if !stays_down(graph, ranks, place) {
            return false;
        }
        place += 1;
    }
    true
}

/// Ranks of the places, of which no turn leads to a higher one: this is tested, and nothing else
/// needs to be known of the walk that finds them.
pub(crate) fn ranks(alloc: Global, graph: &[Turns]) -> Result<Vec<usize>, Memory>
    ensures { IfOk result (λ ranks. NeverRises graph.now ranks.items) }
{
    let ranks = walk_ranks(alloc, graph)?;
    if never_rises(graph, ranks.as_slice()) {
        Ok(ranks)
    } else {
        Ok(Vec::new(alloc))
    }
}
