//! One worker.
ghost use Rattle.std.specs.Prelude.{◌≡◌, List, [], ◌∷◌, ◌++◌, false, true};

use crate::bench::{Bench, Moved};
use crate::gates::Gate;
use crossbeam_deque::{Steal, Stealer, Worker};
use std::alloc::Global;

/// A worker with its hand, its deque, the others' stealers and the loads that it keeps.
#[derive(Drop)]
pub struct Member<B: Bench> {
    pub worker: u32,
    pub hand: B::Hand,
    pub local: Worker<u64>,
    pub others: Vec<Stealer<u64>>,
    pub kept: Vec<B::Load>,
    /// Whether it took a task in this wave.
    pub taken: bool,
    /// The task whose fork found no cell.
    pub left: Option<u64>,
    /// What it has in hand where it was stopped.
    pub stopped: Option<B::Load>,
    /// It found no memory, or a channel that another had used.
    pub halted: bool,
}

/// How many turns a worker has in one wave at most.
pub const TURNS: u32 = 65536;

impl<B: Bench> Member<B> {
    /// A worker that keeps nothing yet and knows no other.
    pub fn new(alloc: Global, worker: u32, hand: B::Hand, local: Worker<u64>) -> Member<B>
        ensures { (result.hand ≡ hand) × (result.kept.items ≡ []) × (result.halted ≡ false) }
    {
        Member {
            worker,
            hand,
            local,
            others: Vec::new(alloc),
            kept: Vec::new(alloc),
            taken: false,
            left: None,
            stopped: None,
            halted: false,
        }
    }

    // A number of its own, or one that it steals.
    fn find(&mut self) -> Option<u64>
        ensures same { (self.new.hand ≡ self.old.hand) × (self.new.kept ≡ self.old.kept) × (self.new.halted ≡ self.old.halted) }
    {
        if let Some(number) = self.local.pop() {
            return Some(number);
        }
        for other in self.others.iter() {
            if let Steal::Success(number) = other.steal() {
                return Some(number);
            }
        }
        None
    }

    /// Offers a number. The driver finds the task of one that is refused for want of memory.
    pub fn offer(&mut self, number: u64)
        ensures same { (self.new.hand ≡ self.old.hand) × (self.new.kept ≡ self.old.kept) × (self.new.halted ≡ self.old.halted) }
    {
        let _ = self.local.push(number);
    }

    /// Starts a wave, and gives the number of the task whose fork found no cell.
    pub fn start(&mut self) -> Option<u64>
        ensures same { (self.new.hand ≡ self.old.hand) × (self.new.kept ≡ self.old.kept) × (self.new.halted ≡ self.old.halted) }
    {
        self.taken = false;
        self.left.take()
    }

    // Runs a task until it goes home. False ends the part of the wave.
    fn carry(&mut self, bench: &B, load: B::Load) -> bool
        requires { (self.old.halted ≡ false) × B.holds bench.now self.old.hand self.old.kept.items load }
        ensures idle { self.new.halted ≡ false → B.idle bench.now self.new.hand self.new.kept.items }
        ensures goes { result ≡ true → self.new.halted ≡ false }
    {
        let mut load = load;
        loop {
            match bench.step(&mut self.hand, load) {
                Moved::Goes(next) => load = next,
                Moved::Offers(next, number) => {
                    self.offer(number);
                    load = next;
                }
                Moved::Home => return true,
                Moved::Keeps(ended) => return self.keep(ended),
                Moved::NoCell(number) => {
                    self.left = Some(number);
                    return false;
                }
                Moved::Stopped(load) => {
                    self.halted = true;
                    self.stopped = Some(load);
                    return false;
                }
            }
        }
    }

    // Keeps an ended load.
    fn keep(&mut self, load: B::Load) -> bool
        ensures same { (self.new.hand ≡ self.old.hand) × (self.old.halted ≡ false → self.new.halted ≡ false → self.new.kept.items ≡ self.old.kept.items ++ load ∷ []) }
        ensures goes { self.old.halted ≡ false → result ≡ true → self.new.halted ≡ false }
    {
        match self.kept.push(load) {
            Ok(()) => true,
            Err(_) => {
                self.halted = true;
                false
            }
        }
    }

    // One turn. False ends the part of the wave.
    fn turn<G: Gate<B>>(&mut self, bench: &B, gate: &G) -> bool
        requires { (self.old.halted ≡ false) × B.idle bench.now self.old.hand self.old.kept.items }
        ensures idle { self.new.halted ≡ false → B.idle bench.now self.new.hand self.new.kept.items }
        ensures goes { result ≡ true → self.new.halted ≡ false }
    {
        gate.turn(self.worker);
        let Some(number) = self.find() else {
            return false;
        };
        let Some(load) = bench.take(&mut self.hand, number) else {
            return true;
        };
        self.taken = true;
        gate.taken(self.worker, bench, &self.hand, &load);
        self.carry(bench, load)
    }

    /// Its part of a wave. It ends where it finds no number, where a fork finds no cell, and after
    /// TURNS turns.
    pub fn work<G: Gate<B>>(&mut self, bench: &B, gate: &G)
        requires { self.old.halted ≡ false → B.idle bench.now self.old.hand self.old.kept.items }
        ensures { self.new.halted ≡ false → B.idle bench.now self.new.hand self.new.kept.items }
    {
        if self.halted {
            return;
        }
        for _ in 0..TURNS {
            if !self.turn(bench, gate) {
                return;
            }
        }
    }
}
