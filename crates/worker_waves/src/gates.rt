//! Who is told of the workers' turns.
ghost use Rattle.std.specs.Prelude.{List};

use crate::bench::Bench;

/// Is told of turns, and may hold a worker back by a loop of bounded length.
pub trait Gate<B: Bench> {
    /// Before a worker pops or steals a number.
    fn turn(&self, worker: u32);

    /// After each take that succeeded.
    fn taken(&self, worker: u32, bench: &B, hand: &B::Hand, load: &B::Load)
        requires { (kept : List B.Load) × B.holds bench.now hand.now kept load.now };
}

/// Holds nobody back.
#[derive(Drop)]
pub struct OpenGate;

impl<B: Bench> Gate<B> for OpenGate {
    fn turn(&self, _worker: u32) {}

    fn taken(&self, _worker: u32, _bench: &B, _hand: &B::Hand, _load: &B::Load) {}
}
