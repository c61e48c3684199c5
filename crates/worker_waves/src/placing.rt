//! What the driver does before each wave.
ghost use Rattle.std.specs.Prelude.{◌≡◌, ◌<◌, false, All, length};

use crate::bench::Bench;
use crate::members::Member;

// The worker whose hand can make the most forks.
fn richest<B: Bench>(bench: &B, members: &[Member<B>]) -> usize
    requires { 0 < length members.now }
    ensures { result < length members.now }
{
    let mut best = 0;
    for k in 0..members.len() {
        if bench.spare(&members[k].hand) > bench.spare(&members[best].hand) {
            best = k;
        }
    }
    best
}

// Offers a number to one worker.
fn give<B: Bench>(bench: &B, members: &mut [Member<B>], to: usize, number: u64)
    requires to { to < length members.old }
    requires idle { All (λ m. m.halted ≡ false → B.idle bench.now m.hand m.kept.items) members.old }
    ensures idle { All (λ m. m.halted ≡ false → B.idle bench.now m.hand m.kept.items) members.new }
    ensures len { length members.new ≡ length members.old }
{
    members[to].offer(number);
}

// Starts a wave for one worker.
fn start<B: Bench>(bench: &B, members: &mut [Member<B>], at: usize) -> Option<u64>
    requires at { at < length members.old }
    requires idle { All (λ m. m.halted ≡ false → B.idle bench.now m.hand m.kept.items) members.old }
    ensures idle { All (λ m. m.halted ≡ false → B.idle bench.now m.hand m.kept.items) members.new }
    ensures len { length members.new ≡ length members.old }
{
    members[at].start()
}

/// Starts a wave: each task whose fork found no cell goes to the worker that can make the most forks.
pub fn place_all<B: Bench>(bench: &B, members: &mut [Member<B>])
    requires some { 0 < length members.old }
    requires idle { All (λ m. m.halted ≡ false → B.idle bench.now m.hand m.kept.items) members.old }
    ensures idle { All (λ m. m.halted ≡ false → B.idle bench.now m.hand m.kept.items) members.new }
    ensures len { length members.new ≡ length members.old }
{
    for at in 0..members.len() {
        if let Some(number) = start(bench, members, at) {
            let to = richest(bench, members);
            give(bench, members, to, number);
        }
    }
}
