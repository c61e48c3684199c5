//! Waves of all workers.
ghost use Rattle.std.specs.Prelude.{◌≡◌, ◌<◌, false, All, length};

use crate::bench::Bench;
use crate::gates::Gate;
use crate::members::Member;
use crate::placing::place_all;
use std::thread;
use std::thread::Threads;

/// How many waves there are at most.
pub const WAVES: u32 = 1024;

/// One wave: each worker has its part, in a thread of its own where one can be made.
pub fn run_wave<R: Threads + Sync, B: Bench + Sync, G: Gate<B> + Sync>(
    rt: &R,
    bench: &B,
    gate: &G,
    members: &mut [Member<B>],
)
    requires some { 0 < length members.old }
    requires idle { All (λ m. m.halted ≡ false → B.idle bench.now m.hand m.kept.items) members.old }
    ensures idle { All (λ m. m.halted ≡ false → B.idle bench.now m.hand m.kept.items) members.new }
    ensures len { length members.new ≡ length members.old }
{
    let part = |_: usize, member: &mut Member<B>|
        requires { member.now.halted ≡ false → B.idle bench.now member.now.hand member.now.kept.items }
        ensures { member.exit.now.halted ≡ false → B.idle bench.entry.now member.exit.now.hand member.exit.now.kept.items }
    { member.work(bench, gate) };
    let count = members.len();
    thread::for_each_mut(rt, members, count, &part);
}

/// Waves until one takes nothing.
pub fn run_waves<R: Threads + Sync, B: Bench + Sync, G: Gate<B> + Sync>(
    rt: &R,
    bench: &B,
    gate: &G,
    members: &mut [Member<B>],
)
    requires some { 0 < length members.old }
    requires idle { All (λ m. m.halted ≡ false → B.idle bench.now m.hand m.kept.items) members.old }
    ensures idle { All (λ m. m.halted ≡ false → B.idle bench.now m.hand m.kept.items) members.new }
    ensures len { length members.new ≡ length members.old }
{
    for _ in 0..WAVES {
        place_all(bench, members);
        run_wave(rt, bench, gate, members);
        if !members.iter().any(|member| member.taken) {
            return;
        }
    }
}
