//! The hands of all workers, once the waves are over.
ghost use Rattle.std.specs.Prelude.{◌≡◌, ◌<◌, false, true, All, length, IfSome, OnOk, vec_len};
ghost use Rattle.worker_waves.specs.Moves.{AreIdle};

use crate::bench::Bench;
use crate::members::Member;
use std::alloc::{AllocError, Global};

/// The hands, and the loads that they keep.
#[derive(Drop)]
pub struct Leavings<B: Bench> {
    pub hands: Vec<B::Hand>,
    pub kept: Vec<B::Load>,
}

// Takes in a hand and the loads that its worker kept.
fn add<B: Bench>(
    bench: &B,
    all: &mut Leavings<B>,
    hand: B::Hand,
    mut kept: Vec<B::Load>,
) -> Result<(), AllocError>
    requires all { AreIdle (B.idle bench.now) all.old.hands.items all.old.kept.items }
    requires hand { B.idle bench.now hand kept.items }
    ensures { OnOk result (AreIdle (B.idle bench.now) all.new.hands.items all.new.kept.items) }
{
    all.hands.push(hand)?;
    all.kept.append(&mut kept)?;
    Ok(())
}

// Takes in a worker. False where it was stopped or there was no memory.
fn take_in<B: Bench>(bench: &B, all: &mut Leavings<B>, member: Member<B>) -> bool
    requires all { AreIdle (B.idle bench.now) all.old.hands.items all.old.kept.items }
    requires member { member.halted ≡ false → B.idle bench.now member.hand member.kept.items }
    ensures { result ≡ true → AreIdle (B.idle bench.now) all.new.hands.items all.new.kept.items }
{
    if member.halted {
        return false;
    }
    let Member { hand, kept, .. } = member;
    match add(bench, all, hand, kept) {
        Ok(()) => true,
        Err(_) => false,
    }
}

// Takes the last worker out.
fn last<B: Bench>(bench: &B, members: &mut Vec<Member<B>>) -> Option<Member<B>>
    requires { All (λ m. m.halted ≡ false → B.idle bench.now m.hand m.kept.items) members.old.items }
    ensures rest { All (λ m. m.halted ≡ false → B.idle bench.now m.hand m.kept.items) members.new.items }
    ensures member { IfSome result (λ m. m.halted ≡ false → B.idle bench.now m.hand m.kept.items) }
    ensures shorter { IfSome result (λ m. vec_len members.new < vec_len members.old) }
{
    members.pop()
}

/// All hands, and all loads that they kept. None where a worker was stopped or there was no memory.
pub fn leave<B: Bench>(alloc: Global, bench: &B, members: Vec<Member<B>>) -> Option<Leavings<B>>
    requires { All (λ m. m.halted ≡ false → B.idle bench.now m.hand m.kept.items) members.items }
    ensures { IfSome result (λ all. AreIdle (B.idle bench.now) all.hands.items all.kept.items) }
{
    let mut members = members;
    let mut all = Leavings {
        hands: Vec::new(alloc),
        kept: Vec::new(alloc),
    };
    while let Some(member) = last(bench, &mut members) {
        if !take_in(bench, &mut all, member) {
            return None;
        }
    }
    Some(all)
}
