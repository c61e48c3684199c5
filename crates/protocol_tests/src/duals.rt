//! Cases of duals.
use crate::examples::{from, protos};
use crate::rows::is_told;
use chan_base::Memory;
use chan_syntax::{Protos, Ref};
use protocols::{dual, dual_ref};
use std::alloc::Global;
use std::test::Fail;
use tree_texts::{push_proto, push_ref};

fn duals_of(alloc: Global, protos: &Protos) -> Result<Protos, Memory> {
    let mut duals = Protos::new(alloc);
    for proto in protos.as_slice() {
        duals.push(dual(alloc, proto)?)?;
    }
    Ok(duals)
}

/// Each protocol on a line of its own.
fn lines(alloc: Global, protos: &Protos) -> Result<Vec<u8>, Memory> {
    let mut out = Vec::new(alloc);
    for proto in protos.as_slice() {
        push_proto(alloc, &mut out, proto)?;
        out.push(b'\n')?;
    }
    Ok(out)
}

/// The duals of the protocols of the cases.
fn duals(alloc: Global) -> Result<Protos, Memory> {
    let protos = protos(alloc)?;
    duals_of(alloc, &protos)
}

fn as_they_are(alloc: Global) -> Result<Vec<u8>, Memory> {
    let protos = protos(alloc)?;
    lines(alloc, &protos)
}

fn turned(alloc: Global) -> Result<Vec<u8>, Memory> {
    let duals = duals(alloc)?;
    lines(alloc, &duals)
}

fn turned_twice(alloc: Global) -> Result<Vec<u8>, Memory> {
    let duals = duals(alloc)?;
    let protos = duals_of(alloc, &duals)?;
    lines(alloc, &protos)
}

fn push_other_end(alloc: Global, out: &mut Vec<u8>, end: &Ref) -> Result<(), Memory> {
    let other = dual_ref(alloc, end)?;
    push_ref(alloc, out, &other)
}

/// The other end of one that is marked, or isn't.
fn other_end(alloc: Global, marked: bool) -> Result<Vec<u8>, Memory> {
    let end = from(alloc, marked, b"Pong", (2, 1))?;
    let mut out = Vec::new(alloc);
    push_other_end(alloc, &mut out, &end)?;
    Ok(out)
}

const DUALS: &[u8] = b"\
Ping(n) = if +1*n+0 <= +0*n+0 then ~Stop else ~Go +1*n+0
Go(n) = recv int +1*n+0 then ~Pong +1*n+0
Pong(n) = send int +1*n+0 then ~Ping +1*n+-1
Stop() = wait
Twice(n) = if +1*n+0 <= +0*n+0 then ~Ping +1*n+0 else ~Ping +1*n+-1
Big(n) = if +9223372036854775807*n+0 <= +0*n+0 then ~Stop else ~Stop
Wide(n) = if +1*n+0 <= +0*n+-9223372036854775808 then ~Stop else ~Stop
Far(n) = if +1*n+0 <= +0*n+0 then ~Quiet +9223372036854775807*n+0 else ~Stop
Quiet(n) = wait
Load(n) = recv int +9223372036854775807*n+0
Rest(n) = close
Ask(n) = send [k: +0*n+0 <= +1*k, +1*k <= +1*n+0] int +1*k then ~Stop
";

static MARKS: [(bool, &[u8]); 2] = [(false, b"~Pong +2*n+1"), (true, b"Pong +2*n+1")];

#[test]
fn each_equation_has_its_dual(rt: HostRuntime) -> Result<(), Fail> {
    is_told(&rt, turned(rt.alloc()), DUALS)
}

#[test]
fn the_dual_twice_is_the_protocol(rt: HostRuntime) -> Result<(), Fail> {
    let protos = as_they_are(rt.alloc())?;
    is_told(&rt, turned_twice(rt.alloc()), protos.as_slice())
}

#[test]
fn a_mark_is_set_and_taken_off(rt: HostRuntime) -> Result<(), Fail> {
    for (marked, want) in &MARKS {
        is_told(&rt, other_end(rt.alloc(), *marked), want)?;
    }
    Ok(())
}
