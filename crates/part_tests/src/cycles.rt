//! Cases of `guarded`.
use crate::rows::is_told;
use crate::trees::{end, no_bound, number, proto, unit};
use chan_base::Memory;
use chan_syntax::{Equation, Ident, Proto, Protos};
use protocol_guard::{Cycle, GuardFault, guarded};
use sqlite_items::Items;
use std::alloc::Global;
use std::process::Abort;
use std::test::Fail;

/// A protocol, and those that it names: by `if` two, after `send` one, or none where it closes.
type Row = (&'static [u8], &'static [&'static [u8]]);

fn branch(alloc: Global, this: &[u8], other: &[u8]) -> Result<Equation, Memory> {
    Ok(Equation::Branch(
        number(alloc, 0)?,
        number(alloc, 0)?,
        end(alloc, this)?,
        end(alloc, other)?,
    ))
}

fn equation(alloc: Global, named: &[&[u8]]) -> Result<Equation, Memory> {
    match named {
        [this, other] => branch(alloc, this, other),
        [next] => {
            let next = end(alloc, next)?;
            Ok(Equation::Send(unit(no_bound(alloc)), Some(next)))
        }
        _ => Ok(Equation::Close),
    }
}

fn protos(alloc: Global, rows: &[Row]) -> Result<Protos, Memory> {
    let mut protos: Items<Proto> = Items::new(alloc);
    for (name, named) in rows {
        let name = Ident::from_slice(alloc, name)?;
        protos.push(proto(alloc, name, equation(alloc, named)?))?;
    }
    Ok(protos)
}

fn told(alloc: Global, cycle: &Cycle) -> Result<Vec<u8>, Memory> {
    let mut out = Vec::from_slice(alloc, b"cycle")?;
    for name in cycle.names.as_slice() {
        out.push(b' ')?;
        out.extend_from_slice(name.as_slice())?;
    }
    Ok(out)
}

/// The cycle of the first protocol that has one, as a text.
fn found(alloc: Global, protos: &Protos) -> Result<Vec<u8>, Memory> {
    match guarded(alloc, protos) {
        Ok(()) => Ok(Vec::from_slice(alloc, b"guarded")?),
        Err(GuardFault::Cycle(cycle)) => told(alloc, &cycle),
        Err(GuardFault::Memory) => Err(Memory),
    }
}

fn answer(alloc: Global, rows: &[Row]) -> Result<Vec<u8>, Memory> {
    let protos = protos(alloc, rows)?;
    found(alloc, &protos)
}

/// Protocols, and what is told of them.
type Table = (&'static [Row], &'static [u8]);

static GUARDED: [Table; 6] = [
    (&[], b"guarded"),
    (&[(b"P", &[])], b"guarded"),
    (
        &[(b"P", &[b"Q", b"S"]), (b"Q", &[b"S", b"S"]), (b"S", &[])],
        b"guarded",
    ),
    (&[(b"P", &[b"P"])], b"guarded"),
    (&[(b"P", &[b"Q", b"Q"]), (b"Q", &[b"P"])], b"guarded"),
    (
        &[(b"P", &[b"Q", b"X"]), (b"Q", &[]), (b"Q", &[b"P", b"P"])],
        b"guarded",
    ),
];

static CYCLES: [Table; 7] = [
    (
        &[(b"P", &[b"Q", b"Q"]), (b"Q", &[b"P", b"P"])],
        b"cycle P Q",
    ),
    (&[(b"P", &[b"P", b"S"]), (b"S", &[])], b"cycle P"),
    (&[(b"P", &[b"S", b"P"]), (b"S", &[])], b"cycle P"),
    (
        &[
            (b"P", &[b"Q", b"S"]),
            (b"Q", &[b"S", b"R"]),
            (b"R", &[b"Q", b"S"]),
            (b"S", &[]),
        ],
        b"cycle Q R",
    ),
    (
        &[
            (b"P", &[b"Q", b"R"]),
            (b"Q", &[b"R", b"R"]),
            (b"R", &[b"P", b"P"]),
        ],
        b"cycle P R",
    ),
    (
        &[
            (b"P", &[b"Q", b"R"]),
            (b"Q", &[b"P", b"P"]),
            (b"R", &[b"P", b"P"]),
        ],
        b"cycle P Q",
    ),
    (
        &[
            (b"P", &[b"Q", b"Q"]),
            (b"Q", &[b"R", b"R"]),
            (b"R", &[b"P", b"P"]),
        ],
        b"cycle P Q R",
    ),
];

fn are_told(rt: &(impl Abort + AllocGlobal), tables: &[Table]) -> Result<(), Fail> {
    for (rows, want) in tables {
        is_told(rt, answer(rt.alloc(), rows), want)?;
    }
    Ok(())
}

#[test]
fn protocols_are_guarded(rt: HostRuntime) -> Result<(), Fail> {
    are_told(&rt, &GUARDED)
}

#[test]
fn the_first_cycle_is_told(rt: HostRuntime) -> Result<(), Fail> {
    are_told(&rt, &CYCLES)
}
