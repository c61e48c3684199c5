//! Factors below zero.
use crate::printing::{printed, sending};
use crate::rows::is_told;
use crate::trees::{NONE, Times, no_bound, term};
use chan_base::Memory;
use chan_syntax::{Ident, Res, Shape};
use std::alloc::Global;
use std::test::Fail;

/// The parts of a term, and a protocol that sends it.
type Row = (&'static [Times], &'static [u8]);

static ROWS: [Row; 9] = [
    (&[], b"proto P() = send int(0);\n"),
    // The least factor, first.
    (
        &[(false, i64::MIN, NONE)],
        b"proto P() = send int(-9223372036854775808);\n",
    ),
    (
        &[(false, i64::MIN, b'x')],
        b"proto P() = send int(-9223372036854775808*x);\n",
    ),
    // Behind another part.
    (
        &[(false, 1, b'x'), (false, i64::MIN, b'y')],
        b"proto P() = send int(x - 9223372036854775808*y);\n",
    ),
    (
        &[(true, 1, b'x'), (false, i64::MIN, NONE)],
        b"proto P() = send int(-x - 9223372036854775808);\n",
    ),
    // The factor -1 in front of a name and alone.
    (&[(false, -1, b'x')], b"proto P() = send int(-x);\n"),
    (
        &[(false, -1, NONE), (false, -1, b'x')],
        b"proto P() = send int(-1 - x);\n",
    ),
    // Parts that a text can have.
    (
        &[(true, 2, b'x'), (true, 1, b'y'), (false, 0, b'z')],
        b"proto P() = send int(-2*x - y + 0*z);\n",
    ),
    (
        &[(false, i64::MAX, b'x'), (true, i64::MAX, NONE)],
        b"proto P() = send int(9223372036854775807*x - 9223372036854775807);\n",
    ),
];

fn sent(alloc: Global, parts: &[Times]) -> Result<Vec<u8>, Memory> {
    let name = Ident::from_slice(alloc, b"P")?;
    let shape = Shape::Int(term(alloc, parts)?);
    let bound = no_bound(alloc);
    printed(alloc, sending(alloc, name, Res { bound, shape }))
}

#[test]
fn a_factor_below_zero_has_one_minus(rt: HostRuntime) -> Result<(), Fail> {
    for (parts, wanted) in &ROWS {
        is_told(&rt, sent(rt.alloc(), parts), wanted)?;
    }
    Ok(())
}
