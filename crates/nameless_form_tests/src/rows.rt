//! Cases of terms and of the rows of limits.
use crate::terms::{NONE, Times, form};
use chan_base::Memory;
use farkas_check::Row;
use nameless_forms::{FormFault, at_most_row, less_row};
use std::alloc::Global;
use std::test::Fail;

const MOST: i64 = 9223372036854775807;

const LEAST: i64 = -9223372036854775808;

fn push(out: &mut Vec<u8>, text: &[u8]) -> Result<(), Memory> {
    for byte in text {
        out.push(*byte)?;
    }
    Ok(())
}

fn push_number(alloc: Global, out: &mut Vec<u8>, number: i64) -> Result<(), Memory> {
    let text = format!(in alloc; "{number}")?;
    push(out, text.as_bytes())
}

fn push_row(alloc: Global, out: &mut Vec<u8>, row: &Row) -> Result<(), Memory> {
    for coefficient in row.coefficients.as_slice() {
        push_number(alloc, out, *coefficient)?;
        push(out, b" ")?;
    }
    push(out, b"| ")?;
    push_number(alloc, out, row.constant)
}

/// The row, or its fault, as a text.
fn text(alloc: Global, row: Result<Row, FormFault>) -> Result<Vec<u8>, Memory> {
    let mut out = Vec::new(alloc);
    match row {
        Ok(row) => push_row(alloc, &mut out, &row)?,
        Err(FormFault::TooLarge) => push(&mut out, b"too large")?,
        Err(FormFault::Memory) => return Err(Memory),
    }
    Ok(out)
}

fn at_most(alloc: Global, left: &[Times], right: &[Times]) -> Result<Row, FormFault> {
    let left = form(alloc, left)?;
    let right = form(alloc, right)?;
    at_most_row(alloc, 3, &left, &right)
}

fn less(alloc: Global, left: &[Times], right: &[Times]) -> Result<Row, FormFault> {
    let left = form(alloc, left)?;
    let right = form(alloc, right)?;
    less_row(alloc, 3, &left, &right)
}

#[test]
fn a_limit_has_one_row(rt: HostRuntime) -> Result<(), Fail> {
    let rows: [(&[Times], &[Times], &[u8], &[u8]); 11] = [
        (&[], &[], b"0 0 0 | 0", b"0 0 0 | 1"),
        (
            &[(2, b'n'), (1, b'n')],
            &[(1, b'm')],
            b"3 0 -1 | 0",
            b"3 0 -1 | 1",
        ),
        (
            &[(1, b'm'), (4, b'n'), (2, b'm')],
            &[(4, b'n')],
            b"0 0 3 | 0",
            b"0 0 3 | 1",
        ),
        (
            &[(1, b'n'), (0, b'm'), (-1, b'n'), (7, NONE)],
            &[],
            b"0 0 0 | 7",
            b"0 0 0 | 8",
        ),
        (
            &[(3, NONE)],
            &[(1, b'n'), (5, NONE)],
            b"-1 0 0 | -2",
            b"-1 0 0 | -1",
        ),
        (
            &[(MOST, b'm'), (1, b'm'), (-1, b'm')],
            &[],
            b"0 0 9223372036854775807 | 0",
            b"0 0 9223372036854775807 | 1",
        ),
        (
            &[(LEAST, NONE)],
            &[],
            b"0 0 0 | -9223372036854775808",
            b"0 0 0 | -9223372036854775807",
        ),
        (
            &[(LEAST, b'm')],
            &[(LEAST, b'm')],
            b"0 0 0 | 0",
            b"0 0 0 | 1",
        ),
        (
            &[(MOST, NONE)],
            &[],
            b"0 0 0 | 9223372036854775807",
            b"too large",
        ),
        (&[(MOST, b'n')], &[(-1, b'n')], b"too large", b"too large"),
        (
            &[(MOST, b'n'), (1, b'n')],
            &[(1, b'n')],
            b"too large",
            b"too large",
        ),
    ];
    for (left, right, at_most_is, less_is) in rows {
        let alloc = rt.alloc();
        assert_eq!(rt;
            text(alloc, at_most(alloc, left, right))?.as_slice(),
            at_most_is
        );
        assert_eq!(rt; text(alloc, less(alloc, left, right))?.as_slice(), less_is);
    }
    Ok(())
}
