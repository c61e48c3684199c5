//! Cases of normal forms.
use crate::rows::is_told;
use crate::trees::{NONE, Times, names, term};
use chan_base::Memory;
use chan_syntax::Ident;
use farkas_check::Row;
use outline_rules::{IntNames, IntVar, IntVars, TermFault, normal};
use sqlite_items::Items;
use std::alloc::Global;
use std::process::Abort;
use std::test::Fail;
use tree_texts::{push, push_number};

/// A term, and its row or its fault.
type Case = (&'static [Times], &'static [u8]);

const MOST: i64 = 9223372036854775807;

const LEAST: i64 = -9223372036854775808;

fn var(alloc: Global, name: &[u8], times: &[Times]) -> Result<IntVar, Memory> {
    let name = Ident::from_slice(alloc, name)?;
    Ok(IntVar {
        name,
        term: term(alloc, times)?,
    })
}

/// `a` is `2*n + 1`, and `k`, which is an integer variable too, is `m + 5`.
fn vars(alloc: Global) -> Result<IntVars, Memory> {
    let mut vars = Items::new(alloc);
    vars.push(var(alloc, b"a", &[(2, b'n'), (1, NONE)])?)?;
    vars.push(var(alloc, b"k", &[(1, b'm'), (5, NONE)])?)?;
    Ok(vars)
}

fn context(alloc: Global) -> Result<IntNames, Memory> {
    Ok(IntNames {
        ints: names(alloc, b"nmk")?,
        vars: vars(alloc)?,
    })
}

fn push_row(alloc: Global, out: &mut Vec<u8>, row: &Row) -> Result<(), Memory> {
    for coefficient in row.coefficients.as_slice() {
        push_number(alloc, out, i128::from(*coefficient))?;
        push(out, b" ")?;
    }
    push(out, b"| ")?;
    push_number(alloc, out, i128::from(row.constant))
}

fn push_fault(out: &mut Vec<u8>, fault: &TermFault) -> Result<(), Memory> {
    match fault {
        TermFault::TooLarge => push(out, b"too large"),
        TermFault::NotInt(name) => {
            push(out, b"no integer ")?;
            push(out, name.as_slice())
        }
        TermFault::Memory => Err(Memory),
    }
}

fn row_of(alloc: Global, times: &[Times]) -> Result<Row, TermFault> {
    let term = term(alloc, times)?;
    let context = context(alloc)?;
    normal(alloc, &term, &context)
}

/// The row, or the fault, as a text.
fn told(alloc: Global, answer: &Result<Row, TermFault>) -> Result<Vec<u8>, Memory> {
    let mut out = Vec::new(alloc);
    match answer {
        Ok(row) => push_row(alloc, &mut out, row)?,
        Err(fault) => push_fault(&mut out, fault)?,
    }
    Ok(out)
}

fn answer(alloc: Global, times: &[Times]) -> Result<Vec<u8>, Memory> {
    told(alloc, &row_of(alloc, times))
}

fn have_rows(rt: &(impl Abort + AllocGlobal), cases: &[Case]) -> Result<(), Fail> {
    for (times, want) in cases {
        is_told(rt, answer(rt.alloc(), times), want)?;
    }
    Ok(())
}

static ROWS: [Case; 12] = [
    (&[], b"0 0 0 | 0"),
    (&[(1, b'n')], b"1 0 0 | 0"),
    (&[(1, b'a')], b"2 0 0 | 1"),
    (&[(-1, b'a')], b"-2 0 0 | -1"),
    (&[(3, b'a'), (-1, b'n')], b"5 0 0 | 3"),
    (&[(1, b'k')], b"0 1 0 | 5"),
    (&[(1, b'n'), (1, b'n'), (1, b'm')], b"2 1 0 | 0"),
    (&[(0, b'n'), (0, b'a')], b"0 0 0 | 0"),
    (&[(MOST, b'n')], b"9223372036854775807 0 0 | 0"),
    (&[(LEAST, NONE)], b"0 0 0 | -9223372036854775808"),
    (
        &[(MOST, b'm'), (1, b'm'), (-1, b'm')],
        b"0 9223372036854775807 0 | 0",
    ),
    (&[(1, b'a'), (-2, b'n'), (-1, NONE)], b"0 0 0 | 0"),
];

static FAULTS: [Case; 6] = [
    (&[(MOST, NONE), (1, NONE)], b"too large"),
    (&[(LEAST, b'n'), (-1, b'n')], b"too large"),
    (&[(MOST, b'a')], b"too large"),
    (&[(1, b'c')], b"no integer c"),
    (&[(1, b'd'), (1, b'c')], b"no integer d"),
    (&[(MOST, b'a'), (1, b'c')], b"no integer c"),
];

#[test]
fn a_term_has_one_row(rt: HostRuntime) -> Result<(), Fail> {
    have_rows(&rt, &ROWS)
}

#[test]
fn a_fault_of_a_term_is_the_first(rt: HostRuntime) -> Result<(), Fail> {
    have_rows(&rt, &FAULTS)
}
