//! Terms of program variables, which stand for terms.
use chan_base::{Memory, Span};
use chan_syntax::{Ident, Part, Term};
use farkas_check::Row;
use outline_rules::{IntNames, IntVar, TermFault, normal};
use sqlite_items::Items;
use std::alloc::Global;
use std::test::Fail;

const NOWHERE: Span = Span {
    start: 0,
    stop: 0,
    line: 1,
    column: 1,
};

/// A part that names nothing where the text is empty.
fn part(alloc: Global, negative: bool, factor: i64, name: &[u8]) -> Result<Part, Memory> {
    let name = match name {
        [] => None,
        name => Some(Ident::from_slice(alloc, name)?),
    };
    Ok(Part {
        negative,
        factor,
        name,
        name_span: None,
    })
}

fn term(alloc: Global, first: Part, second: Part) -> Result<Term, Memory> {
    let mut parts = Items::new(alloc);
    parts.push(first)?;
    parts.push(second)?;
    Ok(Term {
        parts,
        span: NOWHERE,
    })
}

/// The integer variable `n`, and `a` of the shape `int(2*n + 1)`.
fn context(alloc: Global) -> Result<IntNames, Memory> {
    let mut ints = Items::new(alloc);
    ints.push(Ident::from_slice(alloc, b"n")?)?;
    let mut vars = Items::new(alloc);
    vars.push(IntVar {
        name: Ident::from_slice(alloc, b"a")?,
        term: term(
            alloc,
            part(alloc, false, 2, b"n")?,
            part(alloc, false, 1, b"")?,
        )?,
    })?;
    Ok(IntNames { ints, vars })
}

fn row(alloc: Global, term: &Term) -> Result<Row, Memory> {
    match normal(alloc, term, &context(alloc)?) {
        Ok(row) => Ok(row),
        Err(_) => Err(Memory),
    }
}

fn fault(alloc: Global, term: &Term) -> Result<TermFault, Memory> {
    match normal(alloc, term, &context(alloc)?) {
        Ok(_) => Err(Memory),
        Err(fault) => Ok(fault),
    }
}

#[test]
fn a_program_variable_stands_for_its_term(rt: HostRuntime) -> Result<(), Fail> {
    let alloc = rt.alloc();
    let term = term(
        alloc,
        part(alloc, false, 3, b"a")?,
        part(alloc, true, 1, b"n")?,
    )?;
    let row = row(alloc, &term)?;
    assert_eq!(rt; row.coefficients.get(0).copied(), Some(5));
    assert_eq!(rt; row.constant, 3);
    Ok(())
}

#[test]
fn the_least_number_taken_away_is_too_large(rt: HostRuntime) -> Result<(), Fail> {
    let alloc = rt.alloc();
    let least = -9223372036854775808;
    let term = term(
        alloc,
        part(alloc, true, least, b"")?,
        part(alloc, false, 0, b"n")?,
    )?;
    assert!(rt; matches!(fault(alloc, &term)?, TermFault::TooLarge));
    Ok(())
}

#[test]
fn a_name_of_no_integer_comes_before_a_number_too_large(rt: HostRuntime) -> Result<(), Fail> {
    let alloc = rt.alloc();
    let least = -9223372036854775808;
    let term = term(
        alloc,
        part(alloc, true, least, b"n")?,
        part(alloc, false, 1, b"c")?,
    )?;
    assert!(rt; matches!(fault(alloc, &term)?, TermFault::NotInt(_)));
    Ok(())
}
