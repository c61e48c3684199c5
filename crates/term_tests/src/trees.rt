//! Trees of what a table holds.
use chan_base::{Memory, Span, Spans};
use chan_syntax::{
    Bound, Ident, Idents, Limit, Limits, Part, Ref, Relation, Res, Shape, Term, Terms,
};
use sqlite_items::{Boxed, Items};
use std::alloc::Global;

pub(crate) const NOWHERE: Span = Span {
    start: 0,
    stop: 0,
    line: 1,
    column: 1,
};

/// A name of one letter that counts so often, or a bare number at `NONE`.
pub(crate) type Times = (i64, u8);

/// No name.
pub(crate) const NONE: u8 = 0;

/// A limit: a term, how it stands to another, and that one.
pub(crate) type Within<'a> = (&'a [Times], Relation, &'a [Times]);

fn part(alloc: Global, times: &Times) -> Result<Part, Memory> {
    let name = if times.1 == NONE {
        None
    } else {
        Some(Ident::from_slice(alloc, &[times.1])?)
    };
    Ok(Part {
        negative: false,
        factor: times.0,
        name,
        name_span: None,
    })
}

pub(crate) fn term(alloc: Global, times: &[Times]) -> Result<Term, Memory> {
    let mut parts = Items::new(alloc);
    for one in times {
        parts.push(part(alloc, one)?)?;
    }
    Ok(Term {
        parts,
        span: NOWHERE,
    })
}

pub(crate) fn terms(alloc: Global, all: &[&[Times]]) -> Result<Terms, Memory> {
    let mut terms = Items::new(alloc);
    for times in all {
        terms.push(term(alloc, times)?)?;
    }
    Ok(terms)
}

/// A name for each byte.
pub(crate) fn names(alloc: Global, letters: &[u8]) -> Result<Idents, Memory> {
    let mut names = Items::new(alloc);
    for letter in letters {
        names.push(Ident::from_slice(alloc, &[*letter])?)?;
    }
    Ok(names)
}

fn limit(alloc: Global, within: &Within<'_>) -> Result<Limit, Memory> {
    Ok(Limit {
        left: term(alloc, within.0)?,
        relation: within.1,
        right: term(alloc, within.2)?,
    })
}

fn limits(alloc: Global, all: &[Within<'_>]) -> Result<Limits, Memory> {
    let mut limits = Items::new(alloc);
    for within in all {
        limits.push(limit(alloc, within)?)?;
    }
    Ok(limits)
}

/// Binders that keep limits.
pub(crate) fn bound(alloc: Global, binders: &[u8], all: &[Within<'_>]) -> Result<Bound, Memory> {
    Ok(Bound {
        names: names(alloc, binders)?,
        names_spans: Items::new(alloc),
        limits: limits(alloc, all)?,
    })
}

/// An integer under binders that keep limits.
pub(crate) fn int_within(
    alloc: Global,
    binders: &[u8],
    all: &[Within<'_>],
    times: &[Times],
) -> Result<Res, Memory> {
    let bound = bound(alloc, binders, all)?;
    Ok(Res {
        bound,
        shape: Shape::Int(term(alloc, times)?),
    })
}

/// An integer under binders.
pub(crate) fn int(alloc: Global, binders: &[u8], times: &[Times]) -> Result<Res, Memory> {
    int_within(alloc, binders, &[], times)
}

fn dual_ref(alloc: Global, args: &[&[Times]]) -> Result<Ref, Memory> {
    Ok(Ref {
        dual: true,
        name: Ident::from_slice(alloc, b"P")?,
        name_span: NOWHERE,
        args: terms(alloc, args)?,
        span: NOWHERE,
    })
}

/// The dual end of a protocol at some terms, under binders.
pub(crate) fn dual_end(alloc: Global, binders: &[u8], args: &[&[Times]]) -> Result<Res, Memory> {
    let bound = bound(alloc, binders, &[])?;
    Ok(Res {
        bound,
        shape: Shape::End(dual_ref(alloc, args)?),
    })
}

fn no_bound(alloc: Global) -> Bound {
    Bound {
        names: Idents::new(alloc),
        names_spans: Spans::new(alloc),
        limits: Limits::new(alloc),
    }
}

fn nothing(alloc: Global) -> Res {
    Res {
        bound: no_bound(alloc),
        shape: Shape::Unit,
    }
}

/// An integer under binders, to be part of a pair.
pub(crate) fn boxed_int(
    alloc: Global,
    binders: &[u8],
    times: &[Times],
) -> Result<Boxed<Res>, Memory> {
    Ok(Boxed::new(alloc, int(alloc, binders, times)?)?)
}

fn int_and_nothing(alloc: Global, binders: &[u8], times: &[Times]) -> Result<Shape, Memory> {
    let first = boxed_int(alloc, binders, times)?;
    let second = Boxed::new(alloc, nothing(alloc))?;
    Ok(Shape::Pair(first, second))
}

/// A pair of an integer and nothing, under binders, of which the inner ones are around the integer
/// alone.
pub(crate) fn pair(
    alloc: Global,
    outer: &[u8],
    inner: &[u8],
    times: &[Times],
) -> Result<Res, Memory> {
    let bound = bound(alloc, outer, &[])?;
    Ok(Res {
        bound,
        shape: int_and_nothing(alloc, inner, times)?,
    })
}
