//! Small trees.
use chan_base::{Memory, Span, Spans};
use chan_syntax::{
    Bound, Certs, Equation, Ident, Idents, Limits, Part, Proof, Proto, Ref, Res, Shape, Term,
    TermParts, Terms,
};
use std::alloc::Global;

/// A place that starts at this byte.
pub(crate) fn at(start: u32) -> Span {
    Span {
        start,
        stop: start,
        line: 1,
        column: 1,
    }
}

/// Whether a part is taken away, its factor, and its name of one letter or `NONE`.
pub(crate) type Times = (bool, i64, u8);

/// No name.
pub(crate) const NONE: u8 = 0;

fn part(alloc: Global, times: &Times) -> Result<Part, Memory> {
    let (negative, factor, letter) = *times;
    let name = if letter == NONE {
        None
    } else {
        Some(Ident::from_slice(alloc, &[letter])?)
    };
    Ok(Part {
        negative,
        factor,
        name,
        name_span: None,
    })
}

pub(crate) fn term(alloc: Global, times: &[Times]) -> Result<Term, Memory> {
    let mut parts = TermParts::new(alloc);
    for one in times {
        parts.push(part(alloc, one)?)?;
    }
    Ok(Term { parts, span: at(0) })
}

pub(crate) fn number(alloc: Global, number: i64) -> Result<Term, Memory> {
    term(alloc, &[(false, number, NONE)])
}

pub(crate) fn variable(alloc: Global, letter: u8) -> Result<Term, Memory> {
    term(alloc, &[(false, 1, letter)])
}

pub(crate) fn no_proof(alloc: Global) -> Proof {
    Proof {
        instances: Terms::new(alloc),
        certs: Certs::new(alloc),
    }
}

pub(crate) fn no_bound(alloc: Global) -> Bound {
    Bound {
        names: Idents::new(alloc),
        names_spans: Spans::new(alloc),
        limits: Limits::new(alloc),
    }
}

/// Nothing, under binders.
pub(crate) fn unit(bound: Bound) -> Res {
    Res {
        bound,
        shape: Shape::Unit,
    }
}

/// An end of a protocol without parameters.
pub(crate) fn end(alloc: Global, name: &[u8]) -> Result<Ref, Memory> {
    Ok(Ref {
        dual: false,
        name: Ident::from_slice(alloc, name)?,
        name_span: at(0),
        args: Terms::new(alloc),
        span: at(0),
    })
}

/// A protocol without parameters.
pub(crate) fn proto(alloc: Global, name: Ident, equation: Equation) -> Proto {
    Proto {
        name,
        name_span: at(0),
        params: Idents::new(alloc),
        params_spans: Spans::new(alloc),
        equation,
        span: at(0),
    }
}
