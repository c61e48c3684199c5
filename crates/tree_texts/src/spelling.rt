//! How trees are spelled in tables of cases.
use chan_base::Memory;
use chan_syntax::{Bound, Equation, Ident, Limit, Part, Proto, Ref, Relation, Res, Shape, Term};
use std::alloc::Global;

/// Appends the bytes of a text.
pub fn push(out: &mut Vec<u8>, text: &[u8]) -> Result<(), Memory> {
    for byte in text {
        out.push(*byte)?;
    }
    Ok(())
}

/// Appends the digits of a number, behind a `-` where it is negative.
pub fn push_number(alloc: Global, out: &mut Vec<u8>, number: i128) -> Result<(), Memory> {
    let text = format!(in alloc; "{number}")?;
    push(out, text.as_bytes())
}

fn push_part(alloc: Global, out: &mut Vec<u8>, part: &Part) -> Result<(), Memory> {
    push(out, if part.negative { b"-" } else { b"+" })?;
    push_number(alloc, out, i128::from(part.factor))?;
    match &part.name {
        Some(name) => {
            push(out, b"*")?;
            push(out, name.as_slice())
        }
        None => Ok(()),
    }
}

fn push_term(alloc: Global, out: &mut Vec<u8>, term: &Term) -> Result<(), Memory> {
    for part in term.parts.as_slice() {
        push_part(alloc, out, part)?;
    }
    Ok(())
}

/// Appends an end of a protocol, with `~` where it is the dual, and its arguments.
pub fn push_ref(alloc: Global, out: &mut Vec<u8>, end: &Ref) -> Result<(), Memory> {
    push(out, if end.dual { b"~" } else { b"" })?;
    push(out, end.name.as_slice())?;
    for arg in end.args.as_slice() {
        push(out, b" ")?;
        push_term(alloc, out, arg)?;
    }
    Ok(())
}

/// The names, with commas between them.
fn push_names(out: &mut Vec<u8>, names: &[Ident]) -> Result<(), Memory> {
    let mut between: &[u8] = b"";
    for name in names {
        push(out, between)?;
        push(out, name.as_slice())?;
        between = b", ";
    }
    Ok(())
}

fn sign(relation: Relation) -> &'static [u8] {
    match relation {
        Relation::AtMost => b" <= ",
        Relation::Less => b" < ",
        Relation::Same => b" = ",
    }
}

/// The limits, with commas between them.
fn push_limits(alloc: Global, out: &mut Vec<u8>, limits: &[Limit]) -> Result<(), Memory> {
    let mut between: &[u8] = b": ";
    for limit in limits {
        push(out, between)?;
        push_term(alloc, out, &limit.left)?;
        push(out, sign(limit.relation))?;
        push_term(alloc, out, &limit.right)?;
        between = b", ";
    }
    Ok(())
}

fn push_bound(alloc: Global, out: &mut Vec<u8>, bound: &Bound) -> Result<(), Memory> {
    if bound.names.is_empty() {
        return Ok(());
    }
    push(out, b"[")?;
    push_names(out, bound.names.as_slice())?;
    push_limits(alloc, out, bound.limits.as_slice())?;
    push(out, b"] ")
}

fn push_int(alloc: Global, out: &mut Vec<u8>, term: &Term) -> Result<(), Memory> {
    push(out, b"int ")?;
    push_term(alloc, out, term)
}

fn push_end(alloc: Global, out: &mut Vec<u8>, end: &Ref) -> Result<(), Memory> {
    push(out, b"end ")?;
    push_ref(alloc, out, end)
}

#[cycle(spelling)]
fn push_shape(alloc: Global, out: &mut Vec<u8>, shape: &Shape) -> Result<(), Memory> {
    match shape {
        Shape::Unit => push(out, b"unit"),
        Shape::Int(term) => push_int(alloc, out, term),
        Shape::End(end) => push_end(alloc, out, end),
        Shape::Pair(first, second) => {
            push(out, b"(")?;
            push_res(alloc, out, first.get())?;
            push(out, b", ")?;
            push_res(alloc, out, second.get())?;
            push(out, b")")
        }
        Shape::Sum(arms) => {
            push(out, b"{")?;
            push_resources(alloc, out, arms.as_slice())?;
            push(out, b"}")
        }
    }
}

#[cycle(spelling)]
fn push_resources(alloc: Global, out: &mut Vec<u8>, resources: &[Res]) -> Result<(), Memory> {
    let mut behind = false;
    for res in resources {
        push(out, if behind { b" | " } else { b"" })?;
        push_res(alloc, out, res)?;
        behind = true;
    }
    Ok(())
}

/// Appends a resource behind its binders and their limits.
#[cycle(spelling)]
pub fn push_res(alloc: Global, out: &mut Vec<u8>, res: &Res) -> Result<(), Memory> {
    push_bound(alloc, out, &res.bound)?;
    push_shape(alloc, out, &res.shape)
}

/// What follows a message, where something does.
fn push_next(alloc: Global, out: &mut Vec<u8>, next: &Option<Ref>) -> Result<(), Memory> {
    match next {
        Some(next) => {
            push(out, b" then ")?;
            push_ref(alloc, out, next)
        }
        None => Ok(()),
    }
}

fn push_message(
    alloc: Global,
    out: &mut Vec<u8>,
    verb: &[u8],
    res: &Res,
    next: &Option<Ref>,
) -> Result<(), Memory> {
    push(out, verb)?;
    push_res(alloc, out, res)?;
    push_next(alloc, out, next)
}

/// `if left <= right`
fn push_test(alloc: Global, out: &mut Vec<u8>, left: &Term, right: &Term) -> Result<(), Memory> {
    push(out, b"if ")?;
    push_term(alloc, out, left)?;
    push(out, b" <= ")?;
    push_term(alloc, out, right)
}

/// ` then this else other`
fn push_ways(alloc: Global, out: &mut Vec<u8>, this: &Ref, other: &Ref) -> Result<(), Memory> {
    push(out, b" then ")?;
    push_ref(alloc, out, this)?;
    push(out, b" else ")?;
    push_ref(alloc, out, other)
}

fn push_equation(alloc: Global, out: &mut Vec<u8>, equation: &Equation) -> Result<(), Memory> {
    match equation {
        Equation::Send(res, next) => push_message(alloc, out, b"send ", res, next),
        Equation::Recv(res, next) => push_message(alloc, out, b"recv ", res, next),
        Equation::Close => push(out, b"close"),
        Equation::Wait => push(out, b"wait"),
        Equation::Branch(left, right, this, other) => {
            push_test(alloc, out, left, right)?;
            push_ways(alloc, out, this, other)
        }
    }
}

/// Appends a protocol with its parameters and its equation.
pub fn push_proto(alloc: Global, out: &mut Vec<u8>, proto: &Proto) -> Result<(), Memory> {
    push(out, proto.name.as_slice())?;
    push(out, b"(")?;
    push_names(out, proto.params.as_slice())?;
    push(out, b") = ")?;
    push_equation(alloc, out, &proto.equation)
}
