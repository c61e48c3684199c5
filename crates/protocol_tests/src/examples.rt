//! The protocols of the cases of `unfold` and `dual`, and ends of them.
ghost use Rattle.std.specs.Prelude.{◌≡◌, ◌∷◌, [], map, IfOk};
ghost use Rattle.core_language.specs.Names.{same};
ghost use Rattle.core_language.specs.Resources.{Branch};
ghost use Rattle.chan_syntax.specs.Reading.{part_of, term_of, limit_of, bound_of, ref_of, res_of, equation_of, proto_of};
ghost use Rattle.protocols.specs.Unfolding.{HasArity};
ghost use Rattle.protocol_tests.specs.Examples as spec;

use chan_base::{Memory, Span, Spans};
use chan_syntax::{
    Bound, Equation, Ident, Idents, Limit, Limits, Part, Proto, Protos, Ref, Relation, Res, Shape,
    Term, Terms,
};
use sqlite_items::Items;
use std::alloc::Global;

pub(crate) const NOWHERE: Span = Span {
    start: 0,
    stop: 0,
    line: 1,
    column: 1,
};

const MOST: i64 = 9223372036854775807;

const LEAST: i64 = -9223372036854775808;

fn part(factor: i64, name: Option<Ident>) -> Part
    ensures { part_of result ≡ spec.part factor name }
{
    Part {
        negative: false,
        factor,
        name,
        name_span: None,
    }
}

/// `factor*n + constant`
fn sum(alloc: Global, factor: i64, constant: i64) -> Result<Term, Memory>
    ensures { IfOk result (λ term. term_of term ≡ spec.sum factor constant) }
{
    let name = Ident::from_slice(alloc, b"n")?;
    let mut parts = Items::new(alloc);
    parts.push(part(factor, Some(name)))?;
    parts.push(part(constant, None))?;
    Ok(Term {
        parts,
        span: NOWHERE,
    })
}

/// A name alone.
fn bare(alloc: Global, name: &[u8]) -> Result<Term, Memory>
    ensures { IfOk result (λ term. term_of term ≡ spec.bare name.now) }
{
    let name = Ident::from_slice(alloc, name)?;
    let mut parts = Items::new(alloc);
    parts.push(part(1, Some(name)))?;
    Ok(Term {
        parts,
        span: NOWHERE,
    })
}

fn at_most(left: Term, right: Term) -> Limit
    ensures { limit_of result ≡ spec.at_most (term_of left) (term_of right) }
{
    Limit {
        left,
        relation: Relation::AtMost,
        right,
    }
}

/// `0 <= k`
fn low(alloc: Global) -> Result<Limit, Memory>
    ensures { IfOk result (λ limit. limit_of limit ≡ spec.low) }
{
    let zero = sum(alloc, 0, 0)?;
    let name = bare(alloc, b"k")?;
    Ok(at_most(zero, name))
}

/// `k <= n`
fn high(alloc: Global) -> Result<Limit, Memory>
    ensures { IfOk result (λ limit. limit_of limit ≡ spec.high) }
{
    let name = bare(alloc, b"k")?;
    let most = sum(alloc, 1, 0)?;
    Ok(at_most(name, most))
}

/// `0 <= k, k <= n`
fn limits(alloc: Global) -> Result<Limits, Memory>
    ensures { IfOk result (λ limits. map limit_of limits ≡ spec.low ∷ spec.high ∷ []) }
{
    let mut limits = Items::new(alloc);
    limits.push(low(alloc)?)?;
    limits.push(high(alloc)?)?;
    Ok(limits)
}

fn one_name(alloc: Global, name: &[u8]) -> Result<Idents, Memory>
    ensures { IfOk result (λ names. names ≡ name.now ∷ []) }
{
    let mut names = Items::new(alloc);
    names.push(Ident::from_slice(alloc, name)?)?;
    Ok(names)
}

/// `k: 0 <= k, k <= n`
fn within(alloc: Global) -> Result<Bound, Memory>
    ensures { IfOk result (λ bound. bound_of bound ≡ spec.within) }
{
    let names = one_name(alloc, b"k")?;
    Ok(Bound {
        names,
        names_spans: Spans::new(alloc),
        limits: limits(alloc)?,
    })
}

fn int(alloc: Global, factor: i64, constant: i64) -> Result<Res, Memory>
    ensures { IfOk result (λ res. res_of res ≡ spec.int factor constant) }
{
    let term = sum(alloc, factor, constant)?;
    Ok(Res {
        bound: Bound {
            names: Idents::new(alloc),
            names_spans: Spans::new(alloc),
            limits: Limits::new(alloc),
        },
        shape: Shape::Int(term),
    })
}

fn end(alloc: Global, name: &[u8], factor: i64, constant: i64) -> Result<Ref, Memory>
    ensures { IfOk result (λ end. ref_of end ≡ spec.end name.now (spec.sum factor constant)) }
{
    let name = Ident::from_slice(alloc, name)?;
    let mut args = Items::new(alloc);
    args.push(sum(alloc, factor, constant)?)?;
    Ok(Ref {
        dual: false,
        name,
        name_span: NOWHERE,
        args,
        span: NOWHERE,
    })
}

fn stop_end(alloc: Global) -> Result<Ref, Memory>
    ensures { IfOk result (λ end. ref_of end ≡ spec.stop_end) }
{
    Ok(Ref {
        dual: false,
        name: Ident::from_slice(alloc, b"Stop")?,
        name_span: NOWHERE,
        args: Terms::new(alloc),
        span: NOWHERE,
    })
}

/// A name and the parameter `n`.
fn named(alloc: Global, name: &[u8]) -> Result<(Ident, Idents), Memory>
    ensures name { IfOk result (λ named. named.0 ≡ name.now) }
    ensures parameter { IfOk result (λ named. named.1 ≡ spec.n ∷ []) }
{
    let name = Ident::from_slice(alloc, name)?;
    Ok((name, one_name(alloc, b"n")?))
}

fn proto(alloc: Global, named: (Ident, Idents), equation: Equation) -> Proto
    ensures { proto_of result ≡ spec.defined named.0 named.1 (equation_of equation) }
{
    let (name, params) = named;
    Proto {
        name,
        name_span: NOWHERE,
        params,
        params_spans: Spans::new(alloc),
        equation,
        span: NOWHERE,
    }
}

fn stop(alloc: Global) -> Result<Proto, Memory>
    ensures { IfOk result (λ proto. proto_of proto ≡ spec.stop) }
{
    let name = Ident::from_slice(alloc, b"Stop")?;
    Ok(proto(alloc, (name, Idents::new(alloc)), Equation::Close))
}

/// `name(n) = if left <= right then this else other`, where a side is a factor of `n` and a number.
fn branch(
    alloc: Global,
    name: &[u8],
    left: (i64, i64),
    right: (i64, i64),
    ends: (Ref, Ref),
) -> Result<Proto, Memory>
    ensures { IfOk result (λ proto. proto_of proto ≡ spec.proto name.now (Branch (spec.sum left.0 left.1) (spec.sum right.0 right.1) (ref_of ends.0) (ref_of ends.1))) }
{
    let named = named(alloc, name)?;
    let left = sum(alloc, left.0, left.1)?;
    let right = sum(alloc, right.0, right.1)?;
    let (this, other) = ends;
    Ok(proto(alloc, named, Equation::Branch(left, right, this, other)))
}

fn ping(alloc: Global) -> Result<Proto, Memory>
    ensures { IfOk result (λ proto. proto_of proto ≡ spec.ping) }
{
    let ends = (stop_end(alloc)?, end(alloc, b"Go", 1, 0)?);
    branch(alloc, b"Ping", (1, 0), (0, 0), ends)
}

fn go(alloc: Global) -> Result<Proto, Memory>
    ensures { IfOk result (λ proto. proto_of proto ≡ spec.go) }
{
    let named = named(alloc, b"Go")?;
    let next = end(alloc, b"Pong", 1, 0)?;
    let res = int(alloc, 1, 0)?;
    Ok(proto(alloc, named, Equation::Send(res, Some(next))))
}

fn pong(alloc: Global) -> Result<Proto, Memory>
    ensures { IfOk result (λ proto. proto_of proto ≡ spec.pong) }
{
    let named = named(alloc, b"Pong")?;
    let next = end(alloc, b"Ping", 1, -1)?;
    let res = int(alloc, 1, 0)?;
    Ok(proto(alloc, named, Equation::Recv(res, Some(next))))
}

fn twice(alloc: Global) -> Result<Proto, Memory>
    ensures { IfOk result (λ proto. proto_of proto ≡ spec.twice) }
{
    let ends = (end(alloc, b"Ping", 1, 0)?, end(alloc, b"Ping", 1, -1)?);
    branch(alloc, b"Twice", (1, 0), (0, 0), ends)
}

fn stop_ends(alloc: Global) -> Result<(Ref, Ref), Memory>
    ensures this { IfOk result (λ ends. ref_of ends.0 ≡ spec.stop_end) }
    ensures other { IfOk result (λ ends. ref_of ends.1 ≡ spec.stop_end) }
{
    Ok((stop_end(alloc)?, stop_end(alloc)?))
}

fn big(alloc: Global) -> Result<Proto, Memory>
    ensures { IfOk result (λ proto. proto_of proto ≡ spec.big) }
{
    let ends = stop_ends(alloc)?;
    branch(alloc, b"Big", (MOST, 0), (0, 0), ends)
}

fn wide(alloc: Global) -> Result<Proto, Memory>
    ensures { IfOk result (λ proto. proto_of proto ≡ spec.wide) }
{
    let ends = stop_ends(alloc)?;
    branch(alloc, b"Wide", (1, 0), (0, LEAST), ends)
}

fn far(alloc: Global) -> Result<Proto, Memory>
    ensures { IfOk result (λ proto. proto_of proto ≡ spec.far) }
{
    let ends = (end(alloc, b"Quiet", MOST, 0)?, stop_end(alloc)?);
    branch(alloc, b"Far", (1, 0), (0, 0), ends)
}

fn quiet(alloc: Global) -> Result<Proto, Memory>
    ensures { IfOk result (λ proto. proto_of proto ≡ spec.quiet) }
{
    let named = named(alloc, b"Quiet")?;
    Ok(proto(alloc, named, Equation::Close))
}

fn load(alloc: Global) -> Result<Proto, Memory>
    ensures { IfOk result (λ proto. proto_of proto ≡ spec.load) }
{
    let named = named(alloc, b"Load")?;
    let res = int(alloc, MOST, 0)?;
    Ok(proto(alloc, named, Equation::Send(res, None)))
}

fn rest(alloc: Global) -> Result<Proto, Memory>
    ensures { IfOk result (λ proto. proto_of proto ≡ spec.rest) }
{
    let named = named(alloc, b"Rest")?;
    Ok(proto(alloc, named, Equation::Wait))
}

/// `[k: 0 <= k, k <= n] int(k)`
fn asked(alloc: Global) -> Result<Res, Memory>
    ensures { IfOk result (λ res. res_of res ≡ spec.asked) }
{
    let bound = within(alloc)?;
    let term = bare(alloc, b"k")?;
    Ok(Res {
        bound,
        shape: Shape::Int(term),
    })
}

fn ask(alloc: Global) -> Result<Proto, Memory>
    ensures { IfOk result (λ proto. proto_of proto ≡ spec.ask) }
{
    let named = named(alloc, b"Ask")?;
    let next = stop_end(alloc)?;
    let res = asked(alloc)?;
    Ok(proto(alloc, named, Equation::Recv(res, Some(next))))
}

fn loops(alloc: Global) -> Result<Protos, Memory>
    ensures { IfOk result (λ protos. map proto_of protos ≡ spec.ping ∷ spec.go ∷ spec.pong ∷ spec.stop ∷ []) }
{
    let mut all = Protos::new(alloc);
    all.push(ping(alloc)?)?;
    all.push(go(alloc)?)?;
    all.push(pong(alloc)?)?;
    all.push(stop(alloc)?)?;
    Ok(all)
}

fn branches(alloc: Global) -> Result<Protos, Memory>
    ensures { IfOk result (λ protos. map proto_of protos ≡ spec.twice ∷ spec.big ∷ spec.wide ∷ spec.far ∷ []) }
{
    let mut all = Protos::new(alloc);
    all.push(twice(alloc)?)?;
    all.push(big(alloc)?)?;
    all.push(wide(alloc)?)?;
    all.push(far(alloc)?)?;
    Ok(all)
}

fn endings(alloc: Global) -> Result<Protos, Memory>
    ensures { IfOk result (λ protos. map proto_of protos ≡ spec.quiet ∷ spec.load ∷ spec.rest ∷ spec.ask ∷ []) }
{
    let mut all = Protos::new(alloc);
    all.push(quiet(alloc)?)?;
    all.push(load(alloc)?)?;
    all.push(rest(alloc)?)?;
    all.push(ask(alloc)?)?;
    Ok(all)
}

#[tactic(auto, using(std::proofs::lemmas::Grind::common_steps))]
pub(crate) fn protos(alloc: Global) -> Result<Protos, Memory>
    ensures { IfOk result (λ protos. map proto_of protos ≡ spec.examples) }
{
    let mut all = loops(alloc)?;
    all.append(branches(alloc)?)?;
    all.append(endings(alloc)?)?;
    Ok(all)
}

fn is_stop(name: &[u8]) -> bool
    ensures { result ≡ same name.now spec.Stop }
{
    name == b"Stop".as_slice()
}

/// An end of a protocol that has one parameter.
pub(crate) fn from(alloc: Global, dual: bool, name: &[u8], at: (i64, i64)) -> Result<Ref, Memory>
    ensures { IfOk result (λ end. HasArity spec.examples (ref_of end)) }
{
    if is_stop(name) {
        return Err(Memory);
    }
    let mut from = end(alloc, name, at.0, at.1)?;
    from.dual = dual;
    Ok(from)
}
