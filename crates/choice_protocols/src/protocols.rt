//! Single protocols that are made.
ghost use Rattle.std.specs.Prelude.{◌≡◌, ◌<◌, ◌^◌, ◌++◌, ◌∷◌, [], IfOk};
ghost use Rattle.session_lowering.specs.Choices as spec;

use crate::numbers::{bit, bit_res, bit_term, index_term};
use chan_base::{Memory, Span, Spans};
use chan_syntax::{
    Equation, Ident, Idents, Proto, Ref, Res, SurfaceProto, Terms, copy_names, copy_spans,
};
use made_names::name_term;
use sqlite_items::Items;
use std::alloc::Global;

/// The parameters as arguments, at the places of their names, and then the number.
fn params_and_bit(
    alloc: Global,
    span: Span,
    params: &[Ident],
    spans: &[Span],
) -> Result<Terms, Memory>
    ensures { IfOk result (λ args. args ≡ spec.params_and_bit span params.now spans.now) }
{
    let mut args = Items::new(alloc);
    let mut index = 0;
    'params: while index < params.len() && index < spans.len() {
        args.push(name_term(alloc, span, &params[index], spans[index])?)?;
        index += 1;
    }
    args.push(bit_term(alloc, span)?)?;
    Ok(args)
}

/// The protocol of this name at the parameters and the number.
pub(crate) fn goes_on(
    alloc: Global,
    proto: &SurfaceProto,
    name: &Ident,
    at: Span,
) -> Result<Ref, Memory>
    ensures { IfOk result (λ made. made ≡ spec.goes_on proto.now name.now at) }
{
    let name = name.copy()?;
    let args = params_and_bit(
        alloc,
        proto.span,
        proto.params.as_slice(),
        proto.params_spans.as_slice(),
    )?;
    Ok(Ref {
        dual: false,
        name,
        name_span: at,
        args,
        span: at,
    })
}

fn sent_or_received(offer: bool, res: Res, next: Ref) -> Equation
    ensures { result ≡ spec.sent_or_received offer res next }
{
    if offer {
        Equation::Recv(res, Some(next))
    } else {
        Equation::Send(res, Some(next))
    }
}

/// `P(x..) = send [b.0: 0 <= b.0, b.0 <= k] int(b.0) then Q(x.., b.0)`, or `recv` where it is offered.
pub(crate) fn choosing(
    alloc: Global,
    proto: &SurfaceProto,
    offer: bool,
    next: &Ident,
    at: Span,
    most: usize,
) -> Result<Proto, Memory>
    requires { most < 2 ^ 63 }
    ensures { IfOk result (λ made. made ≡ spec.choosing proto.now offer next.now at most) }
{
    let name = proto.name.copy()?;
    let params = copy_names(alloc, &proto.params)?;
    let params_spans = copy_spans(alloc, &proto.params_spans)?;
    let next = goes_on(alloc, proto, next, at)?;
    let res = bit_res(alloc, proto.span, most)?;
    Ok(Proto {
        name,
        name_span: proto.name_span,
        params,
        params_spans,
        equation: sent_or_received(offer, res, next),
        span: proto.span,
    })
}

/// The names of the parameters, and then that of the number.
fn names_and_bit(alloc: Global, names: &Idents) -> Result<Idents, Memory>
    ensures { IfOk result (λ all. all ≡ names.now ++ spec.bit ∷ []) }
{
    let mut all = copy_names(alloc, names)?;
    all.push(bit(alloc)?)?;
    Ok(all)
}

fn spans_and_one(alloc: Global, spans: &Spans, span: Span) -> Result<Spans, Memory>
    ensures { IfOk result (λ all. all ≡ spans.now ++ span ∷ []) }
{
    let mut all = copy_spans(alloc, spans)?;
    all.push(span)?;
    Ok(all)
}

/// `Q.i(x.., b.0) = if b.0 <= i then E else F`, where F is made.
pub(crate) fn turn(
    alloc: Global,
    proto: &SurfaceProto,
    name: &Ident,
    at: Span,
    index: usize,
    this: &Ref,
    other: Ref,
) -> Result<Proto, Memory>
    requires { index < 2 ^ 63 }
    ensures { IfOk result (λ made. made ≡ spec.turn proto.now name.now at index this.now other) }
{
    let name = name.copy()?;
    let params = names_and_bit(alloc, &proto.params)?;
    let params_spans = spans_and_one(alloc, &proto.params_spans, proto.span)?;
    let left = bit_term(alloc, proto.span)?;
    let right = index_term(alloc, proto.span, index)?;
    let this = this.copy(alloc)?;
    Ok(Proto {
        name,
        name_span: at,
        params,
        params_spans,
        equation: Equation::Branch(left, right, this, other),
        span: proto.span,
    })
}

pub(crate) fn plain(
    alloc: Global,
    proto: &SurfaceProto,
    equation: &Equation,
) -> Result<Proto, Memory>
    ensures { IfOk result (λ made. made ≡ spec.plain proto.now equation.now) }
{
    let name = proto.name.copy()?;
    let params = copy_names(alloc, &proto.params)?;
    let params_spans = copy_spans(alloc, &proto.params_spans)?;
    let equation = equation.copy(alloc)?;
    Ok(Proto {
        name,
        name_span: proto.name_span,
        params,
        params_spans,
        equation,
        span: proto.span,
    })
}
