//! The message of an end.
ghost use Rattle.std.specs.Prelude.{◌≡◌, ◌++◌, ◌∷◌, [], List, true, length, map, Some, IfOk, IfErr};
ghost use Rattle.std.specs.Option.{option_map};
ghost use Rattle.core_language.specs.Names.{Ident as Name};
ghost use Rattle.core_language.specs.Resources.{Pair, End};
ghost use Rattle.outline_language.specs.Equations.{no_bound, bare, with_end, dual_written, proto_named};
ghost use Rattle.linear_forms.specs.Substitution.{AllFit, IsSubst, terms_of_res};
ghost use Rattle.chan_syntax.specs.Reading.{term_of, ref_of, bound_of, shape_of, res_of, equation_of, proto_of};
ghost use Rattle.substitution.specs.declared.faults.SubstFault.TheVariants as cause;
ghost use Rattle.protocols.specs.Duals as duals;
ghost use Rattle.protocols.specs.Heads as heads;
ghost use Rattle.protocols.specs.Unfolding.{stops, HasArity, HasFormed, IsMessageTooLarge};
ghost use Rattle.protocols.specs.Settings.{put_as};
ghost use Rattle.protocols.specs.HeadsOf.{message_in, direction_of, resource_of};
ghost use Rattle.protocols.specs.Places.{bare_bound, other_end, pieces_of_pair, pieces_with_end, pieces_of_message, pieces_of_head, IsHeadPlaced};
ghost use Rattle.substitution.specs.Places.{Binders, ArePlaced, pieces_of_ref, pieces_of_shape, pieces_of_res};

use crate::duals::dual_equation;
use crate::paths::proto_named;
use chan_base::{Memory, Spans};
use chan_syntax::{Bound, Equation, Idents, Limits, Proto, Ref, Res, Shape, Terms};
use sqlite_items::Boxed;
use std::alloc::Global;
use substitution::{SubstFault, subst};

/// What an end does next: it sends a resource, or receives one.
#[derive(Drop)]
pub enum Head {
    Send(Res),
    Recv(Res),
}

fn no_bound(alloc: Global) -> Bound
    ensures read { bound_of result ≡ no_bound }
    ensures places { result ≡ bare_bound }
{
    Bound {
        names: Idents::new(alloc),
        names_spans: Spans::new(alloc),
        limits: Limits::new(alloc),
    }
}

fn bare(alloc: Global, shape: Shape) -> Res
    ensures read { res_of result ≡ bare (shape_of shape) }
    ensures places { (binders : List Name) → pieces_of_res binders result ≡ Binders [] ∷ pieces_of_shape binders shape }
{
    Res {
        bound: no_bound(alloc),
        shape,
    }
}

/// A pair of a shape and the end at which the receiver goes on.
#[tactic(auto, using(crate::proofs::Forming::pair_of))]
fn paired(alloc: Global, shape: Shape, next: Ref) -> Result<Shape, Memory>
    ensures read { IfOk result (λ pair. shape_of pair ≡ Pair (bare (shape_of shape)) (bare (End (ref_of next)))) }
    ensures places { IfOk result (λ pair. (binders : List Name) → pieces_of_shape binders pair ≡ pieces_of_pair binders shape next) }
{
    let first = Boxed::new(alloc, bare(alloc, shape))?;
    let second = Boxed::new(alloc, bare(alloc, Shape::End(next)))?;
    Ok(Shape::Pair(first, second))
}

/// A resource, with the end at which the receiver goes on where there is one.
fn with_end(alloc: Global, res: Res, next: Option<Ref>) -> Result<Res, Memory>
    ensures read { IfOk result (λ all. res_of all ≡ with_end (res_of res) (option_map ref_of next)) }
    ensures places { IfOk result (λ all. pieces_of_res [] all ≡ pieces_with_end res next) }
{
    match next {
        None => Ok(res),
        Some(next) => Ok(Res {
            bound: res.bound,
            shape: paired(alloc, res.shape, next)?,
        }),
    }
}

/// The equation of a protocol, or that of its dual.
#[tactic(auto, using(crate::proofs::Placing::message_of_other))]
fn equation_of_end(alloc: Global, dual: bool, proto: &Proto) -> Result<Equation, Memory>
    ensures read { IfOk result (λ equation. equation_of equation ≡ heads.equation_of_end dual (proto_of proto.now)) }
    ensures places { IfOk result (λ equation. pieces_of_message equation ≡ pieces_of_message proto.now.equation) }
{
    if dual {
        let other = dual_equation(alloc, &proto.equation)?;
        return Ok(other);
    }
    let same = proto.equation.copy(alloc)?;
    Ok(same)
}

/// What follows a message, with the other mark.
fn other_next(next: Option<Ref>) -> Option<Ref>
    ensures dual { option_map ref_of result ≡ option_map dual_written (option_map ref_of next) }
    ensures places { result ≡ option_map other_end next }
{
    match next {
        Some(next) => Some(Ref {
            dual: !next.dual,
            ..next
        }),
        None => None,
    }
}

/// The message of an equation that isn't `if`.
#[tactic(auto, using(crate::proofs::Placing::with_other_end))]
fn message_of(alloc: Global, equation: Equation) -> Result<Option<Head>, Memory>
    ensures read { IfOk result (λ head. option_map message_in head ≡ duals.message_of (equation_of equation)) }
    ensures places { IfOk result (λ head. option_map pieces_of_head head ≡ pieces_of_message equation) }
{
    match equation {
        Equation::Send(res, next) => {
            let res = with_end(alloc, res, other_next(next))?;
            Ok(Some(Head::Send(res)))
        }
        Equation::Recv(res, next) => Ok(Some(Head::Recv(with_end(alloc, res, next)?))),
        Equation::Close => Ok(Some(Head::Send(bare(alloc, Shape::Unit)))),
        Equation::Wait => Ok(Some(Head::Recv(bare(alloc, Shape::Unit)))),
        Equation::Branch(..) => Ok(None),
    }
}

/// A resource in which arguments stand for parameters.
fn put_in(alloc: Global, res: Res, params: &Idents, args: &Terms) -> Result<Res, SubstFault>
    requires { length args.now ≡ length params.now }
    ensures places { IfOk result (λ put. ArePlaced params.now args.now (pieces_of_res [] res) (pieces_of_res [] put)) }
    ensures ok { IfOk result (λ put. IsSubst (put_as params.now args.now) (res_of res) (res_of put)) }
    ensures err { IfErr result (λ fault. fault ≡ cause.TooLarge → AllFit (put_as params.now args.now) (terms_of_res [] (res_of res)) → ⊥) }
{
    subst(alloc, &res, params, args)
}

/// A message in which arguments stand for parameters.
fn formed(alloc: Global, message: Head, params: &Idents, args: &Terms) -> Result<Head, SubstFault>
    requires { length args.now ≡ length params.now }
    ensures direction { IfOk result (λ head. direction_of head ≡ direction_of message) }
    ensures places { IfOk result (λ head. ArePlaced params.now args.now (pieces_of_head message) (pieces_of_head head)) }
    ensures res { IfOk result (λ head. IsSubst (put_as params.now args.now) (resource_of message) (resource_of head)) }
    ensures err { IfErr result (λ fault. fault ≡ cause.TooLarge → AllFit (put_as params.now args.now) (terms_of_res [] (resource_of message)) → ⊥) }
{
    match message {
        Head::Send(res) => {
            let res = put_in(alloc, res, params, args)?;
            Ok(Head::Send(res))
        }
        Head::Recv(res) => {
            let res = put_in(alloc, res, params, args)?;
            Ok(Head::Recv(res))
        }
    }
}

/// The head of an end whose equation isn't `if`.
pub(crate) fn head_of(alloc: Global, protos: &[Proto], end: &Ref) -> Result<Head, SubstFault>
    requires stops { stops (proto_named end.now.name (map proto_of protos.now)) ≡ true }
    requires arity { HasArity (map proto_of protos.now) (ref_of end.now) }
    ensures ok { IfOk result (λ head. HasFormed (map proto_of protos.now) (ref_of end.now) (direction_of head) (resource_of head)) }
    ensures places { IfOk result (IsHeadPlaced protos.now end.now) }
    ensures err { IfErr result (λ fault. fault ≡ cause.TooLarge → IsMessageTooLarge (map proto_of protos.now) (ref_of end.now)) }
{
    let Some(proto) = proto_named(protos, &end.name) else {
        unreachable!();
    };
    let equation = equation_of_end(alloc, end.dual, proto)?;
    match message_of(alloc, equation)? {
        Some(message) => {
            let head = formed(alloc, message, &proto.params, &end.args)?;
            Ok(head)
        }
        None => unreachable!(),
    }
}
