//! Duals of references and of protocols.
ghost use Rattle.std.specs.Prelude.{◌≡◌, IfOk};
ghost use Rattle.std.specs.Option.{option_map};
ghost use Rattle.core_language.specs.Resources.{Send, Recv};
ghost use Rattle.chan_syntax.specs.declared.resources.Equation.TheVariants as form;
ghost use Rattle.chan_syntax.specs.Reading.{term_of, ref_of, res_of, equation_of, proto_of};
ghost use Rattle.outline_language.specs.Equations.{dual_written};
ghost use Rattle.protocols.specs.Duals as spec;
ghost use Rattle.protocols.specs.Settings.{branch_of};
ghost use Rattle.protocols.specs.Places.{other_end, other_equation, other_proto};

use chan_base::Memory;
use chan_syntax::{Equation, Proto, Ref, Res, Term, copy_names, copy_spans};
use std::alloc::Global;

pub fn dual_ref(alloc: Global, from: &Ref) -> Result<Ref, Memory>
    ensures dual { IfOk result (λ dual. ref_of dual ≡ dual_written (ref_of from.now)) }
    ensures places { IfOk result (λ dual. dual ≡ other_end from.now) }
{
    let mut dual = from.copy(alloc)?;
    dual.dual = !dual.dual;
    Ok(dual)
}

/// The dual of what follows a message, where something does.
fn dual_next(alloc: Global, next: &Option<Ref>) -> Result<Option<Ref>, Memory>
    ensures dual { IfOk result (λ dual. option_map ref_of dual ≡ option_map dual_written (option_map ref_of next.now)) }
    ensures places { IfOk result (λ dual. dual ≡ option_map other_end next.now) }
{
    match next {
        Some(next) => Ok(Some(dual_ref(alloc, next)?)),
        None => Ok(None),
    }
}

fn dual_send(alloc: Global, res: &Res, next: &Option<Ref>) -> Result<Equation, Memory>
    ensures dual { IfOk result (λ dual. equation_of dual ≡ spec.dual_equation (Send (res_of res.now) (option_map ref_of next.now))) }
    ensures places { IfOk result (λ dual. dual ≡ other_equation (form.Send res.now next.now)) }
{
    let next = dual_next(alloc, next)?;
    Ok(Equation::Recv(res.copy(alloc)?, next))
}

fn dual_recv(alloc: Global, res: &Res, next: &Option<Ref>) -> Result<Equation, Memory>
    ensures dual { IfOk result (λ dual. equation_of dual ≡ spec.dual_equation (Recv (res_of res.now) (option_map ref_of next.now))) }
    ensures places { IfOk result (λ dual. dual ≡ other_equation (form.Recv res.now next.now)) }
{
    let next = dual_next(alloc, next)?;
    Ok(Equation::Send(res.copy(alloc)?, next))
}

fn dual_branch(
    alloc: Global,
    left: &Term,
    right: &Term,
    this: &Ref,
    other: &Ref,
) -> Result<Equation, Memory>
    ensures dual { IfOk result (λ dual. equation_of dual ≡ spec.dual_equation (branch_of left.now right.now this.now other.now)) }
    ensures places { IfOk result (λ dual. dual ≡ other_equation (form.Branch left.now right.now this.now other.now)) }
{
    Ok(Equation::Branch(
        left.copy(alloc)?,
        right.copy(alloc)?,
        dual_ref(alloc, this)?,
        dual_ref(alloc, other)?,
    ))
}

pub(crate) fn dual_equation(alloc: Global, equation: &Equation) -> Result<Equation, Memory>
    ensures dual { IfOk result (λ dual. equation_of dual ≡ spec.dual_equation (equation_of equation.now)) }
    ensures places { IfOk result (λ dual. dual ≡ other_equation equation.now) }
{
    match equation {
        Equation::Send(res, next) => dual_send(alloc, res, next),
        Equation::Recv(res, next) => dual_recv(alloc, res, next),
        Equation::Close => Ok(Equation::Wait),
        Equation::Wait => Ok(Equation::Close),
        Equation::Branch(left, right, this, other) => dual_branch(alloc, left, right, this, other),
    }
}

/// The protocol of the other end, under the same name.
pub fn dual(alloc: Global, proto: &Proto) -> Result<Proto, Memory>
    ensures dual { IfOk result (λ dual. proto_of dual ≡ spec.dual_proto (proto_of proto.now)) }
    ensures places { IfOk result (λ dual. dual ≡ other_proto proto.now) }
{
    Ok(Proto {
        name: proto.name.copy()?,
        name_span: proto.name_span,
        params: copy_names(alloc, &proto.params)?,
        params_spans: copy_spans(alloc, &proto.params_spans)?,
        equation: dual_equation(alloc, &proto.equation)?,
        span: proto.span,
    })
}
