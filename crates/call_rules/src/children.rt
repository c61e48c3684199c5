//! Functions that may be forked, and the end with which a child begins.
ghost use Rattle.std.specs.Prelude.{◌≡◌, All, Ok, Err, IfOk, IfErr};
ghost use Rattle.std.specs.Option.{option_map};
ghost use Rattle.chan_syntax.specs.Bounds.{IsBounded};
ghost use Rattle.outline_language.specs.Nameless.{End, dual_ref};
ghost use Rattle.outline_language.specs.Contexts as context;
ghost use Rattle.outline_language.specs.Rules as spec;
ghost use Rattle.nameless_shapes.specs.Parts.{ref_of};
ghost use Rattle.outline_obligations.specs.Reasons.{IsReason, why_of};
ghost use Rattle.function_headers.specs.Reading.{header_of};
ghost use Rattle.value_supplies.specs.Reading.{given_at};
ghost use Rattle.call_rules.specs.Headed.{fork_form_of};
ghost use Rattle.call_rules.specs.Reading.{beginning_of};

use chan_base::Memory;
use chan_syntax::Proof;
use function_headers::Header;
use nameless_forms::Form;
use nameless_shapes::{Node, Ref, Shape};
use outline_contexts::Context;
use outline_obligations::{ContextFault, Taken, Why};
use shape_instances::put_in_shape;
use std::alloc::Global;
use value_supplies::accept;

/// The end that a forked function begins with, and the shapes of its other parameters.
#[derive(Clone, Copy)]
pub(crate) struct Beginning<'a> {
    pub end: &'a Ref,
    pub shapes: &'a [Shape],
}

/// The end, where the shape is one.
pub(crate) fn end_of(shape: &Shape) -> Option<&Ref>
    ensures { option_map (λ end. ref_of end.now) result ≡ spec.end_of shape.now }
{
    match shape.get() {
        Node::End(end) => Some(end),
        _ => None,
    }
}

fn first_end(shapes: &[Shape]) -> Option<Beginning<'_>>
    ensures { option_map beginning_of result ≡ spec.first_end shapes.now }
{
    match shapes.split_first() {
        None => None,
        Some((first, others)) => match end_of(first) {
            Some(end) => Some(Beginning {
                end,
                shapes: others,
            }),
            None => None,
        },
    }
}

/// A function may be forked where it gives back the unit and begins with an end: else ForkForm.
pub(crate) fn fork_form(header: &Header) -> Result<Beginning<'_>, Why>
    ensures ok { IfOk result (λ beginning. fork_form_of (header_of header.now) ≡ Ok (beginning_of beginning)) }
    ensures err { IfErr result (λ why. fork_form_of (header_of header.now) ≡ Err (why_of why)) }
{
    if !header.gives_unit {
        return Err(Why::ForkForm);
    }
    match first_end(header.shapes.as_slice()) {
        Some(beginning) => Ok(beginning),
        None => Err(Why::ForkForm),
    }
}

/// The other end of the channel.
fn dual_end(alloc: Global, end: &Ref) -> Result<Shape, Memory>
    ensures { IfOk result (λ shape. shape ≡ End (dual_ref (ref_of end.now))) }
{
    let end = end.copy(alloc)?;
    Shape::end(
        alloc,
        Ref {
            dual: !end.dual,
            name: end.name,
            args: end.args,
        },
    )
}

/// The shape of the first parameter, with the instances.
fn first_asked(alloc: Global, forms: &[Form], first: &Ref) -> Result<Shape, ContextFault>
    ensures ok { IfOk result (λ asked. context.put_in_shape forms.now (End (ref_of first.now)) ≡ Ok asked) }
    ensures err { IfErr result (IsReason (context.put_in_shape forms.now (End (ref_of first.now)))) }
{
    let first = Shape::end(alloc, first.copy(alloc)?)?;
    let asked = put_in_shape(alloc, forms, &first)?;
    Ok(asked)
}

/// The child's end at the first parameter: the dual of the parent's.
pub(crate) fn give_end(
    alloc: Global,
    ctx: &Context,
    forms: &[Form],
    own: &Ref,
    first: &Ref,
    proof: &Proof,
    taken: Taken,
) -> Result<Taken, ContextFault>
    requires { All IsBounded proof.now.certs }
    ensures ok { IfOk result (λ after. spec.give_end forms.now (dual_ref (ref_of own.now)) (ref_of first.now) (given_at ctx.now proof.now taken) ≡ Ok (given_at ctx.now proof.now after)) }
    ensures err { IfErr result (IsReason (spec.give_end forms.now (dual_ref (ref_of own.now)) (ref_of first.now) (given_at ctx.now proof.now taken))) }
{
    let end = dual_end(alloc, own)?;
    let asked = first_asked(alloc, forms, first)?;
    let taken = accept(alloc, ctx, &end, &asked, proof, taken)?;
    Ok(taken)
}
