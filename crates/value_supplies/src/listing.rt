//! Values at the shapes of parameters.
ghost use Rattle.std.specs.Prelude.{◌≡◌, map, All, Ok, IfOk, IfErr};
ghost use Rattle.chan_syntax.specs.Bounds.{IsBounded};
ghost use Rattle.chan_syntax.specs.Reading.{supply_of};
ghost use Rattle.outline_language.specs.Giving as spec;
ghost use Rattle.outline_obligations.specs.Reasons.{IsReason};
ghost use Rattle.outline_contexts.specs.Trails.{IsAfter};
ghost use Rattle.value_supplies.specs.Reading.{given_at};
ghost use Rattle.value_supplies.specs.Asking.{give_with};

use crate::giving::give_shape;
use chan_syntax::{Proof, Supply};
use nameless_forms::Form;
use nameless_shapes::Shape;
use outline_contexts::Context;
use outline_obligations::{ContextFault, Taken, Why};
use shape_instances::put_in_shape;
use std::alloc::Global;

/// A value at a shape in which instances stand for the binders around.
fn give_put(
    alloc: Global,
    ctx: &mut Context,
    forms: &[Form],
    value: &Supply,
    shape: &Shape,
    proof: &Proof,
    taken: Taken,
) -> Result<Taken, ContextFault>
    requires { All IsBounded proof.now.certs }
    ensures ok { IfOk result (λ after. give_with forms.now (supply_of value.now) shape.now (given_at ctx.old proof.now taken) ≡ Ok (given_at ctx.new proof.now after)) }
    ensures err { IfErr result (IsReason (give_with forms.now (supply_of value.now) shape.now (given_at ctx.old proof.now taken))) }
    ensures after { IsAfter ctx.old ctx.new }
{
    let asked = put_in_shape(alloc, forms, shape)?;
    give_shape(alloc, ctx, value, &asked, proof, taken)
}

/// Each value at the shape of its parameter, in order, with the instances of a function's binders put
/// in just before. WrongForm, at the end, where values and shapes differ in number.
pub fn give_all(
    alloc: Global,
    ctx: &mut Context,
    forms: &[Form],
    values: &[Supply],
    shapes: &[Shape],
    proof: &Proof,
    taken: Taken,
) -> Result<Taken, ContextFault>
    requires certs { All IsBounded proof.now.certs }
    ensures ok { IfOk result (λ after. spec.give_all forms.now (map supply_of values.now) shapes.now (given_at ctx.old proof.now taken) ≡ Ok (given_at ctx.new proof.now after)) }
    ensures err { IfErr result (IsReason (spec.give_all forms.now (map supply_of values.now) shapes.now (given_at ctx.old proof.now taken))) }
    ensures after { IsAfter ctx.old ctx.new }
{
    let mut now = taken;
    for index in 0..values.len().min(shapes.len()) {
        now = give_put(
            alloc,
            ctx,
            forms,
            &values[index],
            &shapes[index],
            proof,
            now,
        )?;
    }
    if values.len() != shapes.len() {
        return Err(ContextFault::Why(Why::WrongForm));
    }
    Ok(now)
}
