//! Values that the function of a text gives.
use crate::bounds::are_bounded;
use chan_base::Memory;
use chan_syntax::{Decl, Ident, Param, Proof, Res, Supply, SurfaceFunc};
use nameless_shapes::Shape;
use outline_contexts::Context;
use outline_instances::instances;
use outline_obligations::{ContextFault, Taken};
use shape_readings::{nameless_limits, nameless_res, nameless_shape};
use std::alloc::Global;
use value_supplies::{give, give_all};

/// The value at the resource.
pub(crate) fn given(
    alloc: Global,
    ctx: &mut Context,
    ints: &[Ident],
    value: &Supply,
    res: &Res,
    proof: &Proof,
) -> Result<Taken, ContextFault> {
    if ints.len() > 256 || !are_bounded(proof.certs.as_slice()) {
        return Err(ContextFault::Memory);
    }
    let res = nameless_res(alloc, ints, &[], res)?;
    give(alloc, ctx, value, &res, proof, Taken::none())
}

fn push(shapes: &mut Vec<Shape>, shape: Shape) -> Result<(), Memory> {
    shapes.push(shape)?;
    Ok(())
}

fn shapes_of(
    alloc: Global,
    around: &[Ident],
    params: &[Param],
) -> Result<Vec<Shape>, ContextFault> {
    let mut shapes = Vec::new(alloc);
    for param in params {
        let shape = nameless_shape(alloc, &[], around, &param.shape)?;
        push(&mut shapes, shape)?;
    }
    Ok(shapes)
}

/// Instances for the binders of a function, and then the values at its parameters.
pub(crate) fn passed(
    alloc: Global,
    ctx: &mut Context,
    func: &SurfaceFunc,
    values: &[Supply],
    proof: &Proof,
) -> Result<Taken, ContextFault> {
    if !are_bounded(proof.certs.as_slice()) {
        return Err(ContextFault::Memory);
    }
    let around = func.bound.names.as_slice();
    let limits = nameless_limits(alloc, &[], around, func.bound.limits.as_slice())?;
    let shapes = shapes_of(alloc, around, func.params.as_slice())?;
    let supplied = instances(
        alloc,
        ctx,
        around.len(),
        limits.as_slice(),
        proof,
        Taken::none(),
    )?;
    let forms = supplied.forms.as_slice();
    give_all(
        alloc,
        ctx,
        forms,
        values,
        shapes.as_slice(),
        proof,
        supplied.taken,
    )
}

/// The function with this name.
pub(crate) fn named<'a>(decls: &'a [Decl], name: &Ident) -> Option<&'a SurfaceFunc> {
    for decl in decls {
        if let Decl::Func(func) = decl {
            if func.name == *name {
                return Some(func);
            }
        }
    }
    None
}
