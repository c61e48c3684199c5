//! The context in which the function of a text begins.
ghost use Rattle.std.specs.Prelude.{◌≤◌, length};

use chan_syntax::{Ident, Limit, Param, SurfaceFunc};
use outline_contexts::Context;
use outline_obligations::ContextFault;
use shape_readings::{nameless_limits, nameless_shape};
use std::alloc::Global;

/// The limits as hypotheses, each of them read as `<=`.
fn assume(
    alloc: Global,
    ctx: &mut Context,
    ints: &[Ident],
    limits: &[Limit],
) -> Result<(), ContextFault>
    requires { length ints.now ≤ 256 }
{
    let limits = nameless_limits(alloc, ints, &[], limits)?;
    for limit in limits.as_slice() {
        ctx.assume_at_most(alloc, &limit.left, &limit.right)?;
    }
    Ok(())
}

fn hold(
    alloc: Global,
    ctx: &mut Context,
    ints: &[Ident],
    params: &[Param],
) -> Result<(), ContextFault>
    requires { length ints.now ≤ 256 }
{
    for param in params {
        let shape = nameless_shape(alloc, ints, &[], &param.shape)?;
        ctx.hold(&param.name, shape)?;
    }
    Ok(())
}

/// Binders, limits that are all `<=`, and parameters.
pub(crate) fn context(alloc: Global, func: &SurfaceFunc) -> Result<Context, ContextFault> {
    let ints = func.bound.names.as_slice();
    if ints.len() > 256 {
        return Err(ContextFault::Memory);
    }
    let mut ctx = Context::new(alloc);
    ctx.add_ints(ints)?;
    assume(alloc, &mut ctx, ints, func.bound.limits.as_slice())?;
    hold(alloc, &mut ctx, ints, func.params.as_slice())?;
    Ok(ctx)
}
