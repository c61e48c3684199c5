//! A function at its values.
ghost use Rattle.std.specs.Prelude.{◌≡◌, ◌<◌, List, map, length, IfOk, IfSome};
ghost use Rattle.core_language.specs.Configurations.{Caller};
ghost use Rattle.core_language.specs.Acts.{params_env};
ghost use Rattle.core_programs.specs.Bodies.{param_of};
ghost use Rattle.machine_values.specs.Cells.{EndTest};
ghost use Rattle.machine_values.specs.Ends.{BindsPass, ValuesPass};
ghost use Rattle.machine_values.specs.Reading.{env_of, value_as};
ghost use Rattle.machine_tasks.specs.Ends.{FramePasses};
ghost use Rattle.machine_tasks.specs.Moving.{above};
ghost use Rattle.machine_tasks.specs.Steps.{called};

use crate::moving::keep;
use crate::tasks::Frame;
use chan_base::Memory;
use chan_syntax::{Ident, Param};
use core_programs::Program;
use machine_values::{Bind, Binds, Values};
use std::alloc::Global;

/// The parameters with their values.
fn bind_params(alloc: Global, params: &[Param], values: Values) -> Result<Binds, Memory>
    ensures binds { IfOk result (λ binds. env_of binds.items ≡ params_env (map param_of params.now) (map value_as values.items)) }
    ensures ends { IfOk result (λ binds. (test : EndTest) → ValuesPass test values.items → BindsPass test binds.items) }
{
    let mut binds = Vec::new(alloc);
    'values: for value in values {
        let Some(param) = params.get(binds.len()) else {
            return Ok(binds);
        };
        let name = param.name.copy()?;
        binds.push(Bind { name, value })?;
    }
    Ok(binds)
}

/// The frame at the beginning of the function, or None where no function has the name.
pub(crate) fn enter(
    alloc: Global,
    program: &Program,
    func: &Ident,
    values: Values,
) -> Result<Option<Frame>, Memory>
    ensures entered { IfOk result (λ frame. (callers : List Caller)
        → called program.now func.now values.items callers ≡ above program.now.nodes frame callers) }
    ensures stands { IfOk result (λ frame. IfSome frame (λ f. f.node < length program.now.nodes)) }
    ensures ends { IfOk result (λ frame. (test : EndTest) → ValuesPass test values.items → IfSome frame (FramePasses test)) }
{
    match program.func(func) {
        Some(function) => {
            let mut binds = bind_params(alloc, function.params.as_slice(), values)?;
            keep(program, &mut binds, function.first);
            Ok(Some(Frame {
                node: function.first,
                binds,
            }))
        }
        None => Ok(None),
    }
}
