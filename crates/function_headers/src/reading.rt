//! Headers, read without the names of their binders.
ghost use Rattle.std.specs.Prelude.{◌≡◌, [], map, IfOk, IfErr};
ghost use Rattle.std.specs.List.{list_all};
ghost use Rattle.chan_syntax.specs.Reading.{res_of};
ghost use Rattle.core_programs.specs.Bodies.{param_of, function_of};
ghost use Rattle.outline_language.specs.Nameless.{shape_fits};
ghost use Rattle.outline_language.specs.Rules.{is_bare_unit};
ghost use Rattle.nameless_shapes.specs.Formed.{TellsMisfit};
ghost use Rattle.function_headers.specs.Headers.{shape_read, header_read, header_fits};
ghost use Rattle.function_headers.specs.Reading.{header_of};

use crate::headers::{Header, Headers, Shapes};
use chan_syntax::{Ident, Param, Res, Shape as Written};
use core_programs::Func;
use nameless_forms::FormFault;
use shape_readings::{nameless_limits, nameless_res, nameless_shape};
use sqlite_items::Items;
use std::alloc::Global;

fn gives_unit(res: &Res) -> bool
    ensures { result ≡ is_bare_unit (res_of res.now) }
{
    match &res.shape {
        Written::Unit => res.bound.names.is_empty() && res.bound.limits.is_empty(),
        _ => false,
    }
}

fn read_shapes(alloc: Global, names: &[Ident], params: &[Param]) -> Result<Shapes, FormFault>
    ensures ok { IfOk result (λ shapes. shapes ≡ map (shape_read names.now) (map param_of params.now)) }
    ensures err { IfErr result (TellsMisfit (list_all shape_fits (map (shape_read names.now) (map param_of params.now)))) }
{
    let mut shapes = Items::new(alloc);
    for param in params {
        shapes.push(nameless_shape(alloc, &[], names, &param.shape)?)?;
    }
    Ok(shapes)
}

fn read_header(alloc: Global, func: &Func) -> Result<Header, FormFault>
    ensures ok { IfOk result (λ header. header_of header ≡ header_read (function_of [] func.now)) }
    ensures err { IfErr result (TellsMisfit (header_fits (header_read (function_of [] func.now)))) }
{
    let name = func.name.copy()?;
    let names = func.bound.names.as_slice();
    let limits = nameless_limits(alloc, &[], names, func.bound.limits.as_slice())?;
    let shapes = read_shapes(alloc, names, func.params.as_slice())?;
    let result = nameless_res(alloc, &[], names, &func.result)?;
    Ok(Header {
        name,
        binders: names.len(),
        limits,
        shapes,
        result,
        gives_unit: gives_unit(&func.result),
    })
}

pub(crate) fn read_headers(alloc: Global, funcs: &[Func]) -> Result<Headers, FormFault>
    ensures ok { IfOk result (λ headers. map header_of headers ≡ map header_read (map (function_of []) funcs.now)) }
    ensures err { IfErr result (TellsMisfit (list_all header_fits (map header_read (map (function_of []) funcs.now)))) }
{
    let mut headers = Items::new(alloc);
    for func in funcs {
        headers.push(read_header(alloc, func)?)?;
    }
    Ok(headers)
}
