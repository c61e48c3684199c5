//! What is read of a program before its bodies are walked.
ghost use Rattle.std.specs.Prelude.{◌≡◌, [], map, IfOk};
ghost use Rattle.core_programs.specs.Bodies.{program_of, function_of};
ghost use Rattle.core_programs.specs.Form.{IsFormed};
ghost use Rattle.outline_language.specs.Outlined as spec;
ghost use Rattle.narrow_headers.specs.Narrow.{IsNarrowHeader};
ghost use Rattle.function_headers.specs.Headers.{header_read};
ghost use Rattle.protocol_tables.specs.Protocols.{protocol_read};

use chan_base::Memory;
use core_programs::{Func, Parts};
use function_headers::HeaderTable;
use nameless_forms::FormFault;
use nameless_shapes::Resource;
use protocol_tables::ProtocolTable;
use shape_readings::nameless_res;
use std::alloc::Global;

pub(crate) fn read_headers(alloc: Global, parts: &Parts) -> Result<HeaderTable, Memory>
    requires { IsFormed parts.now }
    ensures { IfOk result (λ table. table ≡ map header_read (program_of parts.now).funcs) }
{
    match HeaderTable::new(alloc, parts.funcs.as_slice()) {
        Ok(table) => Ok(table),
        Err(FormFault::TooLarge) => unreachable!(),
        Err(FormFault::Memory) => Err(Memory),
    }
}

pub(crate) fn read_protocols(alloc: Global, parts: &Parts) -> Result<ProtocolTable, Memory>
    requires { IsFormed parts.now }
    ensures { IfOk result (λ table. table ≡ map protocol_read (program_of parts.now).protos) }
{
    match ProtocolTable::new(alloc, parts.protos.as_slice()) {
        Ok(table) => Ok(table),
        Err(FormFault::TooLarge) => unreachable!(),
        Err(FormFault::Memory) => Err(Memory),
    }
}

/// What a function gives back, where its binders are the first integer variables.
pub(crate) fn own_result(alloc: Global, func: &Func) -> Result<Resource, Memory>
    requires { IsNarrowHeader (function_of [] func.now) }
    ensures { IfOk result (λ own. own ≡ spec.own_result (function_of [] func.now)) }
{
    match nameless_res(alloc, func.bound.names.as_slice(), &[], &func.result) {
        Ok(own) => Ok(own),
        Err(FormFault::TooLarge) => unreachable!(),
        Err(FormFault::Memory) => Err(Memory),
    }
}
