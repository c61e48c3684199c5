//! The check of a program.
ghost use Rattle.std.specs.Prelude.{◌≡◌, ◌<◌, [], length, IfOk, OnOk};
ghost use Rattle.core_programs.specs.Bodies.{function_of, program_of};
ghost use Rattle.core_programs.specs.Form.{IsFormed};
ghost use Rattle.outline_language.specs.Outlined.{least, faults_of_function, first_fault};
ghost use Rattle.outline_walk.specs.Refusals.{found, IsPlaced};
ghost use Rattle.narrow_headers.specs.Narrow.{IsNarrowHeader};
ghost use Rattle.call_rules.specs.Reading.{program_in};
ghost use Rattle.outline_check.specs.Checks.{Tells};

use crate::outline::Outline;
use crate::reading::{own_result, read_headers, read_protocols};
use crate::stacks::Stack;
use accepted_programs::Accepted;
use call_rules::Tables;
use chan_base::Memory;
use core_programs::{Func, Program};
use outline_contexts::Context;
use outline_walk::{Refusal, walk};
use std::alloc::Global;

/// A program that is outlined, or its first fault.
#[derive(Drop)]
pub enum Checked {
    Accepted(Accepted),
    Refused(Refusal),
}

/// Keeps the first of the faults that were found before and of those of a function.
fn walk_function(
    alloc: Global,
    tables: &Tables<'_>,
    func: &Func,
    first: &mut Option<Refusal>,
) -> Result<(), Memory>
    requires narrow { IsNarrowHeader (function_of [] func.now) }
    requires within { func.now.first < length tables.now.program.now.nodes }
    ensures first { OnOk result (found first.new ≡ least (found first.old) (faults_of_function (program_in tables.now) (function_of tables.now.program.now.nodes func.now))) }
    ensures placed { IsPlaced tables.now.program.now.nodes first.old → IsPlaced tables.now.program.now.nodes first.new }
{
    let own = own_result(alloc, func)?;
    let context = Context::start(alloc, func)?;
    let mut outline = Outline {
        tables: *tables,
        own,
        stack: Stack::new(alloc, context),
    };
    walk(alloc, tables.program, &mut outline, func.first, first)
}

/// The first fault of all functions, in their order.
fn walk_functions(
    alloc: Global,
    tables: &Tables<'_>,
    funcs: &[Func],
) -> Result<Option<Refusal>, Memory>
    requires formed { IsFormed tables.now.program.now }
    requires funcs { funcs.now ≡ tables.now.program.now.funcs }
    ensures first { IfOk result (λ first. found first ≡ first_fault (program_in tables.now)) }
    ensures placed { IfOk result (IsPlaced tables.now.program.now.nodes) }
{
    let mut first = None;
    for func in funcs {
        walk_function(alloc, tables, func, &mut first)?;
    }
    Ok(first)
}

fn first_refusal(alloc: Global, program: &Program) -> Result<Option<Refusal>, Memory>
    ensures first { IfOk result (λ first. found first ≡ first_fault (program_of program.now)) }
    ensures placed { IfOk result (IsPlaced program.now.nodes) }
{
    let parts = program.parts();
    let headers = read_headers(alloc, parts)?;
    let protocols = read_protocols(alloc, parts)?;
    let tables = Tables {
        program,
        headers: &headers,
        protocols: &protocols,
    };
    walk_functions(alloc, &tables, parts.funcs.as_slice())
}

/// Accepts a program whose every function is outlined. Else it refuses it for its first fault: of all
/// faults on all ways through its bodies the one that starts first in the text, and of these the first
/// in the order of functions, then of bodies.
pub fn check(alloc: Global, program: Program) -> Result<Checked, Memory>
    ensures { IfOk result (Tells program) }
{
    let first = first_refusal(alloc, &program)?;
    match first {
        None => Ok(Checked::Accepted(Accepted::of(program))),
        Some(refusal) => Ok(Checked::Refused(refusal)),
    }
}
