//! Rules on calls, and on values that are given back.
ghost use Rattle.std.specs.Prelude.{◌≡◌, map, All, Ok, OnOk, IfOk, IfErr};
ghost use Rattle.std.specs.Option.{option_map, option_copied};
ghost use Rattle.chan_syntax.specs.Bounds.{IsBounded};
ghost use Rattle.chan_syntax.specs.Reading.{pat_of, supply_of, proof_of};
ghost use Rattle.core_language.specs.Programs.{function_named};
ghost use Rattle.outline_language.specs.Contexts.{nothing};
ghost use Rattle.outline_language.specs.Rules as spec;
ghost use Rattle.outline_obligations.specs.Reasons.{IsReason};
ghost use Rattle.outline_contexts.specs.Trails.{IsAfter, context_in};
ghost use Rattle.function_headers.specs.Headers.{header_read};
ghost use Rattle.function_headers.specs.Reading.{header_of};
ghost use Rattle.call_rules.specs.Headed.{called_by};
ghost use Rattle.call_rules.specs.Reading.{program_in, called_as};

use crate::tables::Tables;
use chan_syntax::{Ident, Pat, Proof, Supply};
use function_headers::Header;
use nameless_shapes::{Resource, same_res};
use outline_contexts::Context;
use outline_instances::instances;
use outline_obligations::{ContextFault, Taken, Why, leftovers};
use shape_instances::put_in_res;
use std::alloc::Global;
use value_supplies::{give, give_all};

/// The header of the first function with this name.
pub(crate) fn header_named<'a>(tables: &Tables<'a>, func: &Ident) -> Option<&'a Header>
    ensures { option_map header_of (option_copied result) ≡ option_map header_read (function_named func.now (program_in tables.now).funcs) }
{
    tables.headers.find(func)
}

/// Instances and limits, each value at its parameter, leftovers, and then the result with the instances.
fn call_header(
    alloc: Global,
    ctx: &mut Context,
    header: &Header,
    values: &[Supply],
    proof: &Proof,
) -> Result<Resource, ContextFault>
    requires { All IsBounded proof.now.certs }
    ensures ok { IfOk result (λ res. called_by (header_of header.now) (context_in ctx.old) (map supply_of values.now) (proof_of proof.now) ≡ Ok (called_as ctx.new res)) }
    ensures err { IfErr result (IsReason (called_by (header_of header.now) (context_in ctx.old) (map supply_of values.now) (proof_of proof.now))) }
    ensures after { IsAfter ctx.old ctx.new }
{
    let limits = header.limits.as_slice();
    let supplied = instances(alloc, ctx, header.binders, limits, proof, Taken::none())?;
    let forms = supplied.forms.as_slice();
    let shapes = header.shapes.as_slice();
    let given = give_all(alloc, ctx, forms, values, shapes, proof, supplied.taken)?;
    leftovers(proof, given)?;
    let res = put_in_res(alloc, forms, &header.result)?;
    Ok(res)
}

/// What a call gives back.
fn call(
    alloc: Global,
    tables: &Tables<'_>,
    ctx: &mut Context,
    func: &Ident,
    values: &[Supply],
    proof: &Proof,
) -> Result<Resource, ContextFault>
    requires { All IsBounded proof.now.certs }
    ensures ok { IfOk result (λ res. spec.called (program_in tables.now) (context_in ctx.old) func.now (map supply_of values.now) (proof_of proof.now) ≡ Ok (called_as ctx.new res)) }
    ensures err { IfErr result (IsReason (spec.called (program_in tables.now) (context_in ctx.old) func.now (map supply_of values.now) (proof_of proof.now))) }
    ensures after { IsAfter ctx.old ctx.new }
{
    match header_named(tables, func) {
        Some(header) => call_header(alloc, ctx, header, values, proof),
        None => Err(ContextFault::Why(Why::WrongForm)),
    }
}

/// `let p = f(v, ..)`: the call, and its result is bound.
pub fn meet_call(
    alloc: Global,
    tables: &Tables<'_>,
    ctx: &mut Context,
    pat: &Pat,
    func: &Ident,
    values: &[Supply],
    proof: &Proof,
) -> Result<(), ContextFault>
    requires certs { All IsBounded proof.now.certs }
    ensures ok { OnOk result (spec.rule_call (program_in tables.now) (context_in ctx.old) (pat_of pat.now) func.now (map supply_of values.now) (proof_of proof.now) ≡ Ok (context_in ctx.new)) }
    ensures err { IfErr result (IsReason (spec.rule_call (program_in tables.now) (context_in ctx.old) (pat_of pat.now) func.now (map supply_of values.now) (proof_of proof.now))) }
    ensures after { IsAfter ctx.old ctx.new }
{
    let res = call(alloc, tables, ctx, func, values, proof)?;
    ctx.bind(alloc, pat, &res)?;
    Ok(())
}

/// `f(v, ..)` at the end: the call, its result is the own one, and no end is left.
pub fn meet_tail(
    alloc: Global,
    tables: &Tables<'_>,
    own: &Resource,
    ctx: &mut Context,
    func: &Ident,
    values: &[Supply],
    proof: &Proof,
) -> Result<(), ContextFault>
    requires certs { All IsBounded proof.now.certs }
    ensures ok { OnOk result (spec.rule_tail (program_in tables.now) own.now (context_in ctx.old) func.now (map supply_of values.now) (proof_of proof.now) ≡ Ok nothing) }
    ensures err { IfErr result (IsReason (spec.rule_tail (program_in tables.now) own.now (context_in ctx.old) func.now (map supply_of values.now) (proof_of proof.now))) }
    ensures after { IsAfter ctx.old ctx.new }
{
    let res = call(alloc, tables, ctx, func, values, proof)?;
    if !same_res(&res, own) {
        return Err(ContextFault::Why(Why::WrongForm));
    }
    ctx.nothing_left()?;
    Ok(())
}

/// `ret v`: the value at the own result, leftovers, and no end is left.
pub fn meet_ret(
    alloc: Global,
    own: &Resource,
    ctx: &mut Context,
    value: &Supply,
    proof: &Proof,
) -> Result<(), ContextFault>
    requires certs { All IsBounded proof.now.certs }
    ensures ok { OnOk result (spec.rule_ret own.now (context_in ctx.old) (supply_of value.now) (proof_of proof.now) ≡ Ok nothing) }
    ensures err { IfErr result (IsReason (spec.rule_ret own.now (context_in ctx.old) (supply_of value.now) (proof_of proof.now))) }
    ensures after { IsAfter ctx.old ctx.new }
{
    let given = give(alloc, ctx, value, own, proof, Taken::none())?;
    leftovers(proof, given)?;
    ctx.nothing_left()?;
    Ok(())
}
