//! The rule on forks.
ghost use Rattle.std.specs.Prelude.{◌≡◌, map, All, Ok, OnOk, IfOk, IfErr};
ghost use Rattle.chan_syntax.specs.Bounds.{IsBounded};
ghost use Rattle.chan_syntax.specs.Reading.{ref_of as written_ref, supply_of, proof_of};
ghost use Rattle.outline_language.specs.Nameless.{End};
ghost use Rattle.outline_language.specs.Contexts.{hold};
ghost use Rattle.outline_language.specs.Rules as spec;
ghost use Rattle.nameless_shapes.specs.Parts.{ref_of};
ghost use Rattle.outline_obligations.specs.Reasons.{IsReason};
ghost use Rattle.outline_contexts.specs.Trails.{IsAfter, context_in};
ghost use Rattle.function_headers.specs.Reading.{header_of};
ghost use Rattle.call_rules.specs.Headed.{own_end_in, begun_by, forked_by};
ghost use Rattle.call_rules.specs.Reading.{program_in};

use crate::calls::header_named;
use crate::children::{fork_form, give_end};
use crate::tables::Tables;
use chan_base::Memory;
use chan_syntax::{Ident, Proof, Ref as Written, Supply};
use function_headers::Header;
use nameless_shapes::{Ref, Shape};
use outline_contexts::Context;
use outline_instances::instances;
use outline_obligations::{ContextFault, Taken, Why, leftovers};
use std::alloc::Global;
use value_supplies::give_all;

/// The parent holds its end.
fn hold_end(alloc: Global, ctx: &mut Context, name: &Ident, end: Ref) -> Result<(), Memory>
    ensures context { OnOk result (context_in ctx.new ≡ hold (context_in ctx.old) name.now (End (ref_of end))) }
    ensures after { IsAfter ctx.old ctx.new }
{
    let shape = Shape::end(alloc, end)?;
    ctx.hold(name, shape)
}

/// Instances and limits, the child's end, each value, leftovers; then the parent has the other end.
fn begin_child(
    alloc: Global,
    ctx: &mut Context,
    name: &Ident,
    own: Ref,
    header: &Header,
    first: &Ref,
    shapes: &[Shape],
    values: &[Supply],
    proof: &Proof,
) -> Result<(), ContextFault>
    requires { All IsBounded proof.now.certs }
    ensures ok { OnOk result (begun_by (header_of header.now) (context_in ctx.old) name.now (ref_of own) (ref_of first.now) shapes.now (map supply_of values.now) (proof_of proof.now) ≡ Ok (context_in ctx.new)) }
    ensures err { IfErr result (IsReason (begun_by (header_of header.now) (context_in ctx.old) name.now (ref_of own) (ref_of first.now) shapes.now (map supply_of values.now) (proof_of proof.now))) }
    ensures after { IsAfter ctx.old ctx.new }
{
    let limits = header.limits.as_slice();
    let supplied = instances(alloc, ctx, header.binders, limits, proof, Taken::none())?;
    let forms = supplied.forms.as_slice();
    let taken = give_end(alloc, ctx, forms, &own, first, proof, supplied.taken)?;
    let given = give_all(alloc, ctx, forms, values, shapes, proof, taken)?;
    leftovers(proof, given)?;
    hold_end(alloc, ctx, name, own)?;
    Ok(())
}

/// The parent's end, with what the arguments mean.
fn own_end(alloc: Global, ctx: &Context, end: &Written) -> Result<Ref, ContextFault>
    ensures ok { IfOk result (λ own. own_end_in (context_in ctx.now) (written_ref end.now) ≡ Ok (ref_of own)) }
    ensures err { IfErr result (IsReason (own_end_in (context_in ctx.now) (written_ref end.now))) }
{
    let args = ctx.meanings(alloc, end.args.as_slice())?;
    let name = end.name.copy()?;
    Ok(Ref {
        dual: end.dual,
        name,
        args,
    })
}

/// A function that may be forked, and then the arguments and all that is behind them.
fn fork_header(
    alloc: Global,
    ctx: &mut Context,
    name: &Ident,
    end: &Written,
    header: &Header,
    values: &[Supply],
    proof: &Proof,
) -> Result<(), ContextFault>
    requires { All IsBounded proof.now.certs }
    ensures ok { OnOk result (forked_by (header_of header.now) (context_in ctx.old) name.now (written_ref end.now) (map supply_of values.now) (proof_of proof.now) ≡ Ok (context_in ctx.new)) }
    ensures err { IfErr result (IsReason (forked_by (header_of header.now) (context_in ctx.old) name.now (written_ref end.now) (map supply_of values.now) (proof_of proof.now))) }
    ensures after { IsAfter ctx.old ctx.new }
{
    let form = fork_form(header)?;
    let own = own_end(alloc, ctx, end)?;
    begin_child(
        alloc,
        ctx,
        name,
        own,
        header,
        form.end,
        form.shapes,
        values,
        proof,
    )?;
    Ok(())
}

/// `let x = fork E f(v, ..)`: a function that may be forked, the arguments, instances and limits, the
/// child's end, each value, leftovers; then the parent has the other end.
pub fn meet_fork(
    alloc: Global,
    tables: &Tables<'_>,
    ctx: &mut Context,
    name: &Ident,
    end: &Written,
    func: &Ident,
    values: &[Supply],
    proof: &Proof,
) -> Result<(), ContextFault>
    requires certs { All IsBounded proof.now.certs }
    ensures ok { OnOk result (spec.rule_fork (program_in tables.now) (context_in ctx.old) name.now (written_ref end.now) func.now (map supply_of values.now) (proof_of proof.now) ≡ Ok (context_in ctx.new)) }
    ensures err { IfErr result (IsReason (spec.rule_fork (program_in tables.now) (context_in ctx.old) name.now (written_ref end.now) func.now (map supply_of values.now) (proof_of proof.now))) }
    ensures after { IsAfter ctx.old ctx.new }
{
    match header_named(tables, func) {
        Some(header) => fork_header(alloc, ctx, name, end, header, values, proof),
        None => Err(ContextFault::Why(Why::WrongForm)),
    }
}
