//! Rules on integers: what terms mean, and integers of which nothing is known.
ghost use Rattle.std.specs.Prelude.{◌≡◌, Ok, OnOk, IfErr};
ghost use Rattle.chan_syntax.specs.Reading.{term_of};
ghost use Rattle.outline_language.specs.LinearForms.{Free, variable_form};
ghost use Rattle.outline_language.specs.Nameless.{Int};
ghost use Rattle.outline_language.specs.Contexts.{hold};
ghost use Rattle.outline_language.specs.Rules as spec;
ghost use Rattle.outline_obligations.specs.Reasons.{IsReason};
ghost use Rattle.outline_contexts.specs.Trails.{IsAfter, context_in};

use chan_base::Memory;
use chan_syntax::{Ident, Term};
use nameless_forms::{Form, Var};
use nameless_shapes::Shape;
use outline_contexts::Context;
use outline_obligations::ContextFault;
use std::alloc::Global;

/// `let x = t`: t means an integer, and x is that one.
pub fn meet_let(
    alloc: Global,
    ctx: &mut Context,
    name: &Ident,
    term: &Term,
) -> Result<(), ContextFault>
    ensures ok { OnOk result (spec.rule_let (context_in ctx.old) name.now (term_of term.now) ≡ Ok (context_in ctx.new)) }
    ensures err { IfErr result (IsReason (spec.rule_let (context_in ctx.old) name.now (term_of term.now))) }
    ensures after { IsAfter ctx.old ctx.new }
{
    let form = ctx.meaning(alloc, term)?;
    let shape = Shape::int(alloc, form)?;
    ctx.hold(name, shape)?;
    Ok(())
}

/// Holds the integer variable at a place as a program variable.
pub(crate) fn hold_variable(
    alloc: Global,
    ctx: &mut Context,
    name: &Ident,
    place: u32,
) -> Result<(), Memory>
    ensures context { OnOk result (context_in ctx.new ≡ hold (context_in ctx.old) name.now (Int (variable_form (Free place)))) }
    ensures after { IsAfter ctx.old ctx.new }
{
    let form = Form::variable(alloc, Var::free(place))?;
    let shape = Shape::int(alloc, form)?;
    ctx.hold(name, shape)
}

/// `let x = mul(a, b)`: both mean integers, and nothing is known of x.
pub fn meet_mul(
    alloc: Global,
    ctx: &mut Context,
    name: &Ident,
    left: &Term,
    right: &Term,
) -> Result<(), ContextFault>
    ensures ok { OnOk result (spec.rule_mul (context_in ctx.old) name.now (term_of left.now) (term_of right.now) ≡ Ok (context_in ctx.new)) }
    ensures err { IfErr result (IsReason (spec.rule_mul (context_in ctx.old) name.now (term_of left.now) (term_of right.now))) }
    ensures after { IsAfter ctx.old ctx.new }
{
    let _left = ctx.meaning(alloc, left)?;
    let _right = ctx.meaning(alloc, right)?;
    let place = ctx.variables();
    ctx.add_int(name)?;
    hold_variable(alloc, ctx, name, place)?;
    Ok(())
}

/// `print t`: t means an integer.
pub fn meet_print(alloc: Global, ctx: &Context, term: &Term) -> Result<(), ContextFault>
    ensures ok { OnOk result (spec.rule_print (context_in ctx.now) (term_of term.now) ≡ Ok (context_in ctx.now)) }
    ensures err { IfErr result (IsReason (spec.rule_print (context_in ctx.now) (term_of term.now))) }
{
    let _form = ctx.meaning(alloc, term)?;
    Ok(())
}
