//! Rules on quotients and remainders.
ghost use Rattle.std.specs.Prelude.{◌≡◌, [], ◌∷◌, Ok, OnOk, IfErr};
ghost use Rattle.chan_syntax.specs.Reading.{term_of};
ghost use Rattle.outline_language.specs.Rules as spec;
ghost use Rattle.outline_obligations.specs.Reasons.{IsReason};
ghost use Rattle.outline_contexts.specs.Trails.{IsAfter, context_in};

use crate::divisions::{less_product, less_rest, less_variable, product_less};
use crate::integers::hold_variable;
use chan_syntax::{Ident, Term};
use nameless_forms::{Form, FormSum, Var};
use outline_contexts::Context;
use outline_obligations::ContextFault;
use std::alloc::Global;

/// A new integer variable under two hypotheses, and the program variable that it is.
fn new_int(
    alloc: Global,
    ctx: &mut Context,
    name: &Ident,
    first: &FormSum,
    second: &FormSum,
) -> Result<(), ContextFault>
    ensures ok { OnOk result (spec.new_int (context_in ctx.old) name.now (first.now ∷ second.now ∷ []) ≡ Ok (context_in ctx.new)) }
    ensures err { IfErr result (IsReason (spec.new_int (context_in ctx.old) name.now (first.now ∷ second.now ∷ []))) }
    ensures after { IsAfter ctx.old ctx.new }
{
    let place = ctx.variables();
    ctx.add_int(name)?;
    ctx.assume(alloc, first)?;
    ctx.assume(alloc, second)?;
    hold_variable(alloc, ctx, name, place)?;
    Ok(())
}

/// `let x = div(a, d)`: d times x is at most a, and less than d below it.
pub fn meet_div(
    alloc: Global,
    ctx: &mut Context,
    name: &Ident,
    term: &Term,
    divisor: u64,
) -> Result<(), ContextFault>
    ensures ok { OnOk result (spec.rule_div (context_in ctx.old) name.now (term_of term.now) divisor ≡ Ok (context_in ctx.new)) }
    ensures err { IfErr result (IsReason (spec.rule_div (context_in ctx.old) name.now (term_of term.now) divisor)) }
    ensures after { IsAfter ctx.old ctx.new }
{
    let form = ctx.meaning(alloc, term)?;
    let variable = Form::variable(alloc, Var::free(ctx.variables()))?;
    let first = product_less(alloc, divisor, &variable, &form)?;
    let second = less_product(alloc, divisor, &variable, &form)?;
    new_int(alloc, ctx, name, &first, &second)?;
    Ok(())
}

/// `let x = rem(a, d)`: x is at least 0 and less than d.
pub fn meet_rem(
    alloc: Global,
    ctx: &mut Context,
    name: &Ident,
    term: &Term,
    divisor: u64,
) -> Result<(), ContextFault>
    ensures ok { OnOk result (spec.rule_rem (context_in ctx.old) name.now (term_of term.now) divisor ≡ Ok (context_in ctx.new)) }
    ensures err { IfErr result (IsReason (spec.rule_rem (context_in ctx.old) name.now (term_of term.now) divisor)) }
    ensures after { IsAfter ctx.old ctx.new }
{
    let _form = ctx.meaning(alloc, term)?;
    let variable = Form::variable(alloc, Var::free(ctx.variables()))?;
    let first = less_variable(alloc, &variable)?;
    let second = less_rest(alloc, divisor, &variable)?;
    new_int(alloc, ctx, name, &first, &second)?;
    Ok(())
}
