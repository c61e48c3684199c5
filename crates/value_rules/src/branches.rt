//! The rule on `if`, and the contexts of its bodies.
ghost use Rattle.std.specs.Prelude.{◌≡◌, nat_eq, if◌then◌else◌, Ok, OnOk, IfErr};
ghost use Rattle.chan_syntax.specs.Reading.{term_of};
ghost use Rattle.outline_language.specs.LinearForms.{minus, plus_one};
ghost use Rattle.outline_language.specs.Contexts.{Context as Seen, add_hyp};
ghost use Rattle.outline_language.specs.Rules as spec;
ghost use Rattle.outline_obligations.specs.Reasons.{IsReason};
ghost use Rattle.outline_walk.specs.Forms.{branch_in};
ghost use Rattle.outline_contexts.specs.Trails.{IsAfter, context_in};

use chan_syntax::Term;
use nameless_forms::Form;
use outline_contexts::Context;
use outline_obligations::ContextFault;
use std::alloc::Global;

/// What the body with this number may assume: the first form is at most the second, or more.
fn assume_side(
    alloc: Global,
    ctx: &mut Context,
    left: &Form,
    right: &Form,
    number: usize,
) -> Result<(), ContextFault>
    ensures ok { OnOk result (add_hyp (context_in ctx.old) (if nat_eq number 0 then minus left.now right.now else plus_one (minus right.now left.now)) ≡ Ok (context_in ctx.new)) }
    ensures err { IfErr result (IsReason (add_hyp (context_in ctx.old) (if nat_eq number 0 then minus left.now right.now else plus_one (minus right.now left.now)))) }
    ensures after { IsAfter ctx.old ctx.new }
{
    if number == 0 {
        ctx.assume_at_most(alloc, left, right)
    } else {
        ctx.assume_less(alloc, right, left)
    }
}

/// Tries the hypothesis of the body with this number, and takes it back.
fn try_side(
    alloc: Global,
    ctx: &mut Context,
    left: &Form,
    right: &Form,
    number: usize,
) -> Result<(), ContextFault>
    ensures ok { OnOk result ((after : Seen) × (add_hyp (context_in ctx.old) (if nat_eq number 0 then minus left.now right.now else plus_one (minus right.now left.now)) ≡ Ok after)) }
    ensures stays { OnOk result (ctx.new ≡ ctx.old) }
    ensures err { IfErr result (IsReason (add_hyp (context_in ctx.old) (if nat_eq number 0 then minus left.now right.now else plus_one (minus right.now left.now)))) }
    ensures after { IsAfter ctx.old ctx.new }
{
    let mark = ctx.mark();
    assume_side(alloc, ctx, left, right, number)?;
    ctx.rewind(mark);
    Ok(())
}

/// `if a <= b`: both mean integers, and each body has its context.
pub fn meet_if(
    alloc: Global,
    ctx: &mut Context,
    left: &Term,
    right: &Term,
) -> Result<(), ContextFault>
    ensures ok { OnOk result ((both : Seen × Seen) × (spec.rule_if (context_in ctx.old) (term_of left.now) (term_of right.now) ≡ Ok both)) }
    ensures stays { OnOk result (ctx.new ≡ ctx.old) }
    ensures err { IfErr result (IsReason (spec.rule_if (context_in ctx.old) (term_of left.now) (term_of right.now))) }
    ensures after { IsAfter ctx.old ctx.new }
{
    let left = ctx.meaning(alloc, left)?;
    let right = ctx.meaning(alloc, right)?;
    try_side(alloc, ctx, &left, &right, 0)?;
    try_side(alloc, ctx, &left, &right, 1)?;
    Ok(())
}

/// Makes of the context of an `if` that of the body with this number: 0 for the first.
pub fn enter_branch(
    alloc: Global,
    ctx: &mut Context,
    left: &Term,
    right: &Term,
    number: usize,
) -> Result<(), ContextFault>
    ensures ok { OnOk result (branch_in (context_in ctx.old) (term_of left.now) (term_of right.now) number ≡ Ok (context_in ctx.new)) }
    ensures err { IfErr result (IsReason (branch_in (context_in ctx.old) (term_of left.now) (term_of right.now) number)) }
    ensures after { IsAfter ctx.old ctx.new }
{
    let left = ctx.meaning(alloc, left)?;
    let right = ctx.meaning(alloc, right)?;
    assume_side(alloc, ctx, &left, &right, number)?;
    Ok(())
}
