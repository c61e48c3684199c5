//! Values that are terms: variables, and integers.
ghost use Rattle.std.specs.Prelude.{◌≡◌, All, Ok, IfOk, IfErr};
ghost use Rattle.std.specs.Option.{option_copied};
ghost use Rattle.core_language.specs.Computing.{bare_part as bare_part_of, bare_name as bare_name_of};
ghost use Rattle.chan_syntax.specs.Bounds.{IsBounded};
ghost use Rattle.chan_syntax.specs.Reading.{term_of};
ghost use Rattle.outline_language.specs.Giving as spec;
ghost use Rattle.outline_obligations.specs.Reasons.{IsReason};
ghost use Rattle.outline_contexts.specs.Trails.{IsAfter};
ghost use Rattle.value_supplies.specs.Reading.{given_at};

use crate::accepting::accept;
use crate::equalities::equate;
use chan_syntax::{Ident, Part, Proof, Term};
use nameless_shapes::{Node, Shape};
use outline_contexts::Context;
use outline_obligations::{ContextFault, Taken, Why};
use std::alloc::Global;

fn bare_part(part: &Part) -> Option<&Ident>
    ensures { option_copied result ≡ bare_part_of part.now.negative part.now.factor part.now.name }
{
    if part.negative || part.factor != 1 {
        None
    } else {
        part.name.as_ref()
    }
}

/// The name that the term is, where it is one name and nothing else.
fn bare_name(term: &Term) -> Option<&Ident>
    ensures { option_copied result ≡ bare_name_of (term_of term.now) }
{
    let parts = term.parts.as_slice();
    if parts.len() == 1 {
        bare_part(&parts[0])
    } else {
        None
    }
}

/// A variable is taken, and then accepted.
fn give_variable(
    alloc: Global,
    ctx: &mut Context,
    name: &Ident,
    shape: &Shape,
    proof: &Proof,
    taken: Taken,
) -> Result<Taken, ContextFault>
    requires { All IsBounded proof.now.certs }
    ensures ok { IfOk result (λ after. spec.give_variable name.now shape.now (given_at ctx.old proof.now taken) ≡ Ok (given_at ctx.new proof.now after)) }
    ensures err { IfErr result (IsReason (spec.give_variable name.now shape.now (given_at ctx.old proof.now taken))) }
    ensures after { IsAfter ctx.old ctx.new }
{
    let has = ctx.take(name)?;
    accept(alloc, ctx, &has, shape, proof, taken)
}

fn give_integer(
    alloc: Global,
    ctx: &Context,
    term: &Term,
    shape: &Shape,
    proof: &Proof,
    taken: Taken,
) -> Result<Taken, ContextFault>
    requires { All IsBounded proof.now.certs }
    ensures ok { IfOk result (λ after. spec.give_integer (term_of term.now) shape.now (given_at ctx.now proof.now taken) ≡ Ok (given_at ctx.now proof.now after)) }
    ensures err { IfErr result (IsReason (spec.give_integer (term_of term.now) shape.now (given_at ctx.now proof.now taken))) }
{
    match shape.get() {
        Node::Int(asked) => {
            let form = ctx.meaning(alloc, term)?;
            equate(alloc, ctx, &form, asked, proof, taken)
        }
        _ => Err(ContextFault::Why(Why::WrongForm)),
    }
}

/// A bare name is a variable, and another term an integer.
pub(crate) fn give_term(
    alloc: Global,
    ctx: &mut Context,
    term: &Term,
    shape: &Shape,
    proof: &Proof,
    taken: Taken,
) -> Result<Taken, ContextFault>
    requires { All IsBounded proof.now.certs }
    ensures ok { IfOk result (λ after. spec.give_term (bare_name_of (term_of term.now)) (term_of term.now) shape.now (given_at ctx.old proof.now taken) ≡ Ok (given_at ctx.new proof.now after)) }
    ensures err { IfErr result (IsReason (spec.give_term (bare_name_of (term_of term.now)) (term_of term.now) shape.now (given_at ctx.old proof.now taken))) }
    ensures after { IsAfter ctx.old ctx.new }
{
    match bare_name(term) {
        Some(name) => give_variable(alloc, ctx, name, shape, proof, taken),
        None => give_integer(alloc, ctx, term, shape, proof, taken),
    }
}
