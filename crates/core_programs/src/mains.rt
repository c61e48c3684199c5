//! Whether a program has its function `main`.
ghost use Rattle.std.specs.Prelude.{◌≡◌};
ghost use Rattle.std.specs.List.{list_any};
ghost use Rattle.form_faults.specs.Faults.{least};
ghost use Rattle.core_programs.specs.Passes as spec;

use crate::nodes::Func;
use chan_base::Span;
use chan_syntax::{Bound, Shape};
use form_faults::{Ill, IllKind, note};
use std::alloc::Global;

fn is_unbound(bound: &Bound) -> bool
    ensures { result ≡ spec.is_unbound bound.now }
{
    bound.names.is_empty() && bound.limits.is_empty()
}

fn is_unit(shape: &Shape) -> bool
    ensures { result ≡ spec.is_unit shape.now }
{
    match shape {
        Shape::Unit => true,
        Shape::Int(_) => false,
        Shape::End(_) => false,
        Shape::Pair(..) => false,
        Shape::Sum(..) => false,
    }
}

/// A function `main` without binders and parameters that gives the unit.
fn is_main(func: &Func) -> bool
    ensures { result ≡ spec.is_main func.now }
{
    func.name.as_slice() == b"main".as_slice()
        && is_unbound(&func.bound)
        && func.params.is_empty()
        && is_unbound(&func.result.bound)
        && is_unit(&func.result.shape)
}

fn have_main(funcs: &[Func]) -> bool
    ensures { result ≡ list_any spec.is_main funcs.now }
{
    for func in funcs {
        if is_main(func) {
            return true;
        }
    }
    false
}

/// NoMain, at the first byte.
#[tactic(auto, using(form_faults::proofs::Firsts::first_rules), unfolding(crate::specs::Passes::no_main))]
pub(crate) fn check_main(alloc: Global, first: &mut Option<Ill>, funcs: &[Func])
    ensures { first.new ≡ least first.old (spec.no_main funcs.now) }
{
    if !have_main(funcs) {
        let span = Span {
            start: 0,
            stop: 0,
            line: 1,
            column: 1,
        };
        note(alloc, first, IllKind::NoMain, span);
    }
}
