//! Headers of functions.
#![tactic(auto, using(crate::proofs::Firsts::first_rules, std::proofs::lemmas::Grind::common_steps), unfolding(crate::specs::Faults::past, crate::specs::Resources::params_faults, crate::specs::Resources::params_scope, crate::specs::Resources::params_past, crate::specs::Resources::header_scope, crate::specs::Resources::header_faults))]

ghost use Rattle.std.specs.Prelude.{◌≡◌, ◌&&◌, [], OnOk};
ghost use Rattle.form_faults.specs.declared.sorts.Sort.TheVariants as sort;
ghost use Rattle.form_faults.specs.Faults.{least};
ghost use Rattle.form_faults.specs.Scopes.{bind};
ghost use Rattle.form_faults.specs.Resources as spec;

use crate::bounds::bind_bound;
use crate::faults::{Ill, IllKind, note};
use crate::resources::{check_res, check_shape, is_shallow, note_deep};
use crate::scopes::{Scope, check_new};
use crate::sorts::Sort;
use crate::tables::Table;
use chan_base::{Memory, Span};
use chan_syntax::{Bound, Param, Res};
use std::alloc::Global;

fn params_are_shallow(params: &[Param]) -> bool
    ensures { result ≡ spec.params_are_shallow params.now }
{
    for param in params {
        if !is_shallow(&param.shape) {
            return false;
        }
    }
    true
}

/// Binds a parameter, once its shape is read.
#[tactic(auto, using(crate::proofs::Firsts::first_rules, std::proofs::lemmas::Grind::common_steps), unfolding(crate::specs::Resources::param_faults))]
fn bind_param(
    alloc: Global,
    first: &mut Option<Ill>,
    protos: &Table,
    scope: &mut Scope,
    param: &Param,
) -> Result<(), Memory>
    ensures first { OnOk result (first.new ≡ least first.old (spec.param_faults protos.now scope.old param.now)) }
    ensures scope { OnOk result (scope.new ≡ bind scope.old param.now.name sort.Variable) }
{
    check_new(alloc, first, scope, &param.name, param.name_span)?;
    check_shape(alloc, first, protos, scope, &param.shape)?;
    scope.bind(&param.name, Sort::Variable)
}

/// Binds parameters; the shape of each is read in the scope of the earlier ones.
fn bind_params(
    alloc: Global,
    first: &mut Option<Ill>,
    protos: &Table,
    scope: &mut Scope,
    params: &[Param],
) -> Result<(), Memory>
    ensures first { OnOk result (first.new ≡ least first.old (spec.params_faults protos.now scope.old params.now)) }
    ensures scope { OnOk result (scope.new ≡ spec.params_scope scope.old params.now) }
{
    for param in params {
        bind_param(alloc, first, protos, scope, param)?;
    }
    Ok(())
}

fn check_count(alloc: Global, first: &mut Option<Ill>, params: &[Param])
    ensures { first.new ≡ least first.old (spec.params_past params.now) }
{
    match params.get(16) {
        None => {}
        Some(param) => note(alloc, first, IllKind::TooMany, param.name_span),
    }
}

/// The faults of a function's header. The scope becomes that of its body.
pub fn check_header(
    alloc: Global,
    first: &mut Option<Ill>,
    protos: &Table,
    scope: &mut Scope,
    name_span: Span,
    bound: &Bound,
    params: &[Param],
    res: &Res,
) -> Result<(), Memory>
    requires { scope.old ≡ [] }
    ensures first { OnOk result (first.new ≡ least first.old (spec.header_faults protos.now name_span bound.now params.now res.now)) }
    ensures scope { OnOk result (scope.new ≡ spec.header_scope bound.now params.now) }
{
    let shallow = params_are_shallow(params) && is_shallow(&res.shape);
    note_deep(alloc, first, shallow, name_span);
    bind_bound(alloc, first, scope, bound)?;
    bind_params(alloc, first, protos, scope, params)?;
    check_count(alloc, first, params);
    check_res(alloc, first, protos, scope, res)
}
