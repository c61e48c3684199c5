//! The faults of functions and protocols, one after another.
#![tactic(auto, using(form_faults::proofs::Firsts::first_rules, std::proofs::lemmas::Grind::common_steps), unfolding(crate::specs::Passes::func_faults, crate::specs::Passes::funcs_faults, crate::specs::Passes::protos_faults))]

ghost use Rattle.std.specs.Prelude.{◌≡◌, ◌<◌, length, OnOk};
ghost use Rattle.form_faults.specs.Faults.{least};
ghost use Rattle.core_programs.specs.Formed.{IsNumbered};
ghost use Rattle.core_programs.specs.Passes as spec;

use crate::nodes::{Func, Parts};
use crate::walking::check_body;
use chan_base::Memory;
use chan_syntax::Proto;
use form_faults::{Ill, Scope, Table, check_header, check_proto};
use std::alloc::Global;

fn check_func(
    alloc: Global,
    first: &mut Option<Ill>,
    protos: &Table,
    funcs: &Table,
    parts: &Parts,
    func: &Func,
) -> Result<(), Memory>
    requires numbered { IsNumbered parts.now }
    requires within { func.now.first < length parts.now.nodes }
    ensures { OnOk result (first.new ≡ least first.old (spec.func_faults protos.now funcs.now parts.now.nodes func.now)) }
{
    let mut scope = Scope::new(alloc);
    check_header(
        alloc,
        first,
        protos,
        &mut scope,
        func.name_span,
        &func.bound,
        func.params.as_slice(),
        &func.result,
    )?;
    check_body(alloc, first, protos, funcs, &mut scope, parts, func.first)
}

/// The faults of all functions.
pub(crate) fn check_funcs(
    alloc: Global,
    first: &mut Option<Ill>,
    protos: &Table,
    funcs: &Table,
    parts: &Parts,
) -> Result<(), Memory>
    requires { IsNumbered parts.now }
    ensures { OnOk result (first.new ≡ least first.old (spec.funcs_faults protos.now funcs.now parts.now.nodes parts.now.funcs)) }
{
    for func in parts.funcs.as_slice() {
        check_func(alloc, first, protos, funcs, parts, func)?;
    }
    Ok(())
}

/// The faults of all protocols.
pub(crate) fn check_protos(
    alloc: Global,
    first: &mut Option<Ill>,
    table: &Table,
    protos: &[Proto],
) -> Result<(), Memory>
    ensures { OnOk result (first.new ≡ least first.old (spec.protos_faults table.now protos.now)) }
{
    for proto in protos {
        check_proto(alloc, first, table, proto)?;
    }
    Ok(())
}
