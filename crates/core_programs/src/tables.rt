//! Functions and protocols by their names, and how many there are.
#![tactic(auto, using(form_faults::proofs::Firsts::first_rules, form_faults::proofs::Binders::binder_rules, std::proofs::lemmas::Grind::common_steps))]

ghost use Rattle.std.specs.Prelude.{◌≡◌, [], map, OnOk, IfOk};
ghost use Rattle.form_faults.specs.Faults.{least, past};
ghost use Rattle.form_faults.specs.Scopes.{twice_all};
ghost use Rattle.core_programs.specs.Passes.{proto_names, func_names, proto_signatures, func_signatures};

use crate::nodes::Func;
use chan_base::Memory;
use chan_syntax::Proto;
use form_faults::{Ill, IllKind, Scope, Sort, Table, bind_name, note};
use std::alloc::Global;

fn bind_protos(
    alloc: Global,
    first: &mut Option<Ill>,
    scope: &mut Scope,
    protos: &[Proto],
) -> Result<(), Memory>
    ensures { OnOk result (first.new ≡ least first.old (twice_all scope.old (proto_names protos.now))) }
{
    for proto in protos {
        bind_name(
            alloc,
            first,
            scope,
            &proto.name,
            Sort::Variable,
            proto.name_span,
        )?;
    }
    Ok(())
}

fn bind_funcs(
    alloc: Global,
    first: &mut Option<Ill>,
    scope: &mut Scope,
    funcs: &[Func],
) -> Result<(), Memory>
    ensures { OnOk result (first.new ≡ least first.old (twice_all scope.old (func_names funcs.now))) }
{
    for func in funcs {
        bind_name(
            alloc,
            first,
            scope,
            &func.name,
            Sort::Variable,
            func.name_span,
        )?;
    }
    Ok(())
}

/// Twice, at the second protocol with a name.
pub(crate) fn check_proto_names(
    alloc: Global,
    first: &mut Option<Ill>,
    protos: &[Proto],
) -> Result<(), Memory>
    ensures { OnOk result (first.new ≡ least first.old (twice_all [] (proto_names protos.now))) }
{
    let mut scope = Scope::new(alloc);
    bind_protos(alloc, first, &mut scope, protos)
}

/// Twice, at the second function with a name.
pub(crate) fn check_func_names(
    alloc: Global,
    first: &mut Option<Ill>,
    funcs: &[Func],
) -> Result<(), Memory>
    ensures { OnOk result (first.new ≡ least first.old (twice_all [] (func_names funcs.now))) }
{
    let mut scope = Scope::new(alloc);
    bind_funcs(alloc, first, &mut scope, funcs)
}

/// The protocols by their names.
pub(crate) fn proto_table(alloc: Global, protos: &[Proto]) -> Result<Table, Memory>
    ensures { IfOk result (λ table. table ≡ proto_signatures protos.now) }
{
    let mut table = Table::new(alloc);
    for proto in protos {
        table.add(&proto.name, proto.params.len())?;
    }
    Ok(table)
}

/// The functions by their names.
pub(crate) fn func_table(alloc: Global, funcs: &[Func]) -> Result<Table, Memory>
    ensures { IfOk result (λ table. table ≡ func_signatures funcs.now) }
{
    let mut table = Table::new(alloc);
    for func in funcs {
        table.add(&func.name, func.params.len())?;
    }
    Ok(table)
}

/// TooMany, at the protocol with the number 4,097.
#[tactic(auto, using(form_faults::proofs::Firsts::first_rules), unfolding(form_faults::specs::Faults::past))]
pub(crate) fn count_protos(alloc: Global, first: &mut Option<Ill>, protos: &[Proto])
    ensures { first.new ≡ least first.old (past 4096 (map (λ p. p.span) protos.now)) }
{
    match protos.get(4096) {
        None => {}
        Some(proto) => note(alloc, first, IllKind::TooMany, proto.span),
    }
}

/// TooMany, at the function with the number 4,097.
#[tactic(auto, using(form_faults::proofs::Firsts::first_rules), unfolding(form_faults::specs::Faults::past))]
pub(crate) fn count_funcs(alloc: Global, first: &mut Option<Ill>, funcs: &[Func])
    ensures { first.new ≡ least first.old (past 4096 (map (λ f. f.span) funcs.now)) }
{
    match funcs.get(4096) {
        None => {}
        Some(func) => note(alloc, first, IllKind::TooMany, func.span),
    }
}
