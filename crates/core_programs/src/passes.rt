//! The form passes over whole programs, each with its first fault.
#![tactic(auto, using(form_faults::proofs::Firsts::first_rules))]

ghost use Rattle.std.specs.Prelude.{◌≡◌, None, IfOk, OnOk};
ghost use Rattle.form_faults.specs.Faults.{least};
ghost use Rattle.core_programs.specs.Formed.{IsNumbered};
ghost use Rattle.core_programs.specs.Passes.{faults_under, twice_faults, name_faults, count_faults, main_faults};

use crate::bodies::{check_funcs, check_protos};
use crate::mains::check_main;
use crate::nodes::Parts;
use crate::tables::{
    check_func_names, check_proto_names, count_funcs, count_protos, func_table, proto_table,
};
use chan_base::Memory;
use form_faults::{Ill, Table};
use std::alloc::Global;

/// Twice, among the protocols or among the functions.
pub(crate) fn find_twice(alloc: Global, parts: &Parts) -> Result<Option<Ill>, Memory>
    ensures { IfOk result (λ first. first ≡ least None (twice_faults parts.now)) }
{
    let mut first = None;
    check_proto_names(alloc, &mut first, parts.protos.as_slice())?;
    check_func_names(alloc, &mut first, parts.funcs.as_slice())?;
    Ok(first)
}

fn check_names(
    alloc: Global,
    first: &mut Option<Ill>,
    protos: &Table,
    funcs: &Table,
    parts: &Parts,
) -> Result<(), Memory>
    requires { IsNumbered parts.now }
    ensures { OnOk result (first.new ≡ least first.old (faults_under protos.now funcs.now parts.now)) }
{
    check_protos(alloc, first, protos, parts.protos.as_slice())?;
    check_funcs(alloc, first, protos, funcs, parts)
}

/// What is wrong with the names, counts and numbers of a protocol or a function.
pub(crate) fn find_names(alloc: Global, parts: &Parts) -> Result<Option<Ill>, Memory>
    requires { IsNumbered parts.now }
    ensures { IfOk result (λ first. first ≡ least None (name_faults parts.now)) }
{
    let mut first = None;
    let protos = proto_table(alloc, parts.protos.as_slice())?;
    let funcs = func_table(alloc, parts.funcs.as_slice())?;
    check_names(alloc, &mut first, &protos, &funcs, parts)?;
    Ok(first)
}

/// TooMany protocols or functions.
pub(crate) fn find_count(alloc: Global, parts: &Parts) -> Option<Ill>
    ensures { result ≡ least None (count_faults parts.now) }
{
    let mut first = None;
    count_protos(alloc, &mut first, parts.protos.as_slice());
    count_funcs(alloc, &mut first, parts.funcs.as_slice());
    first
}

/// NoMain.
pub(crate) fn find_main(alloc: Global, parts: &Parts) -> Option<Ill>
    ensures { result ≡ least None (main_faults parts.now) }
{
    let mut first = None;
    check_main(alloc, &mut first, parts.funcs.as_slice());
    first
}
