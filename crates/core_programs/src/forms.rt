//! The form passes in order.

ghost use Rattle.std.specs.Prelude.{◌≡◌, None, IfOk, IfSome};
ghost use Rattle.protocol_guard.specs.Guards.{IsFirstCycle, IsGuarded, graph_of};
ghost use Rattle.core_programs.specs.Formed.{IsNumbered};
ghost use Rattle.core_programs.specs.Form as spec;

use crate::nodes::Parts;
use crate::passes::{find_count, find_main, find_names, find_twice};
use chan_base::Memory;
use chan_syntax::Proto;
use form_faults::{Ill, IllKind};
use protocol_guard::{FirstCycle, find_cycle, names_of};
use std::alloc::Global;

/// Unguarded, at the name of the protocol where the cycle starts.
fn unguarded(alloc: Global, protos: &[Proto], cycle: &FirstCycle) -> Result<Ill, Memory>
    requires { IsFirstCycle (graph_of protos.now) cycle.now.start cycle.now.way }
    ensures { IfOk result (spec.IsUnguarded protos.now) }
{
    let names = names_of(alloc, protos, cycle)?;
    match protos.get(cycle.start) {
        Some(proto) => Ok(Ill {
            kind: IllKind::Unguarded,
            names,
            span: proto.name_span,
        }),
        None => unreachable!(),
    }
}

/// The first of the shortest cycles of protocols.
fn find_unguarded(alloc: Global, parts: &Parts) -> Result<Option<Ill>, Memory>
    ensures silent { IfOk result (λ found. found ≡ None → IsGuarded parts.now.protos) }
    ensures found { IfOk result (λ found. IfSome found (spec.IsUnguarded parts.now.protos)) }
{
    let protos = parts.protos.as_slice();
    let Some(cycle) = find_cycle(alloc, protos)? else {
        return Ok(None);
    };
    let ill = unguarded(alloc, protos, &cycle)?;
    Ok(Some(ill))
}

/// The first fault of the form of these parts: that of the first pass that finds one.
pub fn first_fault(alloc: Global, parts: &Parts) -> Result<Option<Ill>, Memory>
    requires { IsNumbered parts.now }
    ensures { IfOk result (spec.Passes parts.now) }
{
    if let Some(ill) = find_twice(alloc, parts)? {
        return Ok(Some(ill));
    }
    if let Some(ill) = find_names(alloc, parts)? {
        return Ok(Some(ill));
    }
    if let Some(ill) = find_count(alloc, parts) {
        return Ok(Some(ill));
    }
    if let Some(ill) = find_unguarded(alloc, parts)? {
        return Ok(Some(ill));
    }
    Ok(find_main(alloc, parts))
}
