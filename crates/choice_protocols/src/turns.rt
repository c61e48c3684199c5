//! The protocols of a choice, one after the other.
ghost use Rattle.std.specs.Prelude.{◌≡◌, ◌<◌, ◌^◌, ◌++◌, ◌∷◌, [], map, OnOk};
ghost use Rattle.session_lowering.specs.Choices as spec;

use crate::protocols::{goes_on, turn};
use chan_base::{Memory, Span};
use chan_syntax::{Ident, Proto, Ref, SurfaceProto};
use made_names::numbered;
use session_lowering::Source;
use sqlite_items::Items;
use std::alloc::Global;

pub type Sources = Items<Source>;

pub(crate) fn put_unchosen(sources: &mut Sources, proto: Proto) -> Result<(), Memory>
    ensures { OnOk result (sources.new ≡ sources.old ++ spec.unchosen proto ∷ []) }
{
    sources.push(Source {
        proto,
        chooses: false,
    })?;
    Ok(())
}

/// One that goes on to a later one.
fn put_turn(
    alloc: Global,
    sources: &mut Sources,
    proto: &SurfaceProto,
    name: &Ident,
    at: Span,
    index: usize,
    this: &Ref,
    later: &Ident,
) -> Result<(), Memory>
    requires { index < 2 ^ 63 }
    ensures { OnOk result (sources.new ≡ sources.old ++ spec.unchosen (spec.turn proto.now name.now at index this.now (spec.goes_on proto.now later.now proto.now.span)) ∷ []) }
{
    let other = goes_on(alloc, proto, later, proto.span)?;
    let made = turn(alloc, proto, name, at, index, this, other)?;
    put_unchosen(sources, made)
}

/// The last one, with two of the references.
fn put_last_turn(
    alloc: Global,
    sources: &mut Sources,
    proto: &SurfaceProto,
    name: &Ident,
    at: Span,
    index: usize,
    this: &Ref,
    other: &Ref,
) -> Result<(), Memory>
    requires { index < 2 ^ 63 }
    ensures { OnOk result (sources.new ≡ sources.old ++ spec.unchosen (spec.turn proto.now name.now at index this.now other.now) ∷ []) }
{
    let other = other.copy(alloc)?;
    let made = turn(alloc, proto, name, at, index, this, other)?;
    put_unchosen(sources, made)
}

/// One for each reference but the last.
pub(crate) fn put_turns(
    alloc: Global,
    sources: &mut Sources,
    proto: &SurfaceProto,
    next: &Ident,
    next_span: Span,
    refs: &[Ref],
) -> Result<(), Memory>
    ensures { OnOk result (sources.new ≡ sources.old ++ map spec.unchosen (spec.turns proto.now next.now next.now next_span 0 refs.now)) }
{
    let mut name = next.copy()?;
    let mut at = next_span;
    let mut index = 0;
    'turns: while refs.len() - index > 2 {
        let later = numbered(alloc, next.as_slice(), index + 1)?;
        put_turn(
            alloc,
            sources,
            proto,
            &name,
            at,
            index,
            &refs[index],
            &later,
        )?;
        name = later;
        at = proto.span;
        index += 1;
    }
    if refs.len() - index == 2 {
        put_last_turn(
            alloc,
            sources,
            proto,
            &name,
            at,
            index,
            &refs[index],
            &refs[index + 1],
        )?;
    }
    Ok(())
}
