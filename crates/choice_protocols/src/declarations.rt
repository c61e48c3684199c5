//! The protocols of declarations.
ghost use Rattle.std.specs.Prelude.{◌≡◌, ◌++◌, flat_map, IfOk, OnOk};
ghost use Rattle.chan_syntax.specs.declared.surface_tree.Body.TheVariants as body;
ghost use Rattle.session_lowering.specs.Choices as spec;

use crate::protocols::{choosing, plain};
use crate::turns::{Sources, put_turns, put_unchosen};
use chan_base::{Memory, Span};
use chan_syntax::{Body, Decl, Equation, Ident, Ref, SurfaceProto};
use session_lowering::Source;
use sqlite_items::Items;
use std::alloc::Global;

fn put_plain(
    alloc: Global,
    sources: &mut Sources,
    proto: &SurfaceProto,
    equation: &Equation,
) -> Result<(), Memory>
    ensures { OnOk result (sources.new ≡ sources.old ++ spec.sources_of proto.now (body.Plain equation.now)) }
{
    let made = plain(alloc, proto, equation)?;
    put_unchosen(sources, made)
}

fn put_choice(
    alloc: Global,
    sources: &mut Sources,
    proto: &SurfaceProto,
    offer: bool,
    next: &Ident,
    next_span: Span,
    refs: &[Ref],
) -> Result<(), Memory>
    ensures { OnOk result (sources.new ≡ sources.old ++ spec.sources_of proto.now (body.Choice offer next.now next_span refs.now)) }
{
    let most = refs.len().saturating_sub(1);
    let proto_that_chooses = choosing(alloc, proto, offer, next, next_span, most)?;
    sources.push(Source {
        proto: proto_that_chooses,
        chooses: true,
    })?;
    put_turns(alloc, sources, proto, next, next_span, refs)
}

fn put_declared(alloc: Global, sources: &mut Sources, decl: &Decl) -> Result<(), Memory>
    ensures { OnOk result (sources.new ≡ sources.old ++ spec.declared decl.now) }
{
    match decl {
        Decl::Func(_) => Ok(()),
        Decl::Proto(proto) => match &proto.body {
            Body::Plain(equation) => put_plain(alloc, sources, proto, equation),
            Body::Choice {
                offer,
                next,
                next_span,
                refs,
            } => put_choice(
                alloc,
                sources,
                proto,
                *offer,
                next,
                *next_span,
                refs.as_slice(),
            ),
        },
    }
}

/// The protocols of a text in order, those of a choice behind it.
pub(crate) fn read_sources(alloc: Global, decls: &[Decl]) -> Result<Sources, Memory>
    ensures { IfOk result (λ sources. sources ≡ spec.sources decls.now) }
{
    let mut sources = Items::new(alloc);
    for decl in decls {
        put_declared(alloc, &mut sources, decl)?;
    }
    Ok(sources)
}
