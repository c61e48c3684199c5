//! Rows of texts, each with its answer.
use crate::contexts::context;
use crate::giving::{given, named, passed};
use chan_base::{Bytes, Memory};
use chan_lexer::tokens;
use chan_parser::parse;
use chan_syntax::{Decl, Last, Surface, SurfaceFunc};
use outline_contexts::Context;
use outline_lines::outline_line;
use outline_obligations::{ContextFault, Taken, Why};
use std::alloc::Global;
use std::process::Abort;
use std::test::Fail;

fn surface(alloc: Global, text: &[u8]) -> Result<Surface, Memory> {
    if text.len() >= 1000000 {
        return Err(Memory);
    }
    let Ok(tokens) = tokens(alloc, text) else {
        return Err(Memory);
    };
    match parse(alloc, &tokens) {
        Ok(surface) => Ok(surface),
        Err(_) => Err(Memory),
    }
}

/// What the last of the function takes of the context and of its proof.
fn taken(
    alloc: Global,
    ctx: &mut Context,
    decls: &[Decl],
    func: &SurfaceFunc,
) -> Result<Taken, ContextFault> {
    match func.block.last.get() {
        Last::Ret { value, proof, .. } => given(
            alloc,
            ctx,
            func.bound.names.as_slice(),
            value,
            &func.result,
            proof,
        ),
        Last::Tail {
            func,
            values,
            proof,
            ..
        } => match named(decls, func) {
            Some(func) => passed(alloc, ctx, func, values.as_slice(), proof),
            None => Err(ContextFault::Memory),
        },
        _ => Err(ContextFault::Memory),
    }
}

/// How many instances and certificates are taken, and the first end that is left.
fn taken_line(alloc: Global, ctx: &Context, taken: Taken) -> Result<Bytes, Memory> {
    let instances = taken.instance;
    let certs = taken.cert;
    let line = format!(in alloc; "taken {instances} {certs}")?;
    let mut text = Vec::from_slice(alloc, line.as_bytes())?;
    if let Err(ContextFault::Why(Why::Left(name))) = ctx.nothing_left() {
        text.extend_from_slice(b" left ")?;
        text.extend_from_slice(name.as_slice())?;
    }
    text.push(b'\n')?;
    Ok(Bytes::from_vec(text))
}

fn answer(alloc: Global, decls: &[Decl], func: &SurfaceFunc) -> Result<Bytes, ContextFault> {
    let mut ctx = context(alloc, func)?;
    match taken(alloc, &mut ctx, decls, func) {
        Ok(taken) => Ok(taken_line(alloc, &ctx, taken)?),
        Err(ContextFault::Why(why)) => Ok(outline_line(alloc, func.span, &why, ctx.ints())?),
        Err(ContextFault::Memory) => Err(ContextFault::Memory),
    }
}

/// The answer for the first function of a text, which stands at its begin.
fn line_of(alloc: Global, text: &[u8]) -> Result<Bytes, Memory> {
    let surface = surface(alloc, text)?;
    let decls = surface.decls.as_slice();
    match decls.first() {
        Some(Decl::Func(func)) => match answer(alloc, decls, func) {
            Ok(line) => Ok(line),
            Err(_) => Err(Memory),
        },
        _ => Err(Memory),
    }
}

/// The text of a row between others.
fn text_of(alloc: Global, before: &[u8], row: &str, after: &[u8]) -> Result<Vec<u8>, Memory> {
    let mut text = Vec::from_slice(alloc, before)?;
    text.extend_from_slice(row.as_bytes())?;
    text.extend_from_slice(after)?;
    Ok(text)
}

pub(crate) fn text_is_told(
    rt: &(impl Abort + AllocGlobal),
    text: &[u8],
    told: &[u8],
) -> Result<(), Fail> {
    let line = line_of(rt.alloc(), text)?;
    assert_eq!(rt; line.as_slice(), told);
    Ok(())
}

/// Each row is a text, ` => `, and its answer; `before` and `after` stand around each text.
pub(crate) fn rows_are_told(
    rt: &(impl Abort + AllocGlobal),
    before: &[u8],
    rows: &str,
    after: &[u8],
) -> Result<(), Fail> {
    for row in rows.lines() {
        if let Some((text, told)) = row.split_once(" => ") {
            let text = text_of(rt.alloc(), before, text, after)?;
            let line = line_of(rt.alloc(), text.as_slice())?;
            let told = text_of(rt.alloc(), b"", told, b"\n")?;
            assert_eq!(rt; line.as_slice(), told.as_slice(), "{row}");
        }
    }
    Ok(())
}
