//! Protocols and functions.
#![tactic(auto, using(surface_spelling::proofs::Bytes::byte_rules, std::proofs::lemmas::Grind::common_steps), unfolding(surface_spelling::specs::Spelling::then_ref, surface_spelling::specs::Spelling::two_refs, surface_spelling::specs::Spelling::refs_behind, surface_spelling::specs::Spelling::alternatives, surface_spelling::specs::Spelling::plain, surface_spelling::specs::Spelling::pbody, surface_spelling::specs::Spelling::proto_head, surface_spelling::specs::Spelling::proto, surface_spelling::specs::Spelling::func_head, surface_spelling::specs::Spelling::func, surface_spelling::specs::Spelling::declaration, surface_spelling::specs::Spelling::declarations))]

ghost use Rattle.std.specs.Prelude.{◌≡◌, ◌++◌, OnOk};
ghost use Rattle.surface_spelling.specs.Layout.{bytes};
ghost use Rattle.surface_spelling.specs.Spelling as spec;

use crate::blocks::put_block;
use crate::heads::{put_condition, put_header, put_result_behind};
use chan_base::Memory;
use chan_syntax::{Body, Bound, Decl, Equation, Ident, Param, Ref, Res, SurfaceFunc, SurfaceProto};
use operand_printer::{put, put_in_parens, put_line, put_reference, put_res};
use std::alloc::Global;

fn put_then_ref(alloc: Global, text: &mut Vec<u8>, next: &Option<Ref>) -> Result<(), Memory>
    ensures { OnOk result (text.new.items ≡ text.old.items ++ bytes (spec.then_ref next.now)) }
{
    if let Some(reference) = next {
        put(text, b" then ")?;
        put_reference(alloc, text, reference)?;
    }
    Ok(())
}

fn put_two_refs(alloc: Global, text: &mut Vec<u8>, this: &Ref, other: &Ref) -> Result<(), Memory>
    ensures { OnOk result (text.new.items ≡ text.old.items ++ bytes (spec.two_refs this.now other.now)) }
{
    put(text, b"then ")?;
    put_reference(alloc, text, this)?;
    put(text, b" else ")?;
    put_reference(alloc, text, other)
}

fn put_refs_behind(alloc: Global, text: &mut Vec<u8>, refs: &[Ref]) -> Result<(), Memory>
    ensures { OnOk result (text.new.items ≡ text.old.items ++ bytes (spec.refs_behind refs.now)) }
{
    for reference in refs {
        put(text, b" | ")?;
        put_reference(alloc, text, reference)?;
    }
    Ok(())
}

fn put_alternatives(alloc: Global, text: &mut Vec<u8>, refs: &[Ref]) -> Result<(), Memory>
    ensures { OnOk result (text.new.items ≡ text.old.items ++ bytes (spec.alternatives refs.now)) }
{
    if let Some((first, more)) = refs.split_first() {
        put_reference(alloc, text, first)?;
        put_refs_behind(alloc, text, more)?;
    }
    Ok(())
}

fn put_equation(alloc: Global, text: &mut Vec<u8>, equation: &Equation) -> Result<(), Memory>
    ensures { OnOk result (text.new.items ≡ text.old.items ++ bytes (spec.plain equation.now)) }
{
    match equation {
        Equation::Send(res, next) => {
            put(text, b"send ")?;
            put_res(alloc, text, res)?;
            put_then_ref(alloc, text, next)
        }
        Equation::Recv(res, next) => {
            put(text, b"recv ")?;
            put_res(alloc, text, res)?;
            put_then_ref(alloc, text, next)
        }
        Equation::Close => put(text, b"close"),
        Equation::Wait => put(text, b"wait"),
        Equation::Branch(left, right, this, other) => {
            put_condition(alloc, text, left, right)?;
            put_two_refs(alloc, text, this, other)
        }
    }
}

fn put_body(alloc: Global, text: &mut Vec<u8>, body: &Body) -> Result<(), Memory>
    ensures { OnOk result (text.new.items ≡ text.old.items ++ bytes (spec.pbody body.now)) }
{
    match body {
        Body::Plain(equation) => put_equation(alloc, text, equation),
        Body::Choice {
            offer,
            next,
            refs,
            ..
        } => {
            put(text, if *offer { b"offer " } else { b"choice " })?;
            put(text, next.as_slice())?;
            put(text, b" of ")?;
            put_alternatives(alloc, text, refs.as_slice())
        }
    }
}

fn put_proto_head(
    alloc: Global,
    text: &mut Vec<u8>,
    name: &Ident,
    params: &[Ident],
) -> Result<(), Memory>
    ensures { OnOk result (text.new.items ≡ text.old.items ++ bytes (spec.proto_head name.now params.now)) }
{
    put(text, b"proto ")?;
    put(text, name.as_slice())?;
    put_in_parens(alloc, text, params)?;
    put(text, b" = ")
}

#[tactic(auto, using(surface_spelling::proofs::Bytes::byte_rules, std::proofs::lemmas::Grind::common_steps), unfolding(surface_spelling::specs::Spelling::proto))]
fn put_proto(alloc: Global, text: &mut Vec<u8>, proto: &SurfaceProto) -> Result<(), Memory>
    ensures { OnOk result (text.new.items ≡ text.old.items ++ bytes (spec.proto proto.now)) }
{
    put_proto_head(alloc, text, &proto.name, proto.params.as_slice())?;
    put_body(alloc, text, &proto.body)?;
    put(text, b";")?;
    put_line(text, 0)
}

fn put_func_head(
    alloc: Global,
    text: &mut Vec<u8>,
    name: &Ident,
    bound: &Bound,
    params: &[Param],
    res: &Res,
) -> Result<(), Memory>
    ensures { OnOk result (text.new.items ≡ text.old.items ++ bytes (spec.func_head name.now bound.now params.now res.now)) }
{
    put(text, b"fn ")?;
    put_header(alloc, text, name, bound, params)?;
    put_result_behind(alloc, text, res)?;
    put(text, b" ")
}

#[tactic(auto, using(surface_spelling::proofs::Bytes::byte_rules, std::proofs::lemmas::Grind::common_steps), unfolding(surface_spelling::specs::Spelling::func))]
fn put_func(alloc: Global, text: &mut Vec<u8>, func: &SurfaceFunc) -> Result<(), Memory>
    ensures { OnOk result (text.new.items ≡ text.old.items ++ bytes (spec.func func.now)) }
{
    put_func_head(
        alloc,
        text,
        &func.name,
        &func.bound,
        func.params.as_slice(),
        &func.result,
    )?;
    put_block(alloc, text, &func.block, 0)?;
    put_line(text, 0)
}

fn put_declaration(alloc: Global, text: &mut Vec<u8>, decl: &Decl) -> Result<(), Memory>
    ensures { OnOk result (text.new.items ≡ text.old.items ++ bytes (spec.declaration decl.now)) }
{
    match decl {
        Decl::Proto(proto) => put_proto(alloc, text, proto),
        Decl::Func(func) => put_func(alloc, text, func),
    }
}

pub fn put_declarations(alloc: Global, text: &mut Vec<u8>, decls: &[Decl]) -> Result<(), Memory>
    ensures { OnOk result (text.new.items ≡ text.old.items ++ bytes (spec.declarations decls.now)) }
{
    for decl in decls {
        put_declaration(alloc, text, decl)?;
    }
    Ok(())
}
