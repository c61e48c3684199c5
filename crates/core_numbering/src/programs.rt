//! The core program of a tree whose forms are all of the core language.
ghost use Rattle.std.specs.Prelude.{◌≡◌, [], true, IfOk, IfErr, OnOk};
ghost use Rattle.chan_syntax.specs.declared.surface_tree.Decl.TheVariants as decl;
ghost use Rattle.core_programs.specs.Form.{HasForm};
ghost use Rattle.core_trees.specs.Core.{is_core_block, is_core_body, is_core_decl, is_core};
ghost use Rattle.core_numbering.specs.Numbering.{IsBodyAt, IsNumbering, IsNumberingFault, proto_of, func_of};
ghost use Rattle.core_numbering.specs.Rooted.{Adds};
ghost use Rattle.core_numbering.specs.Drafts.{Numbers};

use crate::numbering::number_block;
use chan_base::Memory;
use chan_syntax::{
    Body, Bound, Decl, Equation, Ident, Params, Proto, Res, Surface, SurfaceFunc, SurfaceProto,
    copy_names, copy_params, copy_spans,
};
use core_programs::{BuildFault, Func, Nodes, Parts, Program};
use sqlite_items::Items;
use std::alloc::Global;

fn plain_proto(alloc: Global, proto: &SurfaceProto, equation: &Equation) -> Result<Proto, Memory>
    ensures { IfOk result (λ p. p ≡ proto_of proto.now equation.now) }
{
    Ok(Proto {
        name: proto.name.copy()?,
        name_span: proto.name_span,
        params: copy_names(alloc, &proto.params)?,
        params_spans: copy_spans(alloc, &proto.params_spans)?,
        equation: equation.copy(alloc)?,
        span: proto.span,
    })
}

/// The name of a function, and the integers that it binds.
fn named(alloc: Global, func: &SurfaceFunc) -> Result<(Ident, Bound), Memory>
    ensures { IfOk result (λ p. (p.0 ≡ func.now.name) × (p.1 ≡ func.now.bound)) }
{
    let name = func.name.copy()?;
    let bound = func.bound.copy(alloc)?;
    Ok((name, bound))
}

/// The parameters and the result of a function.
fn typed(alloc: Global, func: &SurfaceFunc) -> Result<(Params, Res), Memory>
    ensures { IfOk result (λ p. (p.0 ≡ func.now.params) × (p.1 ≡ func.now.result)) }
{
    let params = copy_params(alloc, &func.params)?;
    let result = func.result.copy(alloc)?;
    Ok((params, result))
}

/// Adds the nodes of a function.
fn number_func(alloc: Global, nodes: &mut Nodes, func: &SurfaceFunc) -> Result<Func, Memory>
    requires core { is_core_block func.now.block ≡ true }
    ensures adds { IfOk result (λ f. Adds nodes.old nodes.new [] f.first) }
    ensures func { IfOk result (λ f. f ≡ func_of func.now f.first) }
    ensures body { IfOk result (λ f. IsBodyAt nodes.new func.now.block f.first) }
{
    let first = number_block(alloc, nodes, &func.block)?;
    let (name, bound) = named(alloc, func)?;
    let (params, result) = typed(alloc, func)?;
    Ok(Func {
        name,
        name_span: func.name_span,
        bound,
        params,
        result,
        first,
        span: func.span,
    })
}

fn add_proto(alloc: Global, parts: &mut Parts, proto: &SurfaceProto) -> Result<(), Memory>
    requires core { is_core_body proto.now.body ≡ true }
    ensures { OnOk result (Numbers (decl.Proto proto.now) parts.old parts.new) }
{
    match &proto.body {
        Body::Plain(equation) => {
            let proto = plain_proto(alloc, proto, equation)?;
            parts.protos.push(proto)?;
            Ok(())
        }
        Body::Choice { .. } => unreachable!(),
    }
}

fn add_func(alloc: Global, parts: &mut Parts, func: &SurfaceFunc) -> Result<(), Memory>
    requires core { is_core_block func.now.block ≡ true }
    ensures { OnOk result (Numbers (decl.Func func.now) parts.old parts.new) }
{
    let func = number_func(alloc, &mut parts.nodes, func)?;
    parts.funcs.push(func)?;
    Ok(())
}

fn add_decl(alloc: Global, parts: &mut Parts, decl: &Decl) -> Result<(), Memory>
    requires core { is_core_decl decl.now ≡ true }
    ensures { OnOk result (Numbers decl.now parts.old parts.new) }
{
    match decl {
        Decl::Proto(proto) => add_proto(alloc, parts, proto),
        Decl::Func(func) => add_func(alloc, parts, func),
    }
}

/// The protocols and the functions of the tree, in their order.
fn parts_of(alloc: Global, surface: &Surface) -> Result<Parts, Memory>
    requires core { is_core surface.now ≡ true }
    ensures { IfOk result (IsNumbering surface.now) }
{
    let mut parts = Parts {
        protos: Items::new(alloc),
        funcs: Items::new(alloc),
        nodes: Items::new(alloc),
    };
    'decls: for decl in surface.decls.as_slice() {
        add_decl(alloc, &mut parts, decl)?;
    }
    Ok(parts)
}

/// The program of a tree without sessions, its nodes numbered.
pub fn number(alloc: Global, surface: &Surface) -> Result<Program, BuildFault>
    requires core { is_core surface.now ≡ true }
    ensures numbered { IfOk result (IsNumbering surface.now) }
    ensures form { IfOk result HasForm }
    ensures fault { IfErr result (IsNumberingFault surface.now) }
{
    let parts = parts_of(alloc, surface)?;
    let program = Program::build(alloc, parts)?;
    Ok(program)
}
