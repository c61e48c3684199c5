//! Declarations, and what is printed of them.
use crate::trees::{at, no_bound, no_proof, number, unit};
use chan_base::{Bytes, Memory};
use chan_printer::print;
use chan_syntax::{
    Block, Body, Bound, Decl, Equation, Ident, Last, Limit, Relation, Res, Surface, SurfaceFunc,
    SurfaceProto, Term,
};
use sqlite_items::{Boxed, Items};
use std::alloc::Global;

fn spelling(alloc: Global, surface: &Surface) -> Result<Vec<u8>, Memory> {
    let bytes: Bytes = print(alloc, surface)?;
    Ok(Vec::from_slice(alloc, bytes.as_slice())?)
}

/// What is printed of one declaration.
pub(crate) fn printed(alloc: Global, decl: Decl) -> Result<Vec<u8>, Memory> {
    let decls = Items::from_vec(vec![in alloc; decl]?);
    spelling(alloc, &Surface { decls })
}

fn limit(left: Term, right: Term) -> Limit {
    Limit {
        left,
        relation: Relation::AtMost,
        right,
    }
}

/// The limit `0 <= 0` and no names.
pub(crate) fn limit_alone(alloc: Global) -> Result<Bound, Memory> {
    let left = number(alloc, 0)?;
    let right = number(alloc, 0)?;
    let limits = Items::from_vec(vec![in alloc; limit(left, right)]?);
    Ok(Bound {
        names: Items::new(alloc),
        names_spans: Items::new(alloc),
        limits,
    })
}

/// A protocol without parameters that sends this.
pub(crate) fn sending(alloc: Global, name: Ident, res: Res) -> Decl {
    Decl::Proto(SurfaceProto {
        name,
        name_span: at(0),
        params: Items::new(alloc),
        params_spans: Items::new(alloc),
        body: Body::Plain(Equation::Send(res, None)),
        span: at(0),
    })
}

/// The end of a block that isn't reached.
pub(crate) fn absurd(alloc: Global) -> Last {
    Last::Absurd {
        proof: no_proof(alloc),
        span: at(0),
    }
}

/// A function without parameters, of nothing.
pub(crate) fn func(alloc: Global, name: Ident, bound: Bound, last: Boxed<Last>) -> Decl {
    Decl::Func(SurfaceFunc {
        name,
        name_span: at(0),
        bound,
        params: Items::new(alloc),
        result: unit(no_bound(alloc)),
        block: Block {
            stmts: Items::new(alloc),
            last,
        },
        span: at(0),
    })
}
