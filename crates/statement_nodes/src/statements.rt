//! One node for each statement.
ghost use Rattle.std.specs.Prelude.{◌≡◌, true, IfOk};
ghost use Rattle.core_trees.specs.Core.{is_core_stmt};
ghost use Rattle.statement_copies.specs.Forms as form;
ghost use Rattle.statement_nodes.specs.Nodes.{IsNodeOf};

use chan_base::Memory;
use chan_syntax::Stmt;
use core_programs::Node;
use statement_copies::{access, called, pats};
use std::alloc::Global;

/// The node of a Let.
fn let_node(alloc: Global, stmt: &Stmt, next: u32) -> Result<Node, Memory>
    requires { form.is_let stmt.now ≡ true }
    ensures { IfOk result (IsNodeOf stmt.now next) }
{
    let Stmt::Let {
        name,
        name_span,
        term,
        span,
    } = stmt
    else {
        unreachable!();
    };
    Ok(Node::Let {
        name: name.copy()?,
        name_span: *name_span,
        term: term.copy(alloc)?,
        next,
        span: *span,
    })
}

/// The node of a Mul.
fn mul_node(alloc: Global, stmt: &Stmt, next: u32) -> Result<Node, Memory>
    requires { form.is_mul stmt.now ≡ true }
    ensures { IfOk result (IsNodeOf stmt.now next) }
{
    let Stmt::Mul {
        name,
        name_span,
        left,
        right,
        span,
    } = stmt
    else {
        unreachable!();
    };
    Ok(Node::Mul {
        name: name.copy()?,
        name_span: *name_span,
        left: left.copy(alloc)?,
        right: right.copy(alloc)?,
        next,
        span: *span,
    })
}

/// The node of a Div.
fn div_node(alloc: Global, stmt: &Stmt, next: u32) -> Result<Node, Memory>
    requires { form.is_div stmt.now ≡ true }
    ensures { IfOk result (IsNodeOf stmt.now next) }
{
    let Stmt::Div {
        name,
        name_span,
        term,
        divisor,
        divisor_span,
        span,
    } = stmt
    else {
        unreachable!();
    };
    Ok(Node::Div {
        name: name.copy()?,
        name_span: *name_span,
        term: term.copy(alloc)?,
        divisor: *divisor,
        divisor_span: *divisor_span,
        next,
        span: *span,
    })
}

/// The node of a Rem.
fn rem_node(alloc: Global, stmt: &Stmt, next: u32) -> Result<Node, Memory>
    requires { form.is_rem stmt.now ≡ true }
    ensures { IfOk result (IsNodeOf stmt.now next) }
{
    let Stmt::Rem {
        name,
        name_span,
        term,
        divisor,
        divisor_span,
        span,
    } = stmt
    else {
        unreachable!();
    };
    Ok(Node::Rem {
        name: name.copy()?,
        name_span: *name_span,
        term: term.copy(alloc)?,
        divisor: *divisor,
        divisor_span: *divisor_span,
        next,
        span: *span,
    })
}

/// The node of a Call.
fn call_node(alloc: Global, stmt: &Stmt, next: u32) -> Result<Node, Memory>
    requires { form.is_call stmt.now ≡ true }
    ensures { IfOk result (IsNodeOf stmt.now next) }
{
    let Stmt::Call {
        pat,
        func,
        func_span,
        values,
        proof,
        span,
    } = stmt
    else {
        unreachable!();
    };
    let pat = pat.copy(alloc)?;
    let (func, values, proof) = called(alloc, func, values, proof)?;
    Ok(Node::Call {
        pat,
        func,
        func_span: *func_span,
        values,
        proof,
        next,
        span: *span,
    })
}

/// The node of a Fork.
fn fork_node(alloc: Global, stmt: &Stmt, next: u32) -> Result<Node, Memory>
    requires { form.is_fork stmt.now ≡ true }
    ensures { IfOk result (IsNodeOf stmt.now next) }
{
    let Stmt::Fork {
        name,
        name_span,
        proto,
        func,
        func_span,
        values,
        proof,
        span,
    } = stmt
    else {
        unreachable!();
    };
    let name = name.copy()?;
    let proto = proto.copy(alloc)?;
    let (func, values, proof) = called(alloc, func, values, proof)?;
    Ok(Node::Fork {
        name,
        name_span: *name_span,
        proto,
        func,
        func_span: *func_span,
        values,
        proof,
        next,
        span: *span,
    })
}

/// The node of a Send1.
fn send1_node(alloc: Global, stmt: &Stmt, next: u32) -> Result<Node, Memory>
    requires { form.is_send stmt.now ≡ true }
    ensures { IfOk result (IsNodeOf stmt.now next) }
{
    let Stmt::Send1 {
        channel,
        channel_span,
        path,
        path_span,
        value,
        proof,
        span,
    } = stmt
    else {
        unreachable!();
    };
    let (channel, path, proof) = access(alloc, channel, path, proof)?;
    let value = value.copy(alloc)?;
    Ok(Node::Send1 {
        channel,
        channel_span: *channel_span,
        path,
        path_span: *path_span,
        value,
        proof,
        next,
        span: *span,
    })
}

/// The node of a Recv1.
fn recv1_node(alloc: Global, stmt: &Stmt, next: u32) -> Result<Node, Memory>
    requires { form.is_recv stmt.now ≡ true }
    ensures { IfOk result (IsNodeOf stmt.now next) }
{
    let Stmt::Recv1 {
        pat,
        channel,
        channel_span,
        path,
        path_span,
        proof,
        span,
    } = stmt
    else {
        unreachable!();
    };
    let pat = pat.copy(alloc)?;
    let (channel, path, proof) = access(alloc, channel, path, proof)?;
    Ok(Node::Recv1 {
        pat,
        channel,
        channel_span: *channel_span,
        path,
        path_span: *path_span,
        proof,
        next,
        span: *span,
    })
}

/// The node of a Split.
fn split_node(alloc: Global, stmt: &Stmt, next: u32) -> Result<Node, Memory>
    requires { form.is_split stmt.now ≡ true }
    ensures { IfOk result (IsNodeOf stmt.now next) }
{
    let Stmt::Split {
        first,
        second,
        name,
        name_span,
        span,
    } = stmt
    else {
        unreachable!();
    };
    let name = name.copy()?;
    let (first, second) = pats(alloc, first, second)?;
    Ok(Node::Split {
        first,
        second,
        name,
        name_span: *name_span,
        next,
        span: *span,
    })
}

/// The node of a Print.
fn print_node(alloc: Global, stmt: &Stmt, next: u32) -> Result<Node, Memory>
    requires { form.is_print stmt.now ≡ true }
    ensures { IfOk result (IsNodeOf stmt.now next) }
{
    let Stmt::Print { term, span } = stmt else {
        unreachable!();
    };
    let term = term.copy(alloc)?;
    Ok(Node::Print {
        term,
        next,
        span: *span,
    })
}

/// The node of a statement, where the node with this number follows.
pub fn stmt_node(alloc: Global, stmt: &Stmt, next: u32) -> Result<Node, Memory>
    requires core { is_core_stmt stmt.now ≡ true }
    ensures { IfOk result (IsNodeOf stmt.now next) }
{
    match stmt {
        Stmt::Let { .. } => let_node(alloc, stmt, next),
        Stmt::Mul { .. } => mul_node(alloc, stmt, next),
        Stmt::Div { .. } => div_node(alloc, stmt, next),
        Stmt::Rem { .. } => rem_node(alloc, stmt, next),
        Stmt::Call { .. } => call_node(alloc, stmt, next),
        Stmt::Fork { .. } => fork_node(alloc, stmt, next),
        Stmt::Send1 { .. } => send1_node(alloc, stmt, next),
        Stmt::Recv1 { .. } => recv1_node(alloc, stmt, next),
        Stmt::Split { .. } => split_node(alloc, stmt, next),
        Stmt::Print { .. } => print_node(alloc, stmt, next),
        _ => unreachable!(),
    }
}
