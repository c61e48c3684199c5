//! Copies of statements of the core language.
ghost use Rattle.std.specs.Prelude.{◌≡◌, true, IfOk};
ghost use Rattle.core_trees.specs.Core.{is_core_stmt};
ghost use Rattle.statement_copies.specs.Forms as form;

use chan_base::Memory;
use chan_syntax::{Ident, Pat, Path, Proof, Stmt, Supplies, copy_path, copy_supplies};
use std::alloc::Global;

/// A copy of a Let.
fn copy_let(alloc: Global, stmt: &Stmt) -> Result<Stmt, Memory>
    requires { form.is_let stmt.now ≡ true }
    ensures { IfOk result (λ copy. copy ≡ stmt.now) }
{
    let Stmt::Let {
        name,
        name_span,
        term,
        span,
    } = stmt
    else {
        unreachable!();
    };
    Ok(Stmt::Let {
        name: name.copy()?,
        name_span: *name_span,
        term: term.copy(alloc)?,
        span: *span,
    })
}

/// A copy of a Mul.
fn copy_mul(alloc: Global, stmt: &Stmt) -> Result<Stmt, Memory>
    requires { form.is_mul stmt.now ≡ true }
    ensures { IfOk result (λ copy. copy ≡ stmt.now) }
{
    let Stmt::Mul {
        name,
        name_span,
        left,
        right,
        span,
    } = stmt
    else {
        unreachable!();
    };
    Ok(Stmt::Mul {
        name: name.copy()?,
        name_span: *name_span,
        left: left.copy(alloc)?,
        right: right.copy(alloc)?,
        span: *span,
    })
}

/// A copy of a Div.
fn copy_div(alloc: Global, stmt: &Stmt) -> Result<Stmt, Memory>
    requires { form.is_div stmt.now ≡ true }
    ensures { IfOk result (λ copy. copy ≡ stmt.now) }
{
    let Stmt::Div {
        name,
        name_span,
        term,
        divisor,
        divisor_span,
        span,
    } = stmt
    else {
        unreachable!();
    };
    Ok(Stmt::Div {
        name: name.copy()?,
        name_span: *name_span,
        term: term.copy(alloc)?,
        divisor: *divisor,
        divisor_span: *divisor_span,
        span: *span,
    })
}

/// A copy of a Rem.
fn copy_rem(alloc: Global, stmt: &Stmt) -> Result<Stmt, Memory>
    requires { form.is_rem stmt.now ≡ true }
    ensures { IfOk result (λ copy. copy ≡ stmt.now) }
{
    let Stmt::Rem {
        name,
        name_span,
        term,
        divisor,
        divisor_span,
        span,
    } = stmt
    else {
        unreachable!();
    };
    Ok(Stmt::Rem {
        name: name.copy()?,
        name_span: *name_span,
        term: term.copy(alloc)?,
        divisor: *divisor,
        divisor_span: *divisor_span,
        span: *span,
    })
}

/// The name of a function, the values for it, and the proof.
pub fn called(
    alloc: Global,
    func: &Ident,
    values: &Supplies,
    proof: &Proof,
) -> Result<(Ident, Supplies, Proof), Memory>
    ensures { IfOk result (λ p. (p.0 ≡ func.now) × (p.1 ≡ values.now) × (p.2 ≡ proof.now)) }
{
    let func = func.copy()?;
    let values = copy_supplies(alloc, values)?;
    let proof = proof.copy(alloc)?;
    Ok((func, values, proof))
}

/// A copy of a Call.
fn copy_call(alloc: Global, stmt: &Stmt) -> Result<Stmt, Memory>
    requires { form.is_call stmt.now ≡ true }
    ensures { IfOk result (λ copy. copy ≡ stmt.now) }
{
    let Stmt::Call {
        pat,
        func,
        func_span,
        values,
        proof,
        span,
    } = stmt
    else {
        unreachable!();
    };
    let pat = pat.copy(alloc)?;
    let (func, values, proof) = called(alloc, func, values, proof)?;
    Ok(Stmt::Call {
        pat,
        func,
        func_span: *func_span,
        values,
        proof,
        span: *span,
    })
}

/// A copy of a Fork.
fn copy_fork(alloc: Global, stmt: &Stmt) -> Result<Stmt, Memory>
    requires { form.is_fork stmt.now ≡ true }
    ensures { IfOk result (λ copy. copy ≡ stmt.now) }
{
    let Stmt::Fork {
        name,
        name_span,
        proto,
        func,
        func_span,
        values,
        proof,
        span,
    } = stmt
    else {
        unreachable!();
    };
    let name = name.copy()?;
    let proto = proto.copy(alloc)?;
    let (func, values, proof) = called(alloc, func, values, proof)?;
    Ok(Stmt::Fork {
        name,
        name_span: *name_span,
        proto,
        func,
        func_span: *func_span,
        values,
        proof,
        span: *span,
    })
}

/// A channel, the way through its protocol, and the proof.
pub fn access(
    alloc: Global,
    channel: &Ident,
    path: &Path,
    proof: &Proof,
) -> Result<(Ident, Path, Proof), Memory>
    ensures { IfOk result (λ p. (p.0 ≡ channel.now) × (p.1 ≡ path.now) × (p.2 ≡ proof.now)) }
{
    let channel = channel.copy()?;
    let path = copy_path(alloc, path)?;
    let proof = proof.copy(alloc)?;
    Ok((channel, path, proof))
}

/// A copy of a Send1.
fn copy_send1(alloc: Global, stmt: &Stmt) -> Result<Stmt, Memory>
    requires { form.is_send stmt.now ≡ true }
    ensures { IfOk result (λ copy. copy ≡ stmt.now) }
{
    let Stmt::Send1 {
        channel,
        channel_span,
        path,
        path_span,
        value,
        proof,
        span,
    } = stmt
    else {
        unreachable!();
    };
    let (channel, path, proof) = access(alloc, channel, path, proof)?;
    let value = value.copy(alloc)?;
    Ok(Stmt::Send1 {
        channel,
        channel_span: *channel_span,
        path,
        path_span: *path_span,
        value,
        proof,
        span: *span,
    })
}

/// A copy of a Recv1.
fn copy_recv1(alloc: Global, stmt: &Stmt) -> Result<Stmt, Memory>
    requires { form.is_recv stmt.now ≡ true }
    ensures { IfOk result (λ copy. copy ≡ stmt.now) }
{
    let Stmt::Recv1 {
        pat,
        channel,
        channel_span,
        path,
        path_span,
        proof,
        span,
    } = stmt
    else {
        unreachable!();
    };
    let pat = pat.copy(alloc)?;
    let (channel, path, proof) = access(alloc, channel, path, proof)?;
    Ok(Stmt::Recv1 {
        pat,
        channel,
        channel_span: *channel_span,
        path,
        path_span: *path_span,
        proof,
        span: *span,
    })
}

pub fn pats(alloc: Global, first: &Pat, second: &Pat) -> Result<(Pat, Pat), Memory>
    ensures { IfOk result (λ p. (p.0 ≡ first.now) × (p.1 ≡ second.now)) }
{
    let first = first.copy(alloc)?;
    let second = second.copy(alloc)?;
    Ok((first, second))
}

/// A copy of a Split.
fn copy_split(alloc: Global, stmt: &Stmt) -> Result<Stmt, Memory>
    requires { form.is_split stmt.now ≡ true }
    ensures { IfOk result (λ copy. copy ≡ stmt.now) }
{
    let Stmt::Split {
        first,
        second,
        name,
        name_span,
        span,
    } = stmt
    else {
        unreachable!();
    };
    let name = name.copy()?;
    let (first, second) = pats(alloc, first, second)?;
    Ok(Stmt::Split {
        first,
        second,
        name,
        name_span: *name_span,
        span: *span,
    })
}

/// A copy of a Print.
fn copy_print(alloc: Global, stmt: &Stmt) -> Result<Stmt, Memory>
    requires { form.is_print stmt.now ≡ true }
    ensures { IfOk result (λ copy. copy ≡ stmt.now) }
{
    let Stmt::Print { term, span } = stmt else {
        unreachable!();
    };
    let term = term.copy(alloc)?;
    Ok(Stmt::Print { term, span: *span })
}

/// A copy of a statement that is no session.
pub fn copy_stmt(alloc: Global, stmt: &Stmt) -> Result<Stmt, Memory>
    requires core { is_core_stmt stmt.now ≡ true }
    ensures { IfOk result (λ copy. copy ≡ stmt.now) }
{
    match stmt {
        Stmt::Let { .. } => copy_let(alloc, stmt),
        Stmt::Mul { .. } => copy_mul(alloc, stmt),
        Stmt::Div { .. } => copy_div(alloc, stmt),
        Stmt::Rem { .. } => copy_rem(alloc, stmt),
        Stmt::Call { .. } => copy_call(alloc, stmt),
        Stmt::Fork { .. } => copy_fork(alloc, stmt),
        Stmt::Send1 { .. } => copy_send1(alloc, stmt),
        Stmt::Recv1 { .. } => copy_recv1(alloc, stmt),
        Stmt::Split { .. } => copy_split(alloc, stmt),
        Stmt::Print { .. } => copy_print(alloc, stmt),
        _ => unreachable!(),
    }
}
