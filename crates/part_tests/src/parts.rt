//! Parts of programs, whose nodes are numbered as no text numbers them.
ghost use Rattle.std.specs.Prelude.{◌≡◌, ◌∷◌, [], map, IfOk};
ghost use Rattle.core_programs.specs.Formed.{nexts, IsNumbered};
ghost use Rattle.part_tests.specs.Examples as spec;

use crate::trees::{at, no_bound, no_proof, number, unit, variable};
use chan_base::Memory;
use chan_syntax::{Ident, Param, Params, Protos, Shape, Supply, Term};
use core_programs::{Func, Funcs, Node, Nodes, Parts};
use sqlite_items::Items;
use std::alloc::Global;

/// `let a = 5`
fn five(alloc: Global, next: u32) -> Result<Node, Memory>
    ensures { IfOk result (λ node. nexts node ≡ next ∷ []) }
{
    Ok(Node::Let {
        name: Ident::from_slice(alloc, b"a")?,
        name_span: at(0),
        term: number(alloc, 5)?,
        next,
        span: at(0),
    })
}

/// `let b = div(a, divisor)`
fn quotient(alloc: Global, divisor: u64, next: u32) -> Result<Node, Memory>
    ensures { IfOk result (λ node. nexts node ≡ next ∷ []) }
{
    Ok(Node::Div {
        name: Ident::from_slice(alloc, b"b")?,
        name_span: at(0),
        term: variable(alloc, b'a')?,
        divisor,
        divisor_span: at(7),
        next,
        span: at(0),
    })
}

fn print(alloc: Global, letter: u8, next: u32) -> Result<Node, Memory>
    ensures { IfOk result (λ node. nexts node ≡ next ∷ []) }
{
    Ok(Node::Print {
        term: variable(alloc, letter)?,
        next,
        span: at(0),
    })
}

/// `if left <= right`
fn choose(left: Term, right: Term, yes: u32, no: u32) -> Node
    ensures { nexts result ≡ yes ∷ no ∷ [] }
{
    Node::If {
        left,
        right,
        yes,
        no,
        span: at(0),
    }
}

/// `if 0 <= 0`
fn if_nothing(alloc: Global, yes: u32, no: u32) -> Result<Node, Memory>
    ensures { IfOk result (λ node. nexts node ≡ yes ∷ no ∷ []) }
{
    let left = number(alloc, 0)?;
    let right = number(alloc, 0)?;
    Ok(choose(left, right, yes, no))
}

/// `if a <= 0`
fn if_low(alloc: Global, yes: u32, no: u32) -> Result<Node, Memory>
    ensures { IfOk result (λ node. nexts node ≡ yes ∷ no ∷ []) }
{
    let left = variable(alloc, b'a')?;
    let right = number(alloc, 0)?;
    Ok(choose(left, right, yes, no))
}

/// `ret ()`
fn done(alloc: Global) -> Node
    ensures { nexts result ≡ [] }
{
    Node::Ret {
        value: Supply::Unit,
        proof: no_proof(alloc),
        span: at(0),
    }
}

fn ret(alloc: Global, letter: u8) -> Result<Node, Memory>
    ensures { IfOk result (λ node. nexts node ≡ []) }
{
    Ok(Node::Ret {
        value: Supply::Sum(variable(alloc, letter)?),
        proof: no_proof(alloc),
        span: at(0),
    })
}

fn param(alloc: Global, letter: u8) -> Result<Param, Memory> {
    Ok(Param {
        name: Ident::from_slice(alloc, &[letter])?,
        name_span: at(0),
        shape: Shape::Unit,
    })
}

/// A parameter of no value for each letter.
fn params(alloc: Global, letters: &[u8]) -> Result<Params, Memory> {
    let mut params: Items<Param> = Items::new(alloc);
    for letter in letters {
        params.push(param(alloc, *letter)?)?;
    }
    Ok(params)
}

fn func(alloc: Global, name: &[u8], letters: &[u8], first: u32) -> Result<Func, Memory>
    ensures { IfOk result (λ func. func.first ≡ first) }
{
    Ok(Func {
        name: Ident::from_slice(alloc, name)?,
        name_span: at(0),
        bound: no_bound(alloc),
        params: params(alloc, letters)?,
        result: unit(no_bound(alloc)),
        first,
        span: at(0),
    })
}

/// `let a = 5; let b = div(a, divisor); print b; ret ()`, where each node stands before the next one.
fn chain_nodes(alloc: Global, divisor: u64) -> Result<Nodes, Memory>
    ensures { IfOk result (λ nodes. map nexts nodes ≡ spec.chain) }
{
    let mut nodes = Nodes::new(alloc);
    nodes.push(five(alloc, 1)?)?;
    nodes.push(quotient(alloc, divisor, 2)?)?;
    nodes.push(print(alloc, b'b', 3)?)?;
    nodes.push(done(alloc))?;
    Ok(nodes)
}

fn main_alone(alloc: Global) -> Result<Funcs, Memory>
    ensures { IfOk result (λ funcs. map (λ f. f.first) funcs ≡ 0 ∷ []) }
{
    let mut funcs = Funcs::new(alloc);
    funcs.push(func(alloc, b"main", b"", 0)?)?;
    Ok(funcs)
}

/// The function `main` alone, which divides 5.
pub(crate) fn chain(alloc: Global, protos: Protos, divisor: u64) -> Result<Parts, Memory>
    ensures { IfOk result IsNumbered }
{
    let funcs = main_alone(alloc)?;
    let nodes = chain_nodes(alloc, divisor)?;
    Ok(Parts {
        protos,
        funcs,
        nodes,
    })
}

/// The nodes of two functions, one among those of the other.
///
///     fn f(x: unit, y: unit) -> unit { if 0 <= 0 { ret x } else { ret y } }
///     fn main() -> unit { let a = 5; if a <= 0 { print a; ret () } else { ret () } }
fn mixed_nodes(alloc: Global) -> Result<Nodes, Memory>
    ensures { IfOk result (λ nodes. map nexts nodes ≡ spec.mixed) }
{
    let mut nodes = Nodes::new(alloc);
    nodes.push(if_nothing(alloc, 5, 2)?)?;
    nodes.push(print(alloc, b'a', 6)?)?;
    nodes.push(ret(alloc, b'y')?)?;
    nodes.push(five(alloc, 7)?)?;
    nodes.push(done(alloc))?;
    nodes.push(ret(alloc, b'x')?)?;
    nodes.push(done(alloc))?;
    nodes.push(if_low(alloc, 1, 4)?)?;
    Ok(nodes)
}

fn both(alloc: Global) -> Result<Funcs, Memory>
    ensures { IfOk result (λ funcs. map (λ f. f.first) funcs ≡ 0 ∷ 3 ∷ []) }
{
    let mut funcs = Funcs::new(alloc);
    funcs.push(func(alloc, b"f", b"xy", 0)?)?;
    funcs.push(func(alloc, b"main", b"", 3)?)?;
    Ok(funcs)
}

/// The functions `f` and `main`, whose nodes stand among each other.
pub(crate) fn mixed(alloc: Global) -> Result<Parts, Memory>
    ensures { IfOk result IsNumbered }
{
    let funcs = both(alloc)?;
    let nodes = mixed_nodes(alloc)?;
    Ok(Parts {
        protos: Protos::new(alloc),
        funcs,
        nodes,
    })
}
