//! Programs that are built of parts, and faults of others.
use crate::parts::{chain, mixed};
use crate::rows::is_told;
use crate::trees::{at, proto, unit};
use chan_base::{Memory, Spans};
use chan_syntax::{Bound, Equation, Ident, Idents, Limits, Protos};
use core_programs::{BuildFault, IllKind, Node, Program};
use sqlite_items::Items;
use std::alloc::Global;
use std::process::Abort;
use std::test::Fail;

/// Names of two letters, of which the first has a dot too, or hasn't.
fn names(alloc: Global, count: u8, dotted: bool) -> Result<Idents, Memory> {
    let mut names = Items::new(alloc);
    for number in 0..count {
        let first = b'a' + number / 20;
        let second = b'a' + number % 20;
        let plain = [first, second];
        let with_dot = [first, second, b'.'];
        let bytes: &[u8] = if dotted && number == 0 {
            &with_dot
        } else {
            &plain
        };
        names.push(Ident::from_slice(alloc, bytes)?)?;
    }
    Ok(names)
}

/// Each name stands at its number.
fn spans(alloc: Global, count: u8) -> Result<Spans, Memory> {
    let mut spans = Items::new(alloc);
    for number in 0..count {
        spans.push(at(u32::from(number)))?;
    }
    Ok(spans)
}

/// A protocol that sends nothing, under so many binders.
fn sends_under(alloc: Global, count: u8, dotted: bool) -> Result<Protos, Memory> {
    let name = Ident::from_slice(alloc, b"P")?;
    let bound = Bound {
        names: names(alloc, count, dotted)?,
        names_spans: spans(alloc, count)?,
        limits: Limits::new(alloc),
    };
    let mut protos = Items::new(alloc);
    protos.push(proto(alloc, name, Equation::Send(unit(bound), None)))?;
    Ok(protos)
}

/// The kind of a fault, and where it stands, or none.
type Fault = Option<(IllKind, u32)>;

fn fault(built: Result<Program, BuildFault>) -> Result<Fault, Memory> {
    match built {
        Ok(_) => Ok(None),
        Err(BuildFault::Ill(ill)) => Ok(Some((ill.kind, ill.span.start))),
        Err(BuildFault::Memory) => Err(Memory),
    }
}

fn has_fault(
    rt: &(impl Abort + AllocGlobal),
    told: Result<Fault, Memory>,
    want: Fault,
) -> Result<(), Fail> {
    let told = told?;
    assert_eq!(rt; told, want);
    Ok(())
}

fn fault_under(alloc: Global, count: u8, dotted: bool) -> Result<Fault, Memory> {
    let parts = chain(alloc, sends_under(alloc, count, dotted)?, 1)?;
    fault(Program::build(alloc, parts))
}

/// How many binders there are, whether the first has a dot, and the fault.
type Binders = (u8, bool, Fault);

static BINDERS: [Binders; 5] = [
    (16, false, None),
    (17, false, Some((IllKind::TooMany, 16))),
    (17, true, None),
    (32, true, None),
    (33, true, Some((IllKind::TooMany, 32))),
];

#[test]
fn a_list_with_a_dot_has_more_binders(rt: HostRuntime) -> Result<(), Fail> {
    for (count, dotted, want) in &BINDERS {
        has_fault(&rt, fault_under(rt.alloc(), *count, *dotted), *want)?;
    }
    Ok(())
}

fn program(built: Result<Program, BuildFault>) -> Result<Program, Memory> {
    match built {
        Ok(program) => Ok(program),
        Err(_) => Err(Memory),
    }
}

/// The divisor of the node with the number 1.
fn divisor_of(program: &Program) -> Option<u64> {
    if program.parts().nodes.len() < 2 {
        return None;
    }
    match program.node(1) {
        Node::Div { divisor, .. } => Some(*divisor),
        _ => None,
    }
}

/// The divisor once it is in a program.
fn kept(alloc: Global, divisor: u64) -> Result<Option<u64>, Memory> {
    let parts = chain(alloc, Protos::new(alloc), divisor)?;
    let program = program(Program::build(alloc, parts))?;
    Ok(divisor_of(&program))
}

fn is_kept(rt: &(impl Abort + AllocGlobal), divisor: u64) -> Result<(), Fail> {
    let kept = kept(rt.alloc(), divisor)?;
    assert_eq!(rt; kept, Some(divisor));
    Ok(())
}

fn fault_of_zero(alloc: Global) -> Result<Fault, Memory> {
    let parts = chain(alloc, Protos::new(alloc), 0)?;
    fault(Program::build(alloc, parts))
}

static DIVISORS: [u64; 4] = [
    1,
    9223372036854775807,
    9223372036854775808,
    18446744073709551615,
];

#[test]
fn divisors_may_pass_what_a_text_can_have(rt: HostRuntime) -> Result<(), Fail> {
    for divisor in &DIVISORS {
        is_kept(&rt, *divisor)?;
    }
    has_fault(
        &rt,
        fault_of_zero(rt.alloc()),
        Some((IllKind::BadNumber, 7)),
    )
}

/// Whether the body at the node with this number names the variable.
fn names_at(alloc: Global, program: &Program, number: u32, letter: u8) -> Result<bool, Memory> {
    if number as usize >= program.parts().nodes.len() {
        return Err(Memory);
    }
    let name = Ident::from_slice(alloc, &[letter])?;
    Ok(program.names(number, &name))
}

/// Which of the variables the body at the node with this number names.
fn named(alloc: Global, program: &Program, number: u32, letters: &[u8]) -> Result<Vec<u8>, Memory> {
    let mut named = Vec::new(alloc);
    for letter in letters {
        if names_at(alloc, program, number, *letter)? {
            named.push(*letter)?;
        }
    }
    Ok(named)
}

fn named_in_chain(alloc: Global, number: u32) -> Result<Vec<u8>, Memory> {
    let parts = chain(alloc, Protos::new(alloc), 2)?;
    let program = program(Program::build(alloc, parts))?;
    named(alloc, &program, number, b"axyb")
}

fn named_in_mixed(alloc: Global, number: u32) -> Result<Vec<u8>, Memory> {
    let parts = mixed(alloc)?;
    let program = program(Program::build(alloc, parts))?;
    named(alloc, &program, number, b"axyb")
}

/// The number of a node, and the variables that its body names.
type Names = (u32, &'static [u8]);

static IN_CHAIN: [Names; 4] = [(0, b"ab"), (1, b"ab"), (2, b"b"), (3, b"")];

#[test]
fn bodies_that_go_on_behind_name_what_their_nodes_name(rt: HostRuntime) -> Result<(), Fail> {
    for (number, want) in &IN_CHAIN {
        is_told(&rt, named_in_chain(rt.alloc(), *number), want)?;
    }
    Ok(())
}

static IN_MIXED: [Names; 8] = [
    (0, b"xy"),
    (1, b"a"),
    (2, b"y"),
    (3, b"a"),
    (4, b""),
    (5, b"x"),
    (6, b""),
    (7, b"a"),
];

#[test]
fn bodies_among_each_other_name_what_their_nodes_name(rt: HostRuntime) -> Result<(), Fail> {
    for (number, want) in &IN_MIXED {
        is_told(&rt, named_in_mixed(rt.alloc(), *number), want)?;
    }
    Ok(())
}
