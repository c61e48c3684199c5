//! The whole program.
ghost use Rattle.std.specs.Prelude.{◌≡◌, ◌++◌, ◌≤◌, length, IfOk, OnOk};
ghost use Rattle.made_programs.specs.Texts as spec;

use crate::declarations::put_declarations;
use crate::pieces::{put, put_numbered};
use chan_base::{Bytes, Memory};
use std::alloc::Global;

fn put_stage(alloc: Global, text: &mut Vec<u8>, number: u32) -> Result<(), Memory>
    requires { 1 ≤ number }
    ensures { OnOk result (text.new.items ≡ text.old.items ++ spec.stage_line number) }
{
    put_numbered(alloc, text, b"    let c", number)?;
    put_numbered(alloc, text, b" = fork One(", number)?;
    put_numbered(alloc, text, b") stage(c", number - 1)?;
    put_numbered(alloc, text, b") with [", number - 1)?;
    put(text, b"];\n")
}

fn put_stages(alloc: Global, text: &mut Vec<u8>, count: u32) -> Result<(), Memory>
    requires { count ≤ 5000 }
    ensures { OnOk result (text.new.items ≡ text.old.items ++ spec.for_each spec.stage_line count) }
{
    let mut number = 1;
    'numbers: while number <= count {
        put_stage(alloc, text, number)?;
        number += 1;
    }
    Ok(())
}

fn put_pass(alloc: Global, text: &mut Vec<u8>, number: u32) -> Result<(), Memory>
    requires { 1 ≤ number }
    ensures { OnOk result (text.new.items ≡ text.old.items ++ spec.pass_line number) }
{
    put_numbered(alloc, text, b"    let g", number)?;
    put_numbered(alloc, text, b" = fork Give() pass(g", number - 1)?;
    put(text, b");\n")
}

fn put_passes(alloc: Global, text: &mut Vec<u8>, count: u32) -> Result<(), Memory>
    requires { count ≤ 5000 }
    ensures { OnOk result (text.new.items ≡ text.old.items ++ spec.for_each spec.pass_line count) }
{
    let mut number = 1;
    'numbers: while number <= count {
        put_pass(alloc, text, number)?;
        number += 1;
    }
    Ok(())
}

/// A pipeline of as many stages as the number says.
fn put_pipeline(alloc: Global, text: &mut Vec<u8>, count: u32) -> Result<(), Memory>
    requires { count ≤ 5000 }
    ensures { OnOk result (text.new.items ≡ text.old.items ++ spec.pipeline count) }
{
    put(text, b"fn main() -> unit {\n")?;
    put(text, b"    let c0 = fork One(0) seed(0) with [0];\n")?;
    put_stages(alloc, text, count)
}

/// An end that as many tasks hand on.
fn put_delegation(alloc: Global, text: &mut Vec<u8>, count: u32) -> Result<(), Memory>
    requires { count ≤ 5000 }
    ensures { OnOk result (text.new.items ≡ text.old.items ++ spec.delegation count) }
{
    put(text, b"    let h = fork One(7) seed(7) with [7];\n")?;
    put(text, b"    let g0 = fork Give() giver(h);\n")?;
    put_passes(alloc, text, count)
}

fn put_answers(alloc: Global, text: &mut Vec<u8>, count: u32) -> Result<(), Memory>
    ensures { OnOk result (text.new.items ≡ text.old.items ++ spec.answers count) }
{
    put_numbered(
        alloc,
        text,
        b"    let r = fork Sum() tree(6) with [6];\n    let v = recv1 c",
        count,
    )?;
    put_numbered(alloc, text, b";\n    print v;\n    let e = recv1 g", count)?;
    put(
        text,
        b";\n    let x = recv1 e;\n    print x;\n    let w [s] = recv1 r;\n    print w;\n    ret ()\n}\n",
    )
}

/// The text of the program for a number, at most 5,000: it forks a pipeline of so many stages, as
/// many tasks that hand an end on, and a tree of 127 tasks.
pub fn make_text(alloc: Global, number: u32) -> Result<Bytes, Memory>
    requires { number ≤ 5000 }
    ensures made { IfOk result (λ text. text ≡ spec.made_text number) }
    ensures short { IfOk result (λ text. length text ≤ 1048576) }
{
    let mut text = Vec::new(alloc);
    put_declarations(&mut text)?;
    put_pipeline(alloc, &mut text, number)?;
    put_delegation(alloc, &mut text, number)?;
    put_answers(alloc, &mut text, number)?;
    Ok(Bytes::from_vec(text))
}
