//! Texts, and the protocols that they stand for.
use chan_base::Memory;
use chan_lexer::tokens;
use chan_parser::parse;
use chan_syntax::Ident;
use choice_protocols::SourceTable;
use session_lowering::Source;
use std::alloc::Global;
use std::process::Abort;
use std::test::Fail;
use tree_texts::{push, push_proto};

/// A text, and its protocols, each on a line of its own. The first protocol of a choice has a `*`.
type Row = (&'static [u8], &'static [u8]);

static SPELLED: [Row; 7] = [
    (b"proto A() = close;", b"A() = close\n"),
    (
        b"proto P(n) = choice Q of A(n) | ~B(n + 1);",
        b"*P(n) = send [b.0: +0 <= +1*b.0, +1*b.0 <= +1] int +1*b.0 then Q +1*n +1*b.0
Q(n, b.0) = if +1*b.0 <= +0 then A +1*n else ~B +1*n+1
",
    ),
    (
        b"proto P() = choice Q of A() | B() | C();",
        b"*P() = send [b.0: +0 <= +1*b.0, +1*b.0 <= +2] int +1*b.0 then Q +1*b.0
Q(b.0) = if +1*b.0 <= +0 then A else Q.1 +1*b.0
Q.1(b.0) = if +1*b.0 <= +1 then B else C
",
    ),
    (
        b"proto P(m, n) = offer Next of A() | B() | C() | D();",
        b"*P(m, n) = recv [b.0: +0 <= +1*b.0, +1*b.0 <= +3] int +1*b.0 then Next +1*m +1*n +1*b.0
Next(m, n, b.0) = if +1*b.0 <= +0 then A else Next.1 +1*m +1*n +1*b.0
Next.1(m, n, b.0) = if +1*b.0 <= +1 then B else Next.2 +1*m +1*n +1*b.0
Next.2(m, n, b.0) = if +1*b.0 <= +2 then C else D
",
    ),
    (
        b"proto A() = wait; proto P() = choice Q of A() | A(); proto B() = close;",
        b"A() = wait
*P() = send [b.0: +0 <= +1*b.0, +1*b.0 <= +1] int +1*b.0 then Q +1*b.0
Q(b.0) = if +1*b.0 <= +0 then A else A
B() = close
",
    ),
    (
        b"fn f() -> unit { ret () } proto A() = send unit then A();",
        b"A() = send unit then A\n",
    ),
    (b"fn f() -> unit { ret () }", b""),
];

/// A text and a name, and the first protocol with that name.
type Found = (&'static [u8], &'static [u8], &'static [u8]);

static FOUND: [Found; 5] = [
    (
        b"proto A() = close; proto A() = wait;",
        b"A",
        b"A() = close\n",
    ),
    (
        b"proto B() = close; proto A() = wait;",
        b"A",
        b"A() = wait\n",
    ),
    (b"proto A() = close;", b"B", b""),
    (
        b"proto P() = choice Q of A() | B() | C(); proto Q() = close;",
        b"Q.1",
        b"Q.1(b.0) = if +1*b.0 <= +1 then B else C\n",
    ),
    (
        b"proto Q() = close; proto P() = choice Q of A() | B();",
        b"Q",
        b"Q() = close\n",
    ),
];

fn table(alloc: Global, text: &[u8]) -> Result<SourceTable, Memory> {
    if text.len() >= 1000000 {
        return Err(Memory);
    }
    let Ok(tokens) = tokens(alloc, text) else {
        return Err(Memory);
    };
    let Ok(surface) = parse(alloc, &tokens) else {
        return Err(Memory);
    };
    SourceTable::new(alloc, surface.decls.as_slice())
}

fn push_source(alloc: Global, out: &mut Vec<u8>, source: &Source) -> Result<(), Memory> {
    push(out, if source.chooses { b"*" } else { b"" })?;
    push_proto(alloc, out, &source.proto)?;
    push(out, b"\n")
}

fn spelled(alloc: Global, text: &[u8]) -> Result<Vec<u8>, Memory> {
    let table = table(alloc, text)?;
    let mut out = Vec::new(alloc);
    for source in table.as_slice() {
        push_source(alloc, &mut out, source)?;
    }
    Ok(out)
}

fn found(alloc: Global, text: &[u8], name: &[u8]) -> Result<Vec<u8>, Memory> {
    let table = table(alloc, text)?;
    let name = Ident::from_slice(alloc, name)?;
    let mut out = Vec::new(alloc);
    match table.find(&name) {
        None => {}
        Some(source) => push_source(alloc, &mut out, source)?,
    }
    Ok(out)
}

fn is_told(
    rt: &(impl Abort + AllocGlobal),
    told: Result<Vec<u8>, Memory>,
    want: &[u8],
) -> Result<(), Fail> {
    let told = told?;
    assert_eq!(rt; told.as_slice(), want);
    Ok(())
}

#[test]
fn a_choice_is_a_number_and_its_turns(rt: HostRuntime) -> Result<(), Fail> {
    for (text, want) in SPELLED {
        is_told(&rt, spelled(rt.alloc(), text), want)?;
    }
    Ok(())
}

#[test]
fn the_first_of_a_name_is_found(rt: HostRuntime) -> Result<(), Fail> {
    for (text, name, want) in FOUND {
        is_told(&rt, found(rt.alloc(), text, name), want)?;
    }
    Ok(())
}
