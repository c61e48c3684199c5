//! Rows of bodies, each with its line.
use chan_base::{Bytes, Memory};
use chan_lexer::tokens;
use chan_parser::parse;
use core_numbering::number;
use core_programs::Program;
use core_trees::is_core;
use outline_check::{Checked, check};
use outline_lines::outline_line;
use std::alloc::Global;
use std::process::Abort;
use std::test::Fail;

/// The function whose body a row is: its line is the first of the text.
const HEAD: &[u8] =
    b"fn begins [n: 0 <= n](y: end ~One(n), a: int(n), p: (int(1), int(2)), s: sum(unit, int(3)), w: end Way(n), v: end Big(2)) -> unit {\n";

/// What is behind the body.
const TAIL: &[u8] = b"\n}
proto One(n) = recv int(n);
proto Way(n) = if n <= 0 then One(n) else One(1);
proto Big(n) = recv int(9223372036854775807*n);
fn seed [n](y: end ~One(n), a: int(n)) -> unit { send1 y a; ret () }
fn count() -> [n: 0 <= n] int(n) { ret 7 with [7] }
fn wide [n](y: end ~One(9223372036854775807*n), a: int(n)) -> unit { wide(y, a) with [n] }
fn large [n](a: int(n)) -> int(9223372036854775807*n) { large(a) with [n] }
fn main() -> unit { ret () }
";

/// The program of a text of the core language without a fault of form.
fn program(alloc: Global, text: &[u8]) -> Result<Program, Memory> {
    if text.len() >= 1000000 {
        return Err(Memory);
    }
    let Ok(tokens) = tokens(alloc, text) else {
        return Err(Memory);
    };
    let Ok(surface) = parse(alloc, &tokens) else {
        return Err(Memory);
    };
    if !is_core(&surface) {
        return Err(Memory);
    }
    match number(alloc, &surface) {
        Ok(program) => Ok(program),
        Err(_) => Err(Memory),
    }
}

/// The line of the check of a text.
fn line_of(alloc: Global, text: &[u8]) -> Result<Bytes, Memory> {
    let program = program(alloc, text)?;
    match check(alloc, program)? {
        Checked::Accepted(_) => Ok(Bytes::from_slice(alloc, b"accepted\n")?),
        Checked::Refused(refusal) => outline_line(
            alloc,
            refusal.span,
            &refusal.why,
            refusal.names.as_slice(),
        ),
    }
}

/// The text of a row: the first bytes, the row's, with ` / ` for a line end, and the last bytes.
fn text_of(alloc: Global, before: &[u8], row: &str, after: &[u8]) -> Result<Vec<u8>, Memory> {
    let mut text = Vec::from_slice(alloc, before)?;
    for line in row.split(" / ") {
        text.extend_from_slice(line.as_bytes())?;
        text.push(b'\n')?;
    }
    text.extend_from_slice(after)?;
    Ok(text)
}

pub(crate) fn text_is_told(
    rt: &(impl Abort + AllocGlobal),
    text: &[u8],
    told: &[u8],
) -> Result<(), Fail> {
    let line = line_of(rt.alloc(), text)?;
    assert_eq!(rt; line.as_slice(), told);
    Ok(())
}

/// Each row is a text, ` => `, and the line of its check.
fn are_told(
    rt: &(impl Abort + AllocGlobal),
    before: &[u8],
    rows: &str,
    after: &[u8],
) -> Result<(), Fail> {
    for row in rows.lines() {
        if let Some((text, told)) = row.split_once(" => ") {
            let text = text_of(rt.alloc(), before, text, after)?;
            let line = line_of(rt.alloc(), text.as_slice())?;
            let told = text_of(rt.alloc(), b"", told, b"")?;
            assert_eq!(rt; line.as_slice(), told.as_slice(), "{row}");
        }
    }
    Ok(())
}

/// Rows of bodies, which stand on the second line.
pub(crate) fn bodies_are_told(rt: &(impl Abort + AllocGlobal), rows: &str) -> Result<(), Fail> {
    are_told(rt, HEAD, rows, TAIL)
}

/// Rows of whole texts.
pub(crate) fn texts_are_told(rt: &(impl Abort + AllocGlobal), rows: &str) -> Result<(), Fail> {
    are_told(rt, b"", rows, b"")
}
