//! Texts and their tokens.
ghost use Rattle.std.specs.Prelude.{◌<◌, length};

use crate::rows::is_told;
use chan_base::Memory;
use chan_lexer::{Tokens, tokens};
use std::alloc::{AllocError, Global};
use std::string::String;
use std::test::Fail;

/// A text of fewer than 100 bytes, and its tokens by kind, bytes, length, start, stop, line and column, or its fault.
type Row = (&'static [u8], &'static str);

static ROWS: [Row; 16] = [
    (b"", ""),
    (b" \t\r\n // x", ""),
    (b"loop loops", "Keyword 4 0-4 1:1; Name 5 5-10 1:6; "),
    (
        b"a<=b<-c",
        "Name 1 0-1 1:1; Mark 2 1-3 1:2; Name 1 3-4 1:4; Mark 1 4-5 1:5; Mark 1 5-6 1:6; Name 1 6-7 1:7; ",
    ),
    (b"->\n\t(", "Mark 2 0-2 1:1; Mark 1 4-5 2:2; "),
    (b"// \xff\x00\r\n_1", "Name 2 7-9 2:1; "),
    (b"007x", "Number(7) 3 0-3 1:1; Name 1 3-4 1:4; "),
    (
        b"9223372036854775807",
        "Number(9223372036854775807) 19 0-19 1:1; ",
    ),
    (
        b"a 009223372036854775808 @",
        "NumberTooLarge(Span { start: 2, stop: 23, line: 1, column: 3 })",
    ),
    (
        b"99999999999999999999",
        "NumberTooLarge(Span { start: 0, stop: 20, line: 1, column: 1 })",
    ),
    (
        b"@",
        "BadToken(Span { start: 0, stop: 1, line: 1, column: 1 })",
    ),
    (
        b"a /\n/",
        "BadToken(Span { start: 2, stop: 3, line: 1, column: 3 })",
    ),
    (
        b"\n\xc3",
        "BadByte(Span { start: 1, stop: 2, line: 2, column: 1 })",
    ),
    (
        b"\x00@",
        "BadByte(Span { start: 0, stop: 1, line: 1, column: 1 })",
    ),
    (
        b"\x7f",
        "BadByte(Span { start: 0, stop: 1, line: 1, column: 1 })",
    ),
    (
        b"@\x00",
        "BadToken(Span { start: 0, stop: 1, line: 1, column: 1 })",
    ),
];

fn listed(alloc: Global, tokens: &Tokens) -> Result<String, AllocError> {
    let mut out = String::new(alloc);
    for token in tokens.list().as_slice() {
        let len = tokens.text(token).len();
        let span = token.span;
        let line = format!(in alloc;
            "{:?} {} {}-{} {}:{}; ",
            token.kind, len, span.start, span.stop, span.line, span.column
        )?;
        out.push_str(line.as_str())?;
    }
    Ok(out)
}

fn told(alloc: Global, text: &[u8]) -> Result<String, AllocError>
    requires { length text.now < 4294967295 }
{
    match tokens(alloc, text) {
        Ok(tokens) => listed(alloc, &tokens),
        Err(fault) => format!(in alloc; "{fault:?}"),
    }
}

fn answer(alloc: Global, text: &[u8]) -> Result<Vec<u8>, Memory> {
    if text.len() >= 100 {
        return Err(Memory);
    }
    let told = told(alloc, text)?;
    Ok(Vec::from_slice(alloc, told.as_bytes())?)
}

#[test]
fn tokens_and_faults_have_their_places(rt: HostRuntime) -> Result<(), Fail> {
    for (text, want) in &ROWS {
        is_told(&rt, answer(rt.alloc(), text), want.as_bytes())?;
    }
    Ok(())
}
