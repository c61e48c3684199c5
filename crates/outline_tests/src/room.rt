//! Contexts that are full.
use crate::rows::text_is_told;
use std::alloc::Global;
use std::test::Fail;

/// So many divisions, each with two hypotheses: there is room for 256.
fn divisions(alloc: Global, count: u32) -> Result<Vec<u8>, Fail> {
    let mut text = Vec::from_slice(alloc, b"fn main() -> unit {\n")?;
    for number in 0..count {
        let line = format!(in alloc; "let x{number} = div(1, 2);\n")?;
        text.extend_from_slice(line.as_bytes())?;
    }
    text.extend_from_slice(b"ret () }\n")?;
    Ok(text)
}

#[test]
fn there_is_room_for_256_hypotheses(rt: HostRuntime) -> Result<(), Fail> {
    let text = divisions(rt.alloc(), 128)?;
    text_is_told(&rt, text.as_slice(), b"accepted\n")
}

#[test]
fn there_is_room_for_no_more(rt: HostRuntime) -> Result<(), Fail> {
    let text = divisions(rt.alloc(), 129)?;
    text_is_told(&rt, text.as_slice(), b"outline 130:1 too large\n")
}
