//! Values that are nested deep.
use crate::rows::text_is_told;
use chan_base::Memory;
use std::alloc::Global;
use std::test::Fail;

const DEEPEST: u32 = 190;

/// So many times the text.
fn push(out: &mut Vec<u8>, text: &[u8], times: u32) -> Result<(), Memory> {
    for _turn in 0..times {
        out.extend_from_slice(text)?;
    }
    Ok(())
}

/// A value of pairs, one in the other, at a resource that has 16 binders at each of them.
fn nested(alloc: Global) -> Result<Vec<u8>, Memory> {
    let mut text = Vec::new(alloc);
    push(&mut text, b"fn f(u: unit) -> ", 1)?;
    push(
        &mut text,
        b"[a, b, c, d, e, f, g, h, i, j, k, l, m, n, o, p: a <= p] (int(a), ",
        DEEPEST,
    )?;
    push(&mut text, b"unit", 1)?;
    push(&mut text, b")", DEEPEST)?;
    push(&mut text, b" { ret ", 1)?;
    push(&mut text, b"(0, ", DEEPEST)?;
    push(&mut text, b"u", 1)?;
    push(&mut text, b")", DEEPEST)?;
    push(&mut text, b" with [0", 1)?;
    push(&mut text, b", 0", 16 * DEEPEST - 1)?;
    push(&mut text, b"] }\n", 1)?;
    Ok(text)
}

#[test]
fn a_deep_value_is_given(rt: HostRuntime) -> Result<(), Fail> {
    let text = nested(rt.alloc())?;
    text_is_told(&rt, text.as_slice(), b"taken 3040 0\n")
}
