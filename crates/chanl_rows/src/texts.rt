//! Texts as they stand in rows: ` / ` is a line end, and `[[3:x% ]]` is `x0 x1 x2 `.
use chan_base::Memory;
use std::alloc::Global;

fn push_lines(out: &mut Vec<u8>, written: &str) -> Result<(), Memory> {
    let mut is_first = true;
    for line in written.split(" / ") {
        if !is_first {
            out.push(b'\n')?;
        }
        out.extend_from_slice(line.as_bytes())?;
        is_first = false;
    }
    Ok(())
}

/// Appends a part with a number in the place of each `%`.
fn push_numbered(alloc: Global, out: &mut Vec<u8>, part: &str, number: u32) -> Result<(), Memory> {
    let mut is_first = true;
    for piece in part.split("%") {
        if !is_first {
            let digits = format!(in alloc; "{number}")?;
            out.extend_from_slice(digits.as_bytes())?;
        }
        push_lines(out, piece)?;
        is_first = false;
    }
    Ok(())
}

/// Appends what `COUNT:PART` says, so many times.
fn push_repeated(alloc: Global, out: &mut Vec<u8>, repeated: &str) -> Result<(), Memory> {
    if let Some((count, part)) = repeated.split_once(":") {
        for number in 0..count.parse::<u32>().unwrap_or(0) {
            push_numbered(alloc, out, part, number)?;
        }
    }
    Ok(())
}

/// Appends what a row writes so.
pub(crate) fn push_text(alloc: Global, out: &mut Vec<u8>, written: &str) -> Result<(), Memory> {
    for piece in written.split("[[") {
        match piece.split_once("]]") {
            Some((repeated, rest)) => {
                push_repeated(alloc, out, repeated)?;
                push_lines(out, rest)?;
            }
            None => push_lines(out, piece)?,
        }
    }
    Ok(())
}
