//! The whole program on sources and sinks in memory, for crates of tests.
#![tactic(auto)]

use chan_base::{Bytes, Calls, MemSink, MemSource, Memory};
use chanl_top::top;
use std::alloc::Global;

/// The number of a call that no test comes to.
pub const NEVER: u64 = 1000000;

fn one_call(alloc: Global, number: u64) -> Result<Calls, Memory> {
    let mut calls = Calls::new(alloc);
    calls.push(number)?;
    Ok(calls)
}

/// The status and the output.
pub fn answer(alloc: Global, words: &[&str], text: &[u8]) -> Result<(u8, Vec<u8>), Memory> {
    answer_with_faults(alloc, words, text, NEVER, NEVER)
}

/// The status and the output, where the call of the source and that of the sink with these numbers
/// fail.
pub fn answer_with_faults(
    alloc: Global,
    words: &[&str],
    text: &[u8],
    failing_read: u64,
    failing_write: u64,
) -> Result<(u8, Vec<u8>), Memory> {
    let mut owned = Vec::new(alloc);
    for word in words {
        owned.push(String::from_str(alloc, word)?)?;
    }
    let bytes = Bytes::from_slice(alloc, text)?;
    let mut source = MemSource::new(bytes, 8, one_call(alloc, failing_read)?);
    let mut sink = MemSink::new(alloc, 3, one_call(alloc, failing_write)?);
    let status = top(alloc, owned.as_slice(), &mut source, &mut sink);
    let output = Vec::from_slice(alloc, sink.bytes())?;
    Ok((status.number(), output))
}

/// The bytes of lines that are written in one, with ` / ` for each line end.
pub fn lines(alloc: Global, written: &str) -> Result<Vec<u8>, Memory> {
    let mut text = Vec::new(alloc);
    for line in written.split(" / ") {
        text.extend_from_slice(line.as_bytes())?;
        text.push(b'\n')?;
    }
    Ok(text)
}
