//! How a source is read and a sink is written, call by call.
use chan_base::{Bytes, Calls, MemSink, MemSource, Memory, ReadAll, read_all, write_all};
use std::alloc::Global;
use std::process::Abort;
use std::test::Fail;

/// As many bytes as two full calls and one more give.
const COUNT: usize = 8193;

fn one_call(alloc: Global, number: u64) -> Result<Calls, Memory> {
    let mut calls = Calls::new(alloc);
    calls.push(number)?;
    Ok(calls)
}

/// A source that gives all that is asked for, whose call with this number fails.
fn source(alloc: Global, failing: u64) -> Result<MemSource, Memory> {
    let bytes = vec![in alloc; b'x'; COUNT]?;
    let calls = one_call(alloc, failing)?;
    Ok(MemSource::new(Bytes::from_vec(bytes), 10000, calls))
}

/// How many bytes are read, or why not all.
fn read(alloc: Global, source: &mut MemSource, limit: u32) -> Result<String, Memory> {
    match read_all(alloc, source, limit as usize) {
        Ok(bytes) => {
            let count = bytes.len();
            Ok(format!(in alloc; "{count}")?)
        }
        Err(ReadAll::ReadFault) => Ok(String::from_str(alloc, "read fault")?),
        Err(ReadAll::TooLong) => Ok(String::from_str(alloc, "too long")?),
        Err(ReadAll::Memory) => Err(Memory),
    }
}

/// A limit, the call that fails, and what is told.
type Reading = (u32, u64, &'static str);

static READINGS: [Reading; 13] = [
    (1048576, 1, "read fault"),
    (1048576, 2, "read fault"),
    (1048576, 3, "read fault"),
    (1048576, 4, "read fault"),
    (1048576, 5, "8193"),
    (8193, 4, "read fault"),
    (8193, 5, "8193"),
    (8192, 3, "read fault"),
    (8192, 4, "too long"),
    (5000, 2, "read fault"),
    (5000, 3, "too long"),
    (0, 1, "read fault"),
    (0, 2, "too long"),
];

fn is_read(
    rt: &(impl Abort + AllocGlobal),
    told: Result<String, Memory>,
    want: &str,
) -> Result<(), Fail> {
    let told = told?;
    assert_eq!(rt; told.as_str(), want);
    Ok(())
}

fn read_once(alloc: Global, reading: &Reading) -> Result<String, Memory> {
    let mut source = source(alloc, reading.1)?;
    read(alloc, &mut source, reading.0)
}

#[test]
fn reading_asks_for_4096_bytes_or_one_past_the_limit(rt: HostRuntime) -> Result<(), Fail> {
    for reading in &READINGS {
        is_read(&rt, read_once(rt.alloc(), reading), reading.2)?;
    }
    Ok(())
}

#[test]
fn reading_takes_one_byte_past_the_limit(rt: HostRuntime) -> Result<(), Fail> {
    let mut source = source(rt.alloc(), 100)?;
    is_read(&rt, read(rt.alloc(), &mut source, 5000), "too long")?;
    is_read(&rt, read(rt.alloc(), &mut source, 8192), "3192")
}

/// How many bytes a call takes, the call that fails, whether all is written, and how much is.
type Writing = (usize, u64, bool, usize);

static WRITINGS: [Writing; 7] = [
    (10000, 1, false, 0),
    (10000, 2, true, 8193),
    (8193, 2, true, 8193),
    (8192, 2, false, 8192),
    (8192, 3, true, 8193),
    (1, 8193, false, 8192),
    (1, 8194, true, 8193),
];

/// Whether all is written to a sink that takes so many bytes a call, and how much is.
fn write(alloc: Global, piece: usize, failing: u64) -> Result<(bool, usize), Memory> {
    let text = vec![in alloc; b'x'; COUNT]?;
    let mut sink = MemSink::new(alloc, piece.max(1), one_call(alloc, failing)?);
    let all = write_all(&mut sink, text.as_slice()).is_ok();
    Ok((all, sink.bytes().len()))
}

fn is_written(rt: &(impl Abort + AllocGlobal), writing: &Writing) -> Result<(), Fail> {
    let written = write(rt.alloc(), writing.0, writing.1)?;
    assert_eq!(rt; written, (writing.2, writing.3));
    Ok(())
}

#[test]
fn writing_offers_all_that_is_left(rt: HostRuntime) -> Result<(), Fail> {
    for writing in &WRITINGS {
        is_written(&rt, writing)?;
    }
    Ok(())
}
