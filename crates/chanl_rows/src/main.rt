//! The rows of its input, which are texts: it tells how many of them the whole program answers as they say, and shows the others.
#![tactic(auto)]

mod rows;
mod texts;

use crate::rows::report;
use chan_base::{Memory, StdSink, StdSource, read_all, write_all};
use std::alloc::Global;
use std::io::{Read, Write};
use std::process::ExitCode;

/// The most bytes of rows.
const LONGEST: usize = 1048576;

fn told<R: Read + Drop>(alloc: Global, reader: R) -> Result<Vec<u8>, Memory> {
    let mut source = StdSource::new(reader);
    match read_all(alloc, &mut source, LONGEST) {
        Ok(bytes) => match std::str::from_utf8(bytes.as_slice()) {
            Ok(rows) => report(alloc, rows),
            Err(_) => Ok(Vec::from_slice(alloc, b"the rows are no text\n")?),
        },
        Err(_) => Ok(Vec::from_slice(alloc, b"the rows can't be read\n")?),
    }
}

fn main(rt: HostRuntime) -> ExitCode {
    let Ok(told) = told(rt.alloc(), rt.stdin()) else {
        return ExitCode::FAILURE;
    };
    let mut sink = StdSink::new(rt.stdout());
    match write_all(&mut sink, told.as_slice()) {
        Ok(()) => ExitCode::SUCCESS,
        Err(_) => ExitCode::FAILURE,
    }
}
