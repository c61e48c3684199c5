//! The entries of whole runs.
use crate::programs::{SENDS_FIVE, program};
use chan_base::Memory;
use chan_machine::{Entries, Replayed, replay};
use core_programs::Program;
use history::entry_text;
use std::alloc::Global;
use std::process::Abort;
use std::test::Fail;

/// A text, its rounds, and the entries of its run, each on a line.
type Case = (&'static [u8], u16, &'static [u8]);

fn lines(alloc: Global, entries: &Entries) -> Result<Vec<u8>, Memory> {
    let mut text = Vec::new(alloc);
    for entry in entries.as_slice() {
        let entry = entry_text(alloc, entry)?;
        text.extend_from_slice(entry.as_slice())?;
        text.push(b'\n')?;
    }
    Ok(text)
}

fn told(alloc: Global, program: &Program, rounds: u16) -> Result<Vec<u8>, Memory> {
    let Replayed { entries, .. } = replay(alloc, program, u64::from(rounds))?;
    lines(alloc, &entries)
}

fn answer(alloc: Global, case: &Case) -> Result<Vec<u8>, Memory> {
    let program = program(alloc, case.0)?;
    told(alloc, &program, case.1)
}

fn has_entries(rt: &(impl Abort + AllocGlobal), case: &Case) -> Result<(), Fail> {
    let told = answer(rt.alloc(), case)?;
    assert_eq!(rt; told.as_slice(), case.2);
    Ok(())
}

pub(crate) const PRINTS_SEVEN: &[u8] = b"fn main() -> unit { print 7; ret () }";

static RUNS: [Case; 3] = [
    (
        SENDS_FIVE,
        100,
        b"1 main fork main.0\n2 main.0 send main.0\n3 main recv main.0\n3 main.0 end\n4 main print 5\n5 main end\n",
    ),
    (PRINTS_SEVEN, 1, b"1 main print 7\n"),
    (PRINTS_SEVEN, 2, b"1 main print 7\n2 main end\n"),
];

#[test]
fn a_run_has_its_entries_in_order(rt: HostRuntime) -> Result<(), Fail> {
    for case in &RUNS {
        has_entries(&rt, case)?;
    }
    Ok(())
}
