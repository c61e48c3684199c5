//! What is written of a run besides its prints: its history, and how many forks it made.
#![tactic(auto)]

ghost use Rattle.std.specs.Prelude.{◌≡◌, ◌+◌, ◌++◌, ◌<◌, ◌≤◌, [], ◌∷◌, map, IfOk, OnOk};
ghost use Rattle.std.specs.List.{flat_map};
ghost use Rattle.chan_machine.specs.Reading.{entry_of, ending_as, event_of};
ghost use Rattle.core_language.specs.Rounds as rounds;
ghost use Rattle.history_lines.specs.Lines as spec;

use chan_base::{Bytes, Memory};
use chan_machine::{Ending, Entry, Event};
use chanl_lines::run_text;
use history::entry_text;
use std::alloc::Global;

fn add_entry(alloc: Global, text: &mut Vec<u8>, entry: &Entry) -> Result<(), Memory>
    ensures { OnOk result (text.new.items ≡ text.old.items ++ spec.entry_line (entry_of entry.now)) }
{
    let line = entry_text(alloc, entry)?;
    text.extend_from_slice(line.as_slice())?;
    text.push(b'\n')?;
    Ok(())
}

fn add_entries(alloc: Global, text: &mut Vec<u8>, entries: &[Entry]) -> Result<(), Memory>
    ensures { OnOk result (text.new.items ≡ text.old.items ++ flat_map (λ e. spec.entry_line (entry_of e)) entries.now) }
{
    for entry in entries {
        add_entry(alloc, text, entry)?;
    }
    Ok(())
}

#[tactic(auto, using(crate::proofs::Entries::by_entries))]
/// The history of a run: each entry on its line, and then how the run ended.
pub fn history_text(alloc: Global, entries: &[Entry], ending: &Ending) -> Result<Bytes, Memory>
    ensures { IfOk result (λ text. text ≡ spec.history_text (map entry_of entries.now) (ending_as ending.now)) }
{
    let mut text = Vec::new(alloc);
    add_entries(alloc, &mut text, entries)?;
    let last = run_text(alloc, &entries[..0], ending)?;
    text.extend_from_slice(last.as_slice())?;
    Ok(Bytes::from_vec(text))
}

fn is_fork(entry: &Entry) -> bool
    ensures { result ≡ rounds.is_fork (event_of entry.now.event) }
{
    match &entry.event {
        Event::Fork(_) => true,
        Event::Silent | Event::Send(_) | Event::Recv(_) | Event::Print(_) | Event::End => false,
    }
}

/// The count with the entry, where it is a fork.
fn counted(count: usize, entry: &Entry) -> usize
    requires { count < 18446744073709551615 }
    ensures sum { result ≡ count + rounds.forks_of (entry_of entry.now ∷ []) }
    ensures next { result ≤ count + 1 }
{
    if is_fork(entry) { count + 1 } else { count }
}

#[tactic(auto, using(crate::proofs::Forks::one_more))]
/// How many of the entries are forks.
fn count_forks(entries: &[Entry]) -> usize
    ensures { result ≡ rounds.forks_of (map entry_of entries.now) }
{
    let mut count = 0;
    for entry in entries {
        count = counted(count, entry);
    }
    count
}

/// What a run writes, and then how many forks it made.
pub fn counted_text(alloc: Global, entries: &[Entry], ending: &Ending) -> Result<Bytes, Memory>
    ensures { IfOk result (λ text. text ≡ spec.counted_text (map entry_of entries.now) (ending_as ending.now)) }
{
    let run = run_text(alloc, entries, ending)?;
    let mut text = Vec::from_slice(alloc, run.as_slice())?;
    text.extend_from_slice(b"forks ")?;
    let count = count_forks(entries).to_string(alloc)?;
    text.extend_from_slice(count.as_bytes())?;
    text.push(b'\n')?;
    Ok(Bytes::from_vec(text))
}
