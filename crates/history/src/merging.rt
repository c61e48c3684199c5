//! Logs in one list.
ghost use Rattle.std.specs.Prelude.{◌≡◌, ◌++◌, reverse, IfOk, OnOk};
ghost use Rattle.history.specs.Merging.{AreMerged, by_time as by_time_of, entries_of};

use chan_base::Memory;
use chan_machine::{Entries, Entry};
use sqlite_items::Items;
use std::alloc::Global;
use std::cmp::Ordering;

/// The entries of several tasks or workers.
pub type Logs = Items<Entries>;

/// The earlier time first, and at one time the lesser name.
fn by_time(a: &Entry, b: &Entry) -> Ordering
    ensures { result ≡ by_time_of a.now b.now }
{
    a.time.cmp(&b.time).then(a.name.cmp(&b.name))
}

/// Moves the entries of the log, the last one first.
fn take_log(entries: &mut Vec<Entry>, log: Entries) -> Result<(), Memory>
    ensures { OnOk result (entries.new.items ≡ entries.old.items ++ reverse log) }
{
    let mut log = log;
    'entries: while let Some(entry) = log.pop() {
        entries.push(entry)?;
    }
    Ok(())
}

/// The entries of all logs, the last one first.
fn take_logs(alloc: Global, logs: Logs) -> Result<Vec<Entry>, Memory>
    ensures { IfOk result (λ entries. entries.items ≡ reverse (entries_of logs)) }
{
    let mut logs = logs;
    let mut entries = Vec::new(alloc);
    'logs: while let Some(log) = logs.pop() {
        take_log(&mut entries, log)?;
    }
    Ok(entries)
}

/// The entries of the logs in the order of times, and at one time in that of names.
pub fn merge(alloc: Global, logs: Logs) -> Result<Entries, Memory>
    ensures { IfOk result (AreMerged logs) }
{
    let mut entries = take_logs(alloc, logs)?;
    entries.reverse();
    entries.sort_by(by_time)?;
    Ok(Items::from_vec(entries))
}
