//! Sends so many messages through the shared cells, on one thread or on two, and writes how many came, or how long each call took.
#![tactic(auto)]

mod messages;
mod watch;

use crate::messages::{on_one, on_two};
use crate::watch::{Laps, Nothing};
use std::env;
use std::process::ExitCode;
use std::rt::Env;
use std::thread::Threads;
use std::time::Clock;

/// What is written, on how many threads, and how many messages each of them sends.
#[derive(Drop)]
struct Asked {
    calls: bool,
    threads: u64,
    count: u64,
}

fn read(rt: &(impl Env + AllocGlobal)) -> Option<Asked> {
    let mut words = env::args(rt).ok()?.skip(1);
    let calls = words.next()?.as_str() == "calls";
    let threads = words.next()?.parse().ok()?;
    let count = words.next()?.parse().ok()?;
    Some(Asked {
        calls,
        threads,
        count,
    })
}

fn run<R: Threads + Sync + AllocGlobal, C: Clock + Sync>(
    rt: &R,
    clock: &C,
    words: &Asked,
) -> Option<Laps> {
    if words.threads == 1 {
        on_one(rt.alloc(), clock, words.count)
    } else {
        on_two(rt, clock, words.count)
    }
}

fn main(rt: HostRuntime) -> ExitCode {
    let Some(words) = read(&rt) else {
        return ExitCode::from(1);
    };
    let laps = if words.calls {
        run(&rt, &rt, &words)
    } else {
        run(&rt, &Nothing, &words)
    };
    let Some(laps) = laps else {
        return ExitCode::from(1);
    };
    let written = if words.calls {
        println!(rt; "{laps}")
    } else {
        println!(rt; "{}", laps.messages)
    };
    match written {
        Ok(()) => ExitCode::from(0),
        Err(_) => ExitCode::from(1),
    }
}
