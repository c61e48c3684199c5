//! How long calls take.
use std::fmt::{Display, Formatter, Write};
use std::time::{Clock, Duration};
use std::{fmt, io};

/// A clock that stands still, for runs that are timed from outside.
pub struct Nothing;

impl Clock for Nothing {
    fn monotonic(&self) -> io::Result<Duration> {
        Ok(Duration::from_nanos(0))
    }

    fn since_1970(&self) -> io::Result<Duration> {
        Ok(Duration::from_nanos(0))
    }
}

/// A clock, and the nanosecond of its last lap.
#[derive(Drop)]
pub struct Watch<'a, C: Clock> {
    clock: &'a C,
    last: u64,
}

impl<'a, C: Clock> Watch<'a, C> {
    pub fn start(clock: &'a C) -> Watch<'a, C> {
        Watch {
            clock,
            last: now(clock),
        }
    }

    /// The nanoseconds since the last lap, where the clock could be read.
    pub fn lap(&mut self) -> u64 {
        let before = self.last;
        self.last = now(self.clock);
        self.last.saturating_sub(before)
    }
}

fn now<C: Clock>(clock: &C) -> u64 {
    match clock.monotonic() {
        Ok(time) => {
            let seconds = time.as_secs().wrapping_mul(1_000_000_000);
            seconds.wrapping_add(u64::from(time.subsec_nanos()))
        }
        Err(_) => 0,
    }
}

/// How many messages came, how many numbers were begun, and the nanoseconds of all calls of a kind. An empty lap tells what the clock costs.
#[derive(Clone, Copy, Default)]
pub struct Laps {
    pub messages: u64,
    pub begun: u64,
    pub clock: u64,
    pub begin: u64,
    pub take: u64,
    pub reopen: u64,
    pub send: u64,
    pub home: u64,
    pub recv: u64,
    pub retire: u64,
}

/// One lap more.
pub fn add(total: &mut u64, lap: u64) {
    *total = total.wrapping_add(lap);
}

impl Laps {
    pub fn and(self, other: Laps) -> Laps {
        Laps {
            messages: self.messages.wrapping_add(other.messages),
            begun: self.begun.wrapping_add(other.begun),
            clock: self.clock.wrapping_add(other.clock),
            begin: self.begin.wrapping_add(other.begin),
            take: self.take.wrapping_add(other.take),
            reopen: self.reopen.wrapping_add(other.reopen),
            send: self.send.wrapping_add(other.send),
            home: self.home.wrapping_add(other.home),
            recv: self.recv.wrapping_add(other.recv),
            retire: self.retire.wrapping_add(other.retire),
        }
    }
}

impl Display for Laps {
    fn fmt<W: Write>(&self, f: &mut Formatter<W>) -> fmt::Result {
        write!(f, "{} {}", self.messages, self.begun)?;
        write!(f, " clock {} begin {}", self.clock, self.begin)?;
        write!(f, " take {} reopen {}", self.take, self.reopen)?;
        write!(f, " send {} home {}", self.send, self.home)?;
        write!(f, " recv {} retire {}", self.recv, self.retire)
    }
}
