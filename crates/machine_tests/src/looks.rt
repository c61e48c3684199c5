//! What steps and looks answer, and the configuration that a run comes to.
ghost use Rattle.std.specs.Prelude.{◌≤◌};

use crate::programs::{SENDS_FIVE, is_first, program};
use crate::rows::{is_so, is_told};
use crate::runs::PRINTS_SEVEN;
use chan_base::{Memory, Name};
use chan_machine::{
    Config, Event, Halt, Replayed, Stepped, StuckWhy, Value, look, replay, start, step,
};
use core_programs::Program;
use std::alloc::Global;
use std::process::Abort;
use std::test::Fail;

fn event_word(event: &Event) -> &'static [u8] {
    match event {
        Event::Silent => b"silent",
        Event::Fork(name) => if is_first(name) {
            b"forks main.0"
        } else {
            b"forks"
        },
        Event::Send(_) => b"sends",
        Event::Recv(_) => b"receives",
        Event::Print(number) => if *number == 7 { b"prints 7" } else { b"prints" },
        Event::End => b"ends",
    }
}

fn word(stepped: &Stepped) -> &'static [u8] {
    match stepped {
        Stepped::Moved(event) => event_word(event),
        Stepped::Waits(_) => b"waits",
        Stepped::Ended => b"has ended",
        Stepped::Absent => b"is absent",
        Stepped::Halts(Halt::Range) => b"out of range",
        Stepped::Halts(_) => b"halts",
        Stepped::Stuck(StuckWhy::Absurd) => b"absurd",
        Stepped::Stuck(_) => b"stuck",
    }
}

/// A text, how many rounds of it ran, whether `main` is looked at or its first child, and what a look
/// answers.
type Case = (&'static [u8], u16, bool, &'static [u8]);

fn name(alloc: Global, at_main: bool) -> Result<Name, Memory> {
    let main = Name::root();
    if at_main {
        Ok(main)
    } else {
        Ok(main.child(alloc, 0)?)
    }
}

fn look_after(alloc: Global, program: &Program, rounds: u64, name: &Name) -> Result<Stepped, Memory>
    requires { rounds ≤ 1000000000 }
{
    let Replayed { config, .. } = replay(alloc, program, rounds)?;
    look(alloc, program, &config, name)
}

fn look_word(
    alloc: Global,
    program: &Program,
    rounds: u16,
    name: &Name,
) -> Result<&'static [u8], Memory> {
    let looked = look_after(alloc, program, u64::from(rounds), name)?;
    Ok(word(&looked))
}

fn answer(alloc: Global, case: &Case) -> Result<&'static [u8], Memory> {
    let name = name(alloc, case.2)?;
    let program = program(alloc, case.0)?;
    look_word(alloc, &program, case.1, &name)
}

/// A product out of range, in a sum that would be 0. The variable is 2 to the 124th.
const TOO_LARGE_IN_THE_MIDDLE: &[u8] = b"fn main() -> unit {
let a = mul(4611686018427387904, 4611686018427387904); let b = 8*a - 8*a; ret () }";

const ABSURD: &[u8] = b"fn main() -> unit { absurd }";

static LOOKS: [Case; 10] = [
    (TOO_LARGE_IN_THE_MIDDLE, 0, true, b"silent"),
    (TOO_LARGE_IN_THE_MIDDLE, 1, true, b"out of range"),
    (ABSURD, 0, true, b"absurd"),
    (PRINTS_SEVEN, 0, true, b"prints 7"),
    (PRINTS_SEVEN, 1, true, b"ends"),
    (PRINTS_SEVEN, 2, true, b"has ended"),
    (SENDS_FIVE, 0, false, b"is absent"),
    (SENDS_FIVE, 1, true, b"waits"),
    (SENDS_FIVE, 1, false, b"sends"),
    (SENDS_FIVE, 2, true, b"receives"),
];

#[test]
fn a_look_tells_each_act(rt: HostRuntime) -> Result<(), Fail> {
    for case in &LOOKS {
        is_told(&rt, answer(rt.alloc(), case), case.3)?;
    }
    Ok(())
}

/// What a look at `main` answers at the start.
fn first_look(alloc: Global, program: &Program) -> Result<Stepped, Memory> {
    let config = start(alloc, program)?;
    let main = Name::root();
    look(alloc, program, &config, &main)
}

/// What a step of `main` answers at the start.
fn first_step(alloc: Global, program: &Program) -> Result<Stepped, Memory> {
    let mut config = start(alloc, program)?;
    let main = Name::root();
    step(alloc, program, &mut config, &main)
}

fn is_first_fork(stepped: &Stepped) -> bool {
    match stepped {
        Stepped::Moved(Event::Fork(name)) => is_first(name),
        _ => false,
    }
}

fn forks_at_first(alloc: Global, program: &Program) -> Result<bool, Memory> {
    let looked = first_look(alloc, program)?;
    let is_looked = is_first_fork(&looked);
    let stepped = first_step(alloc, program)?;
    Ok(is_looked && is_first_fork(&stepped))
}

fn main_forks(alloc: Global) -> Result<bool, Memory> {
    let program = program(alloc, SENDS_FIVE)?;
    forks_at_first(alloc, &program)
}

#[test]
fn main_forks_first(rt: HostRuntime) -> Result<(), Fail> {
    is_so(&rt, main_forks(rt.alloc()))
}

/// Whether the child has one frame and a 5 on its channel, and nothing is printed.
fn has_sent(config: &Config, child: &Name) -> bool {
    matches!(config.stored(child), Some(Value::Int(5)))
        && matches!(config.frames(child), Some(frames) if frames.len() == 1)
        && config.prints().is_empty()
}

fn has_sent_after_two(alloc: Global, program: &Program) -> Result<bool, Memory> {
    let child = name(alloc, false)?;
    let Replayed { config, .. } = replay(alloc, program, 2)?;
    Ok(has_sent(&config, &child))
}

fn child_has_sent(alloc: Global) -> Result<bool, Memory> {
    let program = program(alloc, SENDS_FIVE)?;
    has_sent_after_two(alloc, &program)
}

#[test]
fn a_run_comes_to_a_configuration(rt: HostRuntime) -> Result<(), Fail> {
    is_so(&rt, child_has_sent(rt.alloc()))
}
