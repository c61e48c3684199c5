//! Tries a certificate that mentions all of so many hypotheses, so often, and writes how often it held.
#![tactic(auto)]

ghost use Rattle.std.specs.Prelude.{◌≤◌, ◌<◌, ◌^◌, All, length, unsigned_abs, IfOk};
ghost use Rattle.farkas_check.specs.Rows.{IsNarrow};

use chan_base::Memory;
use farkas_check::{Cert, Mention, Mentions, Row, Rows, holds};
use sqlite_items::Items;
use std::alloc::Global;
use std::env;
use std::process::ExitCode;
use std::rt::Env;

/// The row over so many variables whose coefficients are all the same.
fn row(alloc: Global, size: u32, coefficient: i64) -> Result<Row, Memory>
    requires { size ≤ 256 }
    ensures { IfOk result IsNarrow }
{
    let mut coefficients = Items::new(alloc);
    for _ in 0..size {
        coefficients.push(coefficient)?;
    }
    Ok(Row {
        coefficients,
        constant: 0,
    })
}

fn hypotheses(alloc: Global, size: u32) -> Result<Rows, Memory>
    requires { size ≤ 256 }
    ensures { IfOk result (All IsNarrow) }
{
    let mut hyps = Items::new(alloc);
    for _ in 0..size {
        hyps.push(row(alloc, size, 1)?)?;
    }
    Ok(hyps)
}

fn mentions(alloc: Global, size: u32) -> Result<Mentions, Memory>
    requires { size ≤ 256 }
    ensures few { IfOk result (λ all. length all ≤ 256) }
    ensures bounded { IfOk result (All (λ m. unsigned_abs m.factor < 2 ^ 31)) }
{
    let mut all = Items::new(alloc);
    for index in 0..size {
        all.push(Mention { factor: 1, index })?;
    }
    Ok(all)
}

fn count(cert: &Cert, hyps: &Rows, claim: &Row, times: u32) -> u32
    requires hypotheses { All IsNarrow hyps.now }
    requires claim { IsNarrow claim.now }
{
    let mut held = 0u32;
    for _ in 0..times {
        if holds(cert, hyps, claim).is_ok() {
            held = held.saturating_add(1);
        }
    }
    held
}

/// How often the sum of all hypotheses was shown to follow from them.
fn shown(alloc: Global, times: u32, size: u32) -> Result<u32, Memory>
    requires { size ≤ 256 }
{
    let hyps = hypotheses(alloc, size)?;
    let claim = row(alloc, size, i64::from(size))?;
    let mentions = mentions(alloc, size)?;
    let cert = Cert {
        divisor: 1,
        mentions,
    };
    Ok(count(&cert, &hyps, &claim, times))
}

/// The two numbers among the program's words.
fn numbers(rt: &(impl Env + AllocGlobal)) -> Option<(u32, u32)> {
    let mut words = env::args(rt).ok()?.skip(1);
    let times = words.next()?.parse().ok()?;
    let size = words.next()?.parse().ok()?;
    Some((times, size))
}

fn main(rt: HostRuntime) -> ExitCode {
    let Some((times, size)) = numbers(&rt) else {
        return ExitCode::from(1);
    };
    if size > 256 {
        return ExitCode::from(1);
    }
    match shown(rt.alloc(), times, size) {
        Ok(held) => match println!(rt; "{held}") {
            Ok(()) => ExitCode::from(0),
            Err(_) => ExitCode::from(1),
        },
        Err(_) => ExitCode::from(1),
    }
}
