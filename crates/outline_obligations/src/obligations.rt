//! Rows that are shown to be at most 0.
ghost use Rattle.std.specs.Prelude.{◌≡◌, suc, pos, int_le, All, Ok, IfOk, IfErr};
ghost use Rattle.std.specs.List.{list_all};
ghost use Rattle.std.specs.Ordering.{int_eq};
ghost use Rattle.farkas_check.specs.Rows.{IsNarrow};
ghost use Rattle.chan_syntax.specs.Bounds.{IsBounded};
ghost use Rattle.outline_language.specs.Contexts as spec;
ghost use Rattle.outline_obligations.specs.Cursors.{cursor_at, refused_as, tried_at};
ghost use Rattle.outline_obligations.specs.Reasons.{IsReason, why_of};

use crate::cursors::{Refused, Taken};
use crate::faults::{ContextFault, Why};
use chan_base::Memory;
use chan_syntax::{Proof, WrittenCert};
use farkas_check::{CertFault, Row, Rows, holds};
use std::alloc::Global;

fn are_zero(numbers: &[i64]) -> bool
    ensures { result ≡ list_all (λ c. int_eq c (pos 0)) numbers.now }
{
    numbers.iter().all(|number| *number == 0)
}

fn is_low(number: i64) -> bool
    ensures { result ≡ int_le number (pos 0) }
{
    number <= 0
}

/// Whether a row is a constant at most 0.
pub fn asks_nothing(row: &Row) -> bool
    ensures { result ≡ spec.asks_nothing row.now }
{
    are_zero(row.coefficients.as_slice()) && is_low(row.constant)
}

fn one_more(count: u32) -> Result<u32, Memory>
    ensures { IfOk result (λ more. more ≡ suc count) }
{
    count.checked_add(1).ok_or(Memory)
}

fn refusal(refused: Refused, number: u32, fault: CertFault) -> Why
    ensures { why_of result ≡ refused_as refused number fault }
{
    match refused {
        Refused::Here => Why::NotProved(number, fault),
        Refused::OnPath => Why::BranchNotProved(number, fault),
    }
}

/// Tries a certificate on a row.
fn try_cert(
    alloc: Global,
    refused: Refused,
    hyps: &Rows,
    row: &Row,
    proof: &Proof,
    written: &WrittenCert,
    taken: Taken,
) -> Result<Taken, ContextFault>
    requires hypotheses { All IsNarrow hyps.now }
    requires bounded { IsBounded written.now }
    requires row { IsNarrow row.now }
    ensures ok { IfOk result (λ after. tried_at refused hyps.now row.now written.now (cursor_at proof.now taken) ≡ Ok (cursor_at proof.now after)) }
    ensures err { IfErr result (IsReason (tried_at refused hyps.now row.now written.now (cursor_at proof.now taken))) }
{
    match holds(&written.cert(alloc)?, hyps, row) {
        Ok(()) => {
            let cert = one_more(taken.cert)?;
            Ok(Taken {
                instance: taken.instance,
                cert,
            })
        }
        Err(fault) => Err(ContextFault::Why(refusal(refused, taken.cert, fault))),
    }
}

/// Shows a row by the next certificate.
fn show(
    alloc: Global,
    refused: Refused,
    hyps: &Rows,
    row: &Row,
    proof: &Proof,
    taken: Taken,
) -> Result<Taken, ContextFault>
    requires hypotheses { All IsNarrow hyps.now }
    requires certs { All IsBounded proof.now.certs }
    requires row { IsNarrow row.now }
    ensures ok { IfOk result (λ after. spec.shown (refused_as refused) hyps.now row.now (cursor_at proof.now taken) ≡ Ok (cursor_at proof.now after)) }
    ensures err { IfErr result (IsReason (spec.shown (refused_as refused) hyps.now row.now (cursor_at proof.now taken))) }
{
    match proof.certs.as_slice().get(taken.cert as usize) {
        None => Err(ContextFault::Why(Why::CertCount)),
        Some(written) => try_cert(alloc, refused, hyps, row, proof, written, taken),
    }
}

/// Shows a row by the next certificate, unless it asks for nothing. CertCount where none is left; `refused` tells what is said
/// where it isn't valid. Memory also where more certificates were taken than 32 bits count.
pub fn show_row(
    alloc: Global,
    refused: Refused,
    hyps: &Rows,
    row: &Row,
    proof: &Proof,
    taken: Taken,
) -> Result<Taken, ContextFault>
    requires hypotheses { All IsNarrow hyps.now }
    requires certs { All IsBounded proof.now.certs }
    requires row { IsNarrow row.now }
    ensures ok { IfOk result (λ after. spec.row_shown (refused_as refused) hyps.now row.now (cursor_at proof.now taken) ≡ Ok (cursor_at proof.now after)) }
    ensures err { IfErr result (IsReason (spec.row_shown (refused_as refused) hyps.now row.now (cursor_at proof.now taken))) }
{
    if asks_nothing(row) {
        return Ok(taken);
    }
    show(alloc, refused, hyps, row, proof, taken)
}
