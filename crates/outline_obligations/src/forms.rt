//! Forms that are shown to be at most 0: first their rows are formed, then shown.
ghost use Rattle.std.specs.Prelude.{◌≤◌, All, IfOk, IfErr};
ghost use Rattle.farkas_check.specs.Rows.{IsNarrow};
ghost use Rattle.chan_syntax.specs.Bounds.{IsBounded};
ghost use Rattle.outline_language.specs.LinearForms.{minus, plus_one};
ghost use Rattle.outline_obligations.specs.Cursors.{cursor_at, obliged, Obliges};
ghost use Rattle.outline_obligations.specs.Reasons.{IsReason};

use crate::cursors::{Refused, Taken};
use crate::faults::ContextFault;
use crate::obligations::show_row;
use chan_syntax::Proof;
use farkas_check::Rows;
use nameless_forms::{Form, at_most_row, less_row};
use std::alloc::Global;

/// The first form is at most the second, over so many integer variables.
pub fn oblige_at_most(
    alloc: Global,
    refused: Refused,
    variables: u32,
    hyps: &Rows,
    left: &Form,
    right: &Form,
    proof: &Proof,
    taken: Taken,
) -> Result<Taken, ContextFault>
    requires variables { variables ≤ 256 }
    requires hypotheses { All IsNarrow hyps.now }
    requires certs { All IsBounded proof.now.certs }
    ensures ok { IfOk result (Obliges refused variables hyps.now (minus left.now right.now) proof.now taken) }
    ensures err { IfErr result (IsReason (obliged refused variables hyps.now (minus left.now right.now) (cursor_at proof.now taken))) }
{
    let row = at_most_row(alloc, variables, left, right)?;
    show_row(alloc, refused, hyps, &row, proof, taken)
}

/// The first form is less than the second, over so many integer variables.
pub fn oblige_less(
    alloc: Global,
    refused: Refused,
    variables: u32,
    hyps: &Rows,
    left: &Form,
    right: &Form,
    proof: &Proof,
    taken: Taken,
) -> Result<Taken, ContextFault>
    requires variables { variables ≤ 256 }
    requires hypotheses { All IsNarrow hyps.now }
    requires certs { All IsBounded proof.now.certs }
    ensures ok { IfOk result (Obliges refused variables hyps.now (plus_one (minus left.now right.now)) proof.now taken) }
    ensures err { IfErr result (IsReason (obliged refused variables hyps.now (plus_one (minus left.now right.now)) (cursor_at proof.now taken))) }
{
    let row = less_row(alloc, variables, left, right)?;
    show_row(alloc, refused, hyps, &row, proof, taken)
}

/// The form is at most 0, over so many integer variables.
pub fn oblige(
    alloc: Global,
    refused: Refused,
    variables: u32,
    hyps: &Rows,
    form: &Form,
    proof: &Proof,
    taken: Taken,
) -> Result<Taken, ContextFault>
    requires variables { variables ≤ 256 }
    requires hypotheses { All IsNarrow hyps.now }
    requires certs { All IsBounded proof.now.certs }
    ensures ok { IfOk result (Obliges refused variables hyps.now form.now proof.now taken) }
    ensures err { IfErr result (IsReason (obliged refused variables hyps.now form.now (cursor_at proof.now taken))) }
{
    let zero = Form::constant(alloc, 0);
    oblige_at_most(alloc, refused, variables, hyps, form, &zero, proof, taken)
}
