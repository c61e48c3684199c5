//! Obligations in a context.
ghost use Rattle.std.specs.Prelude.{◌≡◌, All, Ok, IfOk, IfErr};
ghost use Rattle.farkas_check.specs.Rows.{IsNarrow};
ghost use Rattle.chan_syntax.specs.Bounds.{IsBounded};
ghost use Rattle.outline_language.specs.LinearForms.{minus, plus_one};
ghost use Rattle.outline_language.specs.Contexts as spec;
ghost use Rattle.outline_obligations.specs.Cursors.{cursor_at};
ghost use Rattle.outline_obligations.specs.Reasons.{IsReason};
ghost use Rattle.outline_contexts.specs.Trails.{context_in};

use crate::trail::Context;
use chan_syntax::Proof;
use farkas_check::Row;
use nameless_forms::Form;
use outline_obligations::{ContextFault, Refused, Taken};
use std::alloc::Global;

impl Context {
    /// The row is at most 0.
    pub fn oblige_row(
        &self,
        alloc: Global,
        row: &Row,
        proof: &Proof,
        taken: Taken,
    ) -> Result<Taken, ContextFault>
        requires certs { All IsBounded proof.now.certs }
        requires row { IsNarrow row.now }
        ensures ok { IfOk result (λ after. spec.row_shown spec.NotProved self.now.hyps row.now (cursor_at proof.now taken) ≡ Ok (cursor_at proof.now after)) }
        ensures err { IfErr result (IsReason (spec.row_shown spec.NotProved self.now.hyps row.now (cursor_at proof.now taken))) }
    {
        outline_obligations::show_row(alloc, Refused::Here, self.hyps(), row, proof, taken)
    }

    /// The first form is at most the second.
    pub fn oblige_at_most(
        &self,
        alloc: Global,
        left: &Form,
        right: &Form,
        proof: &Proof,
        taken: Taken,
    ) -> Result<Taken, ContextFault>
        requires { All IsBounded proof.now.certs }
        ensures ok { IfOk result (λ after. spec.oblige spec.NotProved (context_in self.now) (minus left.now right.now) (cursor_at proof.now taken) ≡ Ok (cursor_at proof.now after)) }
        ensures err { IfErr result (IsReason (spec.oblige spec.NotProved (context_in self.now) (minus left.now right.now) (cursor_at proof.now taken))) }
    {
        outline_obligations::oblige_at_most(
            alloc,
            Refused::Here,
            self.variables(),
            self.hyps(),
            left,
            right,
            proof,
            taken,
        )
    }

    /// The form is at most 0.
    pub fn oblige(
        &self,
        alloc: Global,
        form: &Form,
        proof: &Proof,
        taken: Taken,
    ) -> Result<Taken, ContextFault>
        requires { All IsBounded proof.now.certs }
        ensures ok { IfOk result (λ after. spec.oblige spec.NotProved (context_in self.now) form.now (cursor_at proof.now taken) ≡ Ok (cursor_at proof.now after)) }
        ensures err { IfErr result (IsReason (spec.oblige spec.NotProved (context_in self.now) form.now (cursor_at proof.now taken))) }
    {
        outline_obligations::oblige(
            alloc,
            Refused::Here,
            self.variables(),
            self.hyps(),
            form,
            proof,
            taken,
        )
    }
}
