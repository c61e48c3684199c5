//! Integer variables and hypotheses that are added: at most 256 of either.
ghost use Rattle.std.specs.Prelude.{◌≡◌, ◌≤◌, length, All, Ok, OnOk, IfErr};
ghost use Rattle.farkas_check.specs.Rows.{IsNarrow};
ghost use Rattle.outline_language.specs.LinearForms.{minus, plus_one};
ghost use Rattle.outline_language.specs.Contexts as spec;
ghost use Rattle.outline_obligations.specs.Reasons.{IsReason};
ghost use Rattle.outline_contexts.specs.Trails.{IsAfter, context_in};
ghost use Rattle.outline_contexts.specs.Growing.{with_row};

use crate::trail::Context;
use chan_syntax::Ident;
use farkas_check::{Row, Rows};
use nameless_forms::{Form, FormSum, at_most_row, less_row};
use outline_obligations::{ContextFault, Why};
use std::alloc::Global;

/// How many integer variables, and how many hypotheses, a context may have.
const MOST: usize = 256;

impl Context {
    /// How many integer variables there are.
    pub fn variables(&self) -> u32
        ensures count { result ≡ length self.now.ints }
        ensures few { result ≤ 256 }
    {
        self.ints.len() as u32
    }

    pub fn hyps(&self) -> &Rows
        ensures rows { result.now ≡ self.now.hyps }
        ensures narrow { All IsNarrow result.now }
    {
        &self.hyps
    }

    /// The names of the integer variables.
    pub fn ints(&self) -> &[Ident]
        ensures { result.now ≡ self.now.ints }
    {
        self.ints.as_slice()
    }

    /// Adds an integer variable, with TooLarge past 256.
    pub fn add_int(&mut self, name: &Ident) -> Result<(), ContextFault>
        ensures ok { OnOk result (spec.add_int (context_in self.old) name.now ≡ Ok (context_in self.new)) }
        ensures err { IfErr result (IsReason (spec.add_int (context_in self.old) name.now)) }
        ensures after { IsAfter self.old self.new }
    {
        if self.ints.len() >= MOST {
            return Err(ContextFault::Why(Why::TooLarge));
        }
        self.ints.push(name)?;
        Ok(())
    }

    /// Adds integer variables in order.
    pub fn add_ints(&mut self, names: &[Ident]) -> Result<(), ContextFault>
        ensures ok { OnOk result (spec.add_ints (context_in self.old) names.now ≡ Ok (context_in self.new)) }
        ensures err { IfErr result (IsReason (spec.add_ints (context_in self.old) names.now)) }
        ensures after { IsAfter self.old self.new }
    {
        for name in names {
            self.add_int(name)?;
        }
        Ok(())
    }

    /// Adds a hypothesis, with TooLarge past 256.
    pub fn assume_row(&mut self, row: Row) -> Result<(), ContextFault>
        requires { IsNarrow row }
        ensures ok { OnOk result (with_row (context_in self.old) row ≡ Ok (context_in self.new)) }
        ensures err { IfErr result (IsReason (with_row (context_in self.old) row)) }
        ensures after { IsAfter self.old self.new }
    {
        if self.hyps.len() >= MOST {
            return Err(ContextFault::Why(Why::TooLarge));
        }
        self.hyps.push(row)?;
        Ok(())
    }

    /// Adds the hypothesis that a form is at most 0: first its row is formed.
    pub fn assume(&mut self, alloc: Global, sum: &FormSum) -> Result<(), ContextFault>
        ensures ok { OnOk result (spec.add_hyp (context_in self.old) sum.now ≡ Ok (context_in self.new)) }
        ensures err { IfErr result (IsReason (spec.add_hyp (context_in self.old) sum.now)) }
        ensures after { IsAfter self.old self.new }
    {
        let row = sum.row(alloc, self.variables())?;
        self.assume_row(row)
    }

    /// Adds the hypothesis that the first form is at most the second.
    pub fn assume_at_most(
        &mut self,
        alloc: Global,
        left: &Form,
        right: &Form,
    ) -> Result<(), ContextFault>
        ensures ok { OnOk result (spec.add_hyp (context_in self.old) (minus left.now right.now) ≡ Ok (context_in self.new)) }
        ensures err { IfErr result (IsReason (spec.add_hyp (context_in self.old) (minus left.now right.now))) }
        ensures after { IsAfter self.old self.new }
    {
        let row = at_most_row(alloc, self.variables(), left, right)?;
        self.assume_row(row)
    }

    /// Adds the hypothesis that the first form is less than the second.
    pub fn assume_less(
        &mut self,
        alloc: Global,
        left: &Form,
        right: &Form,
    ) -> Result<(), ContextFault>
        ensures ok { OnOk result (spec.add_hyp (context_in self.old) (plus_one (minus left.now right.now)) ≡ Ok (context_in self.new)) }
        ensures err { IfErr result (IsReason (spec.add_hyp (context_in self.old) (plus_one (minus left.now right.now)))) }
        ensures after { IsAfter self.old self.new }
    {
        let row = less_row(alloc, self.variables(), left, right)?;
        self.assume_row(row)
    }
}
