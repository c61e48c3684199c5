//! Terms as forms, where each name stands for one.
ghost use Rattle.std.specs.Prelude.{◌≡◌, ◌+◌, ◌≤◌, ◌^◌, ℕ, Ok, map, OnOk, IfOk, IfErr};
ghost use Rattle.core_language.specs.Names.{Ident as Name};
ghost use Rattle.linear_forms.specs.Terms.{times_of};
ghost use Rattle.chan_syntax.specs.Reading.{part_of, term_of};
ghost use Rattle.outline_language.specs.LinearForms.{LinearForm, add_times, of_name, form_of_term as form_of};
ghost use Rattle.outline_language.specs.Contexts.{formed};
ghost use Rattle.nameless_forms.specs.Faults.{IsTooLarge};
ghost use Rattle.nameless_forms.specs.Sizes.{IsWithin};
ghost use Rattle.nameless_forms.specs.Standings.{standing_of};

use crate::faults::FormFault;
use crate::linear::Form;
use crate::sums::{FormSum, Standing};
use chan_base::Memory;
use chan_syntax::{Ident, Part, Term};
use std::alloc::Global;

/// Where names are looked up.
pub trait Names {
    /// The form that a name stands for.
    ghost stands_for: { Self → Name → LinearForm };

    fn standing(&self, name: &Ident) -> Standing<'_>
        ensures { standing_of result ≡ stands_for self.now name.now };
}

fn standing_of_part<'a, N: Names>(names: &'a N, part: &Part) -> Standing<'a>
    ensures { standing_of result ≡ of_name (N.stands_for names.now) part.now.name }
{
    match &part.name {
        None => Standing::Unit,
        Some(name) => names.standing(name),
    }
}

fn add_part<N: Names>(sum: &mut FormSum, names: &N, part: &Part) -> Result<(), Memory>
    requires { IsWithin (2 ^ 246) sum.old }
    ensures sum { OnOk result (sum.new ≡ add_times (times_of (part_of part.now)) (of_name (N.stands_for names.now) part.now.name) sum.old) }
    ensures within { (size : ℕ) → IsWithin size sum.old → OnOk result (IsWithin (size + 2 ^ 185) sum.new) }
{
    sum.add(part.times(), standing_of_part(names, part))
}

fn sum_of_parts<N: Names>(alloc: Global, names: &N, parts: &[Part]) -> Result<FormSum, Memory>
    ensures { IfOk result (λ sum. sum ≡ form_of (N.stands_for names.now) (map part_of parts.now)) }
{
    let mut sum = FormSum::constant(alloc, 0);
    let mut left = parts.len();
    while left > 0 {
        left -= 1;
        add_part(&mut sum, names, &parts[left])?;
    }
    Ok(sum)
}

/// The form of a term, where 64 bits hold its numbers.
pub fn form_of_term<N: Names>(alloc: Global, names: &N, term: &Term) -> Result<Form, FormFault>
    ensures ok { IfOk result (λ form. formed (form_of (N.stands_for names.now) (term_of term.now)) ≡ Ok form) }
    ensures err { IfErr result (IsTooLarge (formed (form_of (N.stands_for names.now) (term_of term.now)))) }
{
    let sum = sum_of_parts(alloc, names, term.parts.as_slice())?;
    sum.form(alloc)
}
