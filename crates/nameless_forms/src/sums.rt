//! Linear forms that are still summed: exact, whatever their numbers.
ghost use Rattle.std.specs.Prelude.{◌≡◌, ◌+◌, ◌≤◌, ◌^◌, ℕ, pos, ◌*ℤ◌, Ok, unsigned_abs, true, false, OnOk, IfOk, IfErr};
ghost use Rattle.std.specs.List.{list_all};
ghost use Rattle.linear_forms.specs.Normal.{fits, IsNumberOf};
ghost use Rattle.outline_language.specs.LinearForms.{add_multiple as multiple_with, add_multiples as multiples_with};
ghost use Rattle.outline_language.specs.LinearForms.{constant_form, variable_form, add_times, plus_one, Free};
ghost use Rattle.outline_language.specs.Canonical.{AreCanonical, IsCanonical};
ghost use Rattle.outline_language.specs.Contexts.{formed, row_formed};
ghost use Rattle.nameless_forms.specs.declared.faults.FormFault.TheVariants as cause;
ghost use Rattle.nameless_forms.specs.Counts.{count_in, coefficients_in};
ghost use Rattle.nameless_forms.specs.Faults.{IsTooLarge};
ghost use Rattle.nameless_forms.specs.Sizes.{AreWithin, IsWithin};
ghost use Rattle.nameless_forms.specs.Standings.{standing_of};

use crate::counts::{Counts, add_count};
use crate::faults::FormFault;
use crate::linear::{Form, Multiple, Multiples};
use crate::variables::Var;
use chan_base::Memory;
use farkas_check::{Coefficients, Row};
use sqlite_items::Items;
use std::alloc::Global;
use std::collections::BTreeMap;
use std::marker::Model;
use wide_sums::Wide;

/// What stands for a name or a variable.
#[derive(Clone, Copy)]
pub enum Standing<'a> {
    Nothing,
    Unit,
    Variable(Var),
    Whole(&'a Form),
}

/// A form that is still summed.
#[derive(Drop)]
pub struct FormSum {
    counts: Counts,
    constant: Wide,
}

impl Model for FormSum {
    ghost use Rattle.outline_language.specs.LinearForms.{LinearForm};
    ghost use Rattle.outline_language.specs.Canonical.{AreCanonical};
    ghost use Rattle.nameless_forms.specs.Codes.{form_code};

    ghost Value = { LinearForm };

    ghost coded = { form_code };

    ghost view = { λ sum. record { multiples = sum.counts.entries; constant = sum.constant } };

    ghost invariant = { λ sum. AreCanonical sum.counts.entries };
}

fn add_multiple(counts: &mut Counts, weight: i128, multiple: &Multiple) -> Result<(), Memory>
    requires canonical { AreCanonical counts.old.entries }
    requires weight { unsigned_abs weight ≤ 2 ^ 63 }
    requires within { AreWithin (2 ^ 247) counts.old.entries }
    ensures sum { OnOk result (counts.new.entries ≡ multiple_with multiple.now.0 (weight *ℤ multiple.now.1) counts.old.entries) }
    ensures canonical { AreCanonical counts.new.entries }
    ensures within { (size : ℕ) → AreWithin size counts.old.entries → OnOk result (AreWithin (size + 2 ^ 126) counts.new.entries) }
{
    let (var, times) = *multiple;
    add_count(counts, var, weight, i128::from(times))
}

/// Adds each multiple so many times, the last one first.
fn add_multiples(counts: &mut Counts, weight: i128, multiples: &[Multiple]) -> Result<(), Memory>
    requires canonical { AreCanonical counts.old.entries }
    requires weight { unsigned_abs weight ≤ 2 ^ 63 }
    requires within { AreWithin (2 ^ 246) counts.old.entries }
    ensures sum { OnOk result (counts.new.entries ≡ multiples_with weight multiples.now counts.old.entries) }
    ensures canonical { AreCanonical counts.new.entries }
    ensures within { (size : ℕ) → AreWithin size counts.old.entries → OnOk result (AreWithin (size + 2 ^ 185) counts.new.entries) }
{
    let mut left = multiples.len();
    while left > 0 {
        left -= 1;
        add_multiple(counts, weight, &multiples[left])?;
    }
    Ok(())
}

fn number(sum: &Wide) -> Result<i64, FormFault>
    ensures { IsNumberOf cause.TooLarge sum.now result }
{
    sum.to_i64().ok_or(FormFault::TooLarge)
}

fn multiples_of(alloc: Global, counts: &Counts) -> Result<Multiples, FormFault>
    ensures ok { IfOk result (λ multiples. (multiples ≡ counts.now.entries) × (list_all (λ m. fits m.1) counts.now.entries ≡ true)) }
    ensures err { IfErr result (λ fault. fault ≡ cause.TooLarge → list_all (λ m. fits m.1) counts.now.entries ≡ false) }
{
    let mut multiples = Items::new(alloc);
    for (var, count) in counts.iter() {
        multiples.push((*var, number(count)?))?;
    }
    Ok(multiples)
}

fn coefficient(counts: &Counts, place: u32) -> Result<i64, FormFault>
    ensures { IsNumberOf cause.TooLarge (count_in (Free place) counts.now.entries) result }
{
    match counts.get(&Var::free(place)) {
        None => Ok(0),
        Some(count) => number(count),
    }
}

fn coefficients_of(
    alloc: Global,
    counts: &Counts,
    variables: u32,
) -> Result<Coefficients, FormFault>
    ensures ok { IfOk result (λ numbers. numbers ≡ coefficients_in variables counts.now.entries) }
    ensures narrow { IfOk result (λ _. list_all fits (coefficients_in variables counts.now.entries) ≡ true) }
    ensures err { IfErr result (λ fault. fault ≡ cause.TooLarge → list_all fits (coefficients_in variables counts.now.entries) ≡ false) }
{
    let mut coefficients = Items::new(alloc);
    for place in 0..variables {
        coefficients.push(coefficient(counts, place)?)?;
    }
    Ok(coefficients)
}

impl FormSum {
    /// The constant, and no multiple yet.
    pub fn constant(alloc: Global, constant: i64) -> FormSum
        ensures sum { result ≡ constant_form constant }
        ensures within { IsWithin (2 ^ 63) result }
    {
        let mut sum = Wide::zero();
        sum.add_product(1, i128::from(constant));
        FormSum {
            counts: BTreeMap::new(alloc),
            constant: sum,
        }
    }

    /// The form, to be added to.
    pub fn from_form(alloc: Global, form: &Form) -> Result<FormSum, Memory>
        ensures sum { IfOk result (λ sum. sum ≡ form.now) }
        ensures within { IfOk result (IsWithin (2 ^ 246)) }
    {
        let mut sum = FormSum::constant(alloc, 0);
        sum.add_form(1, form)?;
        Ok(sum)
    }

    fn add_form(&mut self, weight: i128, form: &Form) -> Result<(), Memory>
        requires weight { unsigned_abs weight ≤ 2 ^ 63 }
        requires within { IsWithin (2 ^ 246) self.old }
        ensures sum { OnOk result (self.new ≡ add_times weight form.now self.old) }
        ensures canonical { IsCanonical form.now }
        ensures within { (size : ℕ) → IsWithin size self.old → OnOk result (IsWithin (size + 2 ^ 185) self.new) }
    {
        add_multiples(&mut self.counts, weight, form.multiples.as_slice())?;
        self.constant.add_product(weight, i128::from(form.constant));
        Ok(())
    }

    fn add_variable(&mut self, weight: i128, var: Var) -> Result<(), Memory>
        requires weight { unsigned_abs weight ≤ 2 ^ 63 }
        requires within { IsWithin (2 ^ 246) self.old }
        ensures sum { OnOk result (self.new ≡ add_times weight (variable_form var) self.old) }
        ensures within { (size : ℕ) → IsWithin size self.old → OnOk result (IsWithin (size + 2 ^ 185) self.new) }
    {
        add_count(&mut self.counts, var, weight, 1)
    }

    pub(crate) fn add_constant(&mut self, weight: i128, constant: i64)
        requires weight { unsigned_abs weight ≤ 2 ^ 63 }
        requires within { IsWithin (2 ^ 246) self.old }
        ensures sum { self.new ≡ add_times weight (constant_form constant) self.old }
        ensures canonical { IsCanonical self.old }
        ensures within { (size : ℕ) → IsWithin size self.old → IsWithin (size + 2 ^ 185) self.new }
    {
        self.constant.add_product(weight, i128::from(constant));
    }

    /// Adds so many times what stands for a name or a variable.
    pub fn add(&mut self, weight: i128, standing: Standing<'_>) -> Result<(), Memory>
        requires weight { unsigned_abs weight ≤ 2 ^ 63 }
        requires within { IsWithin (2 ^ 246) self.old }
        ensures sum { OnOk result (self.new ≡ add_times weight (standing_of standing.entry) self.old) }
        ensures within { (size : ℕ) → IsWithin size self.old → OnOk result (IsWithin (size + 2 ^ 185) self.new) }
    {
        match standing {
            Standing::Nothing => Ok(()),
            Standing::Unit => {
                self.add_constant(weight, 1);
                Ok(())
            }
            Standing::Variable(var) => self.add_variable(weight, var),
            Standing::Whole(form) => self.add_form(weight, form),
        }
    }

    /// The sum is one more.
    pub fn add_one(&mut self)
        requires { IsWithin (2 ^ 247) self.old }
        ensures { self.new ≡ plus_one self.old }
    {
        self.constant.add_product(1, 1);
    }

    /// The form, where 64 bits hold its numbers.
    pub fn form(&self, alloc: Global) -> Result<Form, FormFault>
        ensures ok { IfOk result (λ form. formed self.now ≡ Ok form) }
        ensures err { IfErr result (IsTooLarge (formed self.now)) }
    {
        let multiples = multiples_of(alloc, &self.counts)?;
        let constant = number(&self.constant)?;
        Ok(Form {
            multiples,
            constant,
        })
    }

    /// The row over so many integer variables, where 64 bits hold its numbers.
    pub fn row(&self, alloc: Global, variables: u32) -> Result<Row, FormFault>
        ensures ok { IfOk result (λ row. row_formed variables self.now ≡ Ok row) }
        ensures err { IfErr result (IsTooLarge (row_formed variables self.now)) }
    {
        let coefficients = coefficients_of(alloc, &self.counts, variables)?;
        let constant = number(&self.constant)?;
        Ok(Row {
            coefficients,
            constant,
        })
    }
}
