//! Forms in which instances stand for binders.
ghost use Rattle.std.specs.Prelude.{◌≡◌, ◌+◌, ◌≤◌, ◌<◌, ◌^◌, ℕ, ◌*ℤ◌, unsigned_abs, slice_get, unwrap_or, Ok, OnOk, IfOk, IfErr};
ghost use Rattle.outline_language.specs.LinearForms.{Inside, variable_form, add_times};
ghost use Rattle.outline_language.specs.Nameless.{instance_for, form_with as with_instances};
ghost use Rattle.outline_language.specs.Contexts.{formed};
ghost use Rattle.nameless_forms.specs.Faults.{IsTooLarge};
ghost use Rattle.nameless_forms.specs.Putting.{AddsPut};
ghost use Rattle.nameless_forms.specs.Sizes.{IsWithin};
ghost use Rattle.nameless_forms.specs.Standings.{standing_of};

use crate::faults::FormFault;
use crate::linear::{Form, Multiple};
use crate::sums::{FormSum, Standing};
use crate::variables::{Place, Var};
use chan_base::Memory;
use std::alloc::Global;

/// The instance with this number, or the variable itself.
fn instance_at(instances: &[Form], number: usize, var: Var) -> Standing<'_>
    ensures { standing_of result ≡ unwrap_or (slice_get instances.now number) (variable_form var) }
{
    match instances.get(number) {
        Some(form) => Standing::Whole(form),
        None => Standing::Variable(var),
    }
}

fn standing_of_binder(instances: &[Form], depth: usize, number: usize) -> Standing<'_>
    requires { number + 1 < 2 ^ 64 }
    ensures { standing_of result ≡ instance_for instances.now depth (Inside number) }
{
    let var = Var::inside(number);
    if number < depth {
        Standing::Variable(var)
    } else {
        instance_at(instances, number - depth, var)
    }
}

fn standing_for(instances: &[Form], depth: usize, var: Var) -> Standing<'_>
    ensures { standing_of result ≡ instance_for instances.now depth var }
{
    match var.place {
        Place::Free(_) => Standing::Variable(var),
        Place::Inside(number) => standing_of_binder(instances, depth, number),
    }
}

fn times_of(weight: i128, multiple: &Multiple) -> i128
    requires { unsigned_abs weight ≤ 1 }
    ensures value { result ≡ weight *ℤ multiple.now.1 }
    ensures bound { unsigned_abs result ≤ 2 ^ 63 }
{
    weight * i128::from(multiple.1)
}

/// Adds what stands for the variable of a multiple, so many times as often as it counts.
fn put_multiple(
    sum: &mut FormSum,
    weight: i128,
    instances: &[Form],
    depth: usize,
    multiple: &Multiple,
) -> Result<(), Memory>
    requires weight { unsigned_abs weight ≤ 1 }
    requires within { IsWithin (2 ^ 246) sum.old }
    ensures sum { OnOk result (sum.new ≡ add_times (weight *ℤ multiple.now.1) (instance_for instances.now depth multiple.now.0) sum.old) }
    ensures within { (size : ℕ) → IsWithin size sum.old → OnOk result (IsWithin (size + 2 ^ 185) sum.new) }
{
    sum.add(
        times_of(weight, multiple),
        standing_for(instances, depth, multiple.0),
    )
}

/// Adds each of them, the last one first, to a sum that has the constant already.
fn put_multiples(
    sum: &mut FormSum,
    weight: i128,
    instances: &[Form],
    depth: usize,
    multiples: &[Multiple],
) -> Result<(), Memory>
    requires weight { unsigned_abs weight ≤ 1 }
    requires within { IsWithin (2 ^ 245 + 2 ^ 244) sum.old }
    ensures sum { AddsPut (instance_for instances.now depth) weight multiples.now result sum.old sum.new }
    ensures within { (size : ℕ) → IsWithin size sum.old → OnOk result (IsWithin (size + 2 ^ 244) sum.new) }
{
    let mut left = multiples.len();
    while left > 0 {
        left -= 1;
        put_multiple(sum, weight, instances, depth, &multiples[left])?;
    }
    Ok(())
}

/// Adds so many times the form with the instances, which stand for the binders around `depth` others.
pub(crate) fn put(
    sum: &mut FormSum,
    weight: i128,
    instances: &[Form],
    depth: usize,
    form: &Form,
) -> Result<(), Memory>
    requires weight { unsigned_abs weight ≤ 1 }
    requires within { IsWithin (2 ^ 245) sum.old }
    ensures sum { OnOk result (sum.new ≡ add_times weight (with_instances instances.now depth form.now) sum.old) }
    ensures within { (size : ℕ) → IsWithin size sum.old → OnOk result (IsWithin (size + (2 ^ 244 + 2 ^ 185)) sum.new) }
{
    sum.add_constant(weight, form.constant);
    put_multiples(sum, weight, instances, depth, form.multiples.as_slice())
}

/// The form with the instances.
pub(crate) fn with(
    alloc: Global,
    instances: &[Form],
    depth: usize,
    form: &Form,
) -> Result<FormSum, Memory>
    ensures sum { IfOk result (λ sum. sum ≡ with_instances instances.now depth form.now) }
    ensures within { IfOk result (IsWithin (2 ^ 245)) }
{
    let mut sum = FormSum::constant(alloc, 0);
    put(&mut sum, 1, instances, depth, form)?;
    Ok(sum)
}

/// The form with the instances, which stand for the binders around `depth` others, where 64 bits hold its numbers.
pub fn form_with(
    alloc: Global,
    instances: &[Form],
    depth: usize,
    form: &Form,
) -> Result<Form, FormFault>
    ensures ok { IfOk result (λ put. formed (with_instances instances.now depth form.now) ≡ Ok put) }
    ensures err { IfErr result (IsTooLarge (formed (with_instances instances.now depth form.now))) }
{
    let sum = with(alloc, instances, depth, form)?;
    sum.form(alloc)
}
