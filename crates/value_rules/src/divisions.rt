//! What divisions say of their results, as sums that are at most 0.
ghost use Rattle.std.specs.Prelude.{◌≡◌, ℕ, ◌+◌, ◌≤◌, ◌^◌, ◌+ℤ◌, ◌-ℤ◌, pos, neg_ℤ, unsigned_abs, IfOk, OnOk};
ghost use Rattle.outline_language.specs.Canonical.{IsCanonical};
ghost use Rattle.outline_language.specs.LinearForms.{constant_form, add_times, minus};
ghost use Rattle.nameless_forms.specs.Sizes.{IsWithin};

use chan_base::Memory;
use nameless_forms::{Form, FormSum, Standing};
use std::alloc::Global;

/// Two numbers that are the divisor together: sums take none above 2^63.
fn halves(divisor: u64) -> (i128, i128)
    ensures sum { result.0 +ℤ result.1 ≡ pos divisor }
    ensures first { unsigned_abs result.0 ≤ 2 ^ 63 }
    ensures second { unsigned_abs result.1 ≤ 2 ^ 63 }
{
    let half = divisor / 2;
    (i128::from(half), i128::from(divisor - half))
}

/// Two numbers that are less the divisor together.
fn less_halves(divisor: u64) -> (i128, i128)
    ensures sum { result.0 +ℤ result.1 ≡ neg_ℤ (pos divisor) }
    ensures first { unsigned_abs result.0 ≤ 2 ^ 63 }
    ensures second { unsigned_abs result.1 ≤ 2 ^ 63 }
{
    let half = divisor / 2;
    (-i128::from(half), -i128::from(divisor - half))
}

/// Two numbers that are less the divisor but one together.
fn less_but_one(divisor: u64) -> (i128, i128)
    ensures sum { result.0 +ℤ result.1 ≡ neg_ℤ (pos divisor -ℤ pos 1) }
    ensures first { unsigned_abs result.0 ≤ 2 ^ 63 }
    ensures second { unsigned_abs result.1 ≤ 2 ^ 63 }
{
    let half = divisor / 2;
    (-i128::from(half), 1 - i128::from(divisor - half))
}

/// The form, as often as two numbers are together.
fn add_twice(sum: &mut FormSum, times: (i128, i128), form: &Form) -> Result<(), Memory>
    requires first { unsigned_abs times.0 ≤ 2 ^ 63 }
    requires second { unsigned_abs times.1 ≤ 2 ^ 63 }
    requires within { IsWithin (2 ^ 245) sum.old }
    ensures sum { IsCanonical sum.old → OnOk result (sum.new ≡ add_times (times.0 +ℤ times.1) form.now sum.old) }
    ensures within { (size : ℕ) → size ≤ 2 ^ 245 → IsWithin size sum.old → OnOk result (IsWithin (size + 2 ^ 185 + 2 ^ 185) sum.new) }
{
    sum.add(times.0, Standing::Whole(form))?;
    sum.add(times.1, Standing::Whole(form))?;
    Ok(())
}

/// The form so many times, and nothing more.
fn start(alloc: Global, weight: i128, form: &Form) -> Result<FormSum, Memory>
    requires { unsigned_abs weight ≤ 2 ^ 63 }
    ensures sum { IfOk result (λ sum. sum ≡ add_times weight form.now (constant_form (pos 0))) }
    ensures within { IfOk result (IsWithin (2 ^ 63 + 2 ^ 185)) }
{
    let mut sum = FormSum::constant(alloc, 0);
    sum.add(weight, Standing::Whole(form))?;
    Ok(sum)
}

/// The divisor times the variable, less the form.
pub(crate) fn product_less(
    alloc: Global,
    divisor: u64,
    variable: &Form,
    form: &Form,
) -> Result<FormSum, Memory>
    ensures { IfOk result (λ sum. sum ≡ add_times (pos divisor) variable.now (minus (constant_form (pos 0)) form.now)) }
{
    let mut sum = start(alloc, -1, form)?;
    add_twice(&mut sum, halves(divisor), variable)?;
    Ok(sum)
}

/// The form less the divisor but one.
pub(crate) fn less_rest(alloc: Global, divisor: u64, form: &Form) -> Result<FormSum, Memory>
    ensures sum { IfOk result (λ sum. IsCanonical form.now → sum ≡ minus form.now (constant_form (pos divisor -ℤ pos 1))) }
    ensures within { IfOk result (IsWithin (2 ^ 245)) }
{
    let one = Form::constant(alloc, 1);
    let mut sum = start(alloc, 1, form)?;
    add_twice(&mut sum, less_but_one(divisor), &one)?;
    Ok(sum)
}

/// The form, less the divisor but one, less the divisor times the variable.
pub(crate) fn less_product(
    alloc: Global,
    divisor: u64,
    variable: &Form,
    form: &Form,
) -> Result<FormSum, Memory>
    ensures { IfOk result (λ sum. IsCanonical form.now → sum ≡ add_times (neg_ℤ (pos divisor)) variable.now (minus form.now (constant_form (pos divisor -ℤ pos 1)))) }
{
    let mut sum = less_rest(alloc, divisor, form)?;
    add_twice(&mut sum, less_halves(divisor), variable)?;
    Ok(sum)
}

/// Nothing less the variable.
pub(crate) fn less_variable(alloc: Global, variable: &Form) -> Result<FormSum, Memory>
    ensures { IfOk result (λ sum. sum ≡ minus (constant_form (pos 0)) variable.now) }
{
    start(alloc, -1, variable)
}
