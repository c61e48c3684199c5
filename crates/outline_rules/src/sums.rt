//! Sums of parts, at each place of a row at once.
ghost use Rattle.std.specs.Prelude.{◌≡◌, ◌+◌, ◌≤◌, ◌^◌, ℕ, pos, unsigned_abs, length, map, IfOk};
ghost use Rattle.std.specs.List.{range_with_len};
ghost use Rattle.chan_syntax.specs.Reading.{part_of};
ghost use Rattle.linear_forms.specs.Terms.{times_of, normal_form};
ghost use Rattle.outline_rules.specs.Naming.{int_var_of, int_names_of};
ghost use Rattle.outline_rules.specs.Sums.{IsWithin, AddsPart, AddsTerm, AddsMeaning, row_in};

use crate::naming::{IntNames, place_of, var_named};
use chan_base::Memory;
use chan_syntax::{Ident, Part};
use std::alloc::Global;
use wide_sums::Wide;

/// A row that is still summed.
#[derive(Drop)]
pub(crate) struct Sums {
    pub coefficients: Vec<Wide>,
    pub constant: Wide,
}

/// Adds a part some times, which names an integer variable or nothing.
fn add_part(ints: &[Ident], sums: &mut Sums, weight: i128, part: &Part)
    requires weight { unsigned_abs weight ≤ 2 ^ 63 }
    requires within { IsWithin (length ints.now) (2 ^ 247) sums.old }
    ensures adds { AddsPart ints.now weight (part_of part.now) sums.old sums.new }
    ensures within { (size : ℕ) → IsWithin (length ints.now) size sums.old → IsWithin (length ints.now) (size + 2 ^ 126) sums.new }
{
    match &part.name {
        None => sums.constant.add_product(weight, part.times()),
        Some(name) => {
            if let Some(place) = place_of(ints, name) {
                sums.coefficients[place].add_product(weight, part.times());
            }
        }
    }
}

/// Adds a term over the integer variables some times.
fn add_term(ints: &[Ident], sums: &mut Sums, weight: i128, parts: &[Part])
    requires weight { unsigned_abs weight ≤ 2 ^ 63 }
    requires within { IsWithin (length ints.now) (2 ^ 246) sums.old }
    ensures adds { AddsTerm ints.now weight (map part_of parts.now) sums.old sums.new }
    ensures within { (size : ℕ) → IsWithin (length ints.now) size sums.old → IsWithin (length ints.now) (size + 2 ^ 185) sums.new }
{
    for part in parts {
        add_part(ints, sums, weight, part);
    }
}

/// Adds a part that may name a program variable.
fn add_meaning(names: &IntNames, sums: &mut Sums, part: &Part)
    requires { IsWithin (length names.now.ints) (2 ^ 246) sums.old }
    ensures adds { AddsMeaning names.now.ints (map int_var_of names.now.vars) (part_of part.now) sums.old sums.new }
    ensures within { (size : ℕ) → IsWithin (length names.now.ints) size sums.old → IsWithin (length names.now.ints) (size + 2 ^ 185) sums.new }
{
    let ints = names.ints.as_slice();
    match &part.name {
        None => add_part(ints, sums, 1, part),
        Some(name) => match var_named(names.vars.as_slice(), name) {
            None => add_part(ints, sums, 1, part),
            Some(var) => add_term(ints, sums, part.times(), var.term.parts.as_slice()),
        },
    }
}

#[tactic(auto, using(crate::proofs::Ranges::zeros_more))]
fn zeros(alloc: Global, variables: usize) -> Result<Sums, Memory>
    ensures coefficients { IfOk result (λ sums. sums.coefficients.items ≡ map (λ i. pos 0) (range_with_len 0 variables)) }
    ensures constant { IfOk result (λ sums. sums.constant ≡ pos 0) }
{
    let mut coefficients = Vec::with_capacity(alloc, variables)?;
    for _ in 0..variables {
        coefficients.push(Wide::zero())?;
    }
    let constant = Wide::zero();
    Ok(Sums {
        coefficients,
        constant,
    })
}

pub(crate) fn sums_of(alloc: Global, names: &IntNames, parts: &[Part]) -> Result<Sums, Memory>
    ensures { IfOk result (λ sums. row_in sums ≡ normal_form (int_names_of names.now) (map part_of parts.now)) }
{
    let mut sums = zeros(alloc, names.ints.len())?;
    for part in parts {
        add_meaning(names, &mut sums, part);
    }
    Ok(sums)
}
