//! The sums of terms, name by name, and whether they are narrow.
ghost use Rattle.std.specs.Prelude.{◌≡◌, ◌+◌, ◌-◌, ◌<◌, ◌≤◌, ◌^◌, ℕ, pos, ◌-ℤ◌, ◌+ℤ◌, ◌&&◌, [], ◌∷◌, ◌++◌, unsigned_abs, map, IfOk, OnOk};
ghost use Rattle.core_language.specs.Names.{Ident};
ghost use Rattle.linear_forms.specs.Terms.{less, one, times_of};
ghost use Rattle.linear_forms.specs.Normal as normal;
ghost use Rattle.chan_syntax.specs.Reading.{part_of, term_of, limit_of};
ghost use Rattle.narrow_terms.specs.Numbers as spec;
ghost use Rattle.narrow_terms.specs.Sums.{count_in, difference_in, Adds, IsSumOf, IsWithin};

use chan_base::Memory;
use chan_syntax::{Ident, Limit, Part, Relation, Term};
use std::alloc::Global;
use std::collections::BTreeMap;

/// How often a term counts each of its names, and its constant.
#[derive(Drop)]
struct Sums {
    counts: BTreeMap<Ident, i128>,
    constant: i128,
}

fn fits(sum: i128) -> bool
    ensures { result ≡ normal.fits sum }
{
    -9223372036854775808 <= sum && sum <= 9223372036854775807
}

fn difference_fits(left: i128, right: i128) -> bool
    ensures { result ≡ normal.fits (left -ℤ right) }
{
    match left.checked_sub(right) {
        None => false,
        Some(difference) => fits(difference),
    }
}

#[tactic(auto, unfolding(crate::specs::Sums::count_in))]
fn count(sums: &Sums, name: &Ident) -> i128
    ensures { result ≡ count_in sums.now name.now }
{
    match sums.counts.get(name) {
        None => 0,
        Some(sum) => *sum,
    }
}

fn constant_fits(sums: &Sums) -> bool
    ensures { result ≡ normal.fits sums.now.constant }
{
    fits(sums.constant)
}

fn constants_fit(left: &Sums, right: &Sums) -> bool
    ensures { result ≡ normal.fits (left.now.constant -ℤ right.now.constant) }
{
    difference_fits(left.constant, right.constant)
}

fn strict_constants_fit(left: &Sums, right: &Sums) -> bool
    requires { unsigned_abs left.now.constant + 1 < 2 ^ 127 }
    ensures { result ≡ normal.fits ((left.now.constant +ℤ pos 1) -ℤ right.now.constant) }
{
    difference_fits(left.constant + 1, right.constant)
}

fn add_constant(sums: &mut Sums, part: &Part)
    requires { unsigned_abs sums.old.constant + 2 ^ 63 < 2 ^ 127 }
    ensures counts { sums.new.counts ≡ sums.old.counts }
    ensures constant { sums.new.constant ≡ sums.old.constant +ℤ times_of (part_of part.now) }
    ensures bound { unsigned_abs (times_of (part_of part.now)) ≤ 2 ^ 63 }
{
    sums.constant += part.times();
}

fn added(sums: &Sums, name: &Ident, part: &Part) -> i128
    requires { unsigned_abs (count_in sums.now name.now) + 2 ^ 63 < 2 ^ 127 }
    ensures value { result ≡ count_in sums.now name.now +ℤ times_of (part_of part.now) }
    ensures bound { unsigned_abs (times_of (part_of part.now)) ≤ 2 ^ 63 }
{
    count(sums, name) + part.times()
}

fn add(sums: &mut Sums, part: &Part) -> Result<(), Memory>
    requires { IsWithin (2 ^ 127 - 2 ^ 64) sums.old }
    ensures adds { OnOk result (Adds (part_of part.now) sums.old sums.new) }
    ensures within { OnOk result ((size : ℕ) → IsWithin size sums.old → IsWithin (size + 2 ^ 63) sums.new) }
{
    match &part.name {
        None => {
            add_constant(sums, part);
            Ok(())
        }
        Some(name) => {
            let key = name.copy()?;
            let sum = added(sums, name, part);
            sums.counts.insert(key, sum)?;
            Ok(())
        }
    }
}

#[tactic(auto, unfolding(crate::specs::Sums::count_in))]
fn no_sums(alloc: Global) -> Sums
    ensures counts { (x : Ident) → count_in result x ≡ pos 0 }
    ensures constant { result.constant ≡ pos 0 }
{
    Sums {
        counts: BTreeMap::new(alloc),
        constant: 0,
    }
}

fn sums_of(alloc: Global, parts: &[Part]) -> Result<Sums, Memory>
    ensures sums { IfOk result (IsSumOf (map part_of parts.now)) }
    ensures within { IfOk result (IsWithin (2 ^ 127 - 2 ^ 63)) }
{
    let mut sums = no_sums(alloc);
    for part in parts {
        add(&mut sums, part)?;
    }
    Ok(sums)
}

fn is_count_narrow(sums: &Sums, part: &Part) -> bool
    ensures { result ≡ spec.name_fits (count_in sums.now) part.now.name }
{
    match &part.name {
        None => true,
        Some(name) => fits(count(sums, name)),
    }
}

#[tactic(auto, using(crate::proofs::Rows::narrow_rules))]
fn are_narrow(sums: &Sums, parts: &[Part]) -> bool
    ensures { result ≡ spec.are_narrow (count_in sums.now) (map part_of parts.now) }
{
    for part in parts {
        if !is_count_narrow(sums, part) {
            return false;
        }
    }
    true
}

#[tactic(auto, unfolding(crate::specs::Sums::difference_in))]
fn is_difference_narrow(left: &Sums, right: &Sums, part: &Part) -> bool
    ensures { result ≡ spec.name_fits (difference_in left.now right.now) part.now.name }
{
    match &part.name {
        None => true,
        Some(name) => difference_fits(count(left, name), count(right, name)),
    }
}

#[tactic(auto, using(crate::proofs::Rows::narrow_rules))]
fn are_differences_narrow(left: &Sums, right: &Sums, parts: &[Part]) -> bool
    ensures { result ≡ spec.are_narrow (difference_in left.now right.now) (map part_of parts.now) }
{
    for part in parts {
        if !is_difference_narrow(left, right, part) {
            return false;
        }
    }
    true
}

fn are_counts_narrow(left: &Sums, right: &Sums, a: &Term, b: &Term) -> bool
    ensures { result ≡ (spec.are_narrow (difference_in left.now right.now) (term_of a.now) && spec.are_narrow (difference_in left.now right.now) (term_of b.now)) }
{
    are_differences_narrow(left, right, a.parts.as_slice())
        && are_differences_narrow(left, right, b.parts.as_slice())
}

/// Whether 64 bits hold the numbers of the first term less the second.
fn is_row_narrow(left: &Sums, right: &Sums, a: &Term, b: &Term) -> bool
    requires left { IsSumOf (term_of a.now) left.now }
    requires right { IsSumOf (term_of b.now) right.now }
    ensures { result ≡ spec.is_narrow (less (term_of a.now) (term_of b.now)) }
{
    are_counts_narrow(left, right, a, b) && constants_fit(left, right)
}

/// Whether 64 bits hold these numbers where the constant is one more.
fn is_strict_row_narrow(left: &Sums, right: &Sums, a: &Term, b: &Term) -> bool
    requires left { IsSumOf (term_of a.now) left.now }
    requires right { IsSumOf (term_of b.now) right.now }
    requires within { IsWithin (2 ^ 127 - 2 ^ 63) left.now }
    ensures { result ≡ spec.is_narrow (less (term_of a.now) (term_of b.now) ++ one ∷ []) }
{
    are_counts_narrow(left, right, a, b) && strict_constants_fit(left, right)
}

fn term_sums(alloc: Global, term: &Term) -> Result<Sums, Memory>
    ensures sums { IfOk result (IsSumOf (term_of term.now)) }
    ensures within { IfOk result (IsWithin (2 ^ 127 - 2 ^ 63)) }
{
    let sums = sums_of(alloc, term.parts.as_slice())?;
    Ok(sums)
}

fn is_sum_narrow(sums: &Sums, term: &Term) -> bool
    requires { IsSumOf (term_of term.now) sums.now }
    ensures { result ≡ spec.is_narrow (term_of term.now) }
{
    are_narrow(sums, term.parts.as_slice()) && constant_fits(sums)
}

/// Whether 64 bits hold each number of the term's normal form.
pub fn is_narrow(alloc: Global, term: &Term) -> Result<bool, Memory>
    ensures { IfOk result (λ fits. fits ≡ spec.is_narrow (term_of term.now)) }
{
    let sums = term_sums(alloc, term)?;
    Ok(is_sum_narrow(&sums, term))
}

fn are_rows_narrow(limit: &Limit, left: &Sums, right: &Sums) -> bool
    requires left { IsSumOf (term_of limit.now.left) left.now }
    requires right { IsSumOf (term_of limit.now.right) right.now }
    requires within { IsWithin (2 ^ 127 - 2 ^ 63) left.now }
    ensures { result ≡ spec.is_narrow_limit (limit_of limit.now) }
{
    match limit.relation {
        Relation::AtMost => is_row_narrow(left, right, &limit.left, &limit.right),
        Relation::Less => is_strict_row_narrow(left, right, &limit.left, &limit.right),
        Relation::Same => {
            is_row_narrow(left, right, &limit.left, &limit.right)
                && is_row_narrow(right, left, &limit.right, &limit.left)
        }
    }
}

/// Whether 64 bits hold each number of the limit's rows.
pub fn is_narrow_limit(alloc: Global, limit: &Limit) -> Result<bool, Memory>
    ensures { IfOk result (λ fits. fits ≡ spec.is_narrow_limit (limit_of limit.now)) }
{
    let left = term_sums(alloc, &limit.left)?;
    let right = term_sums(alloc, &limit.right)?;
    Ok(are_rows_narrow(limit, &left, &right))
}
