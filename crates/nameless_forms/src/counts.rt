//! How often a sum counts each variable.
ghost use Rattle.std.specs.Prelude.{◌≡◌, ℕ, ◌+◌, ◌≤◌, ◌^◌, pos, ◌*ℤ◌, unsigned_abs, OnOk};
ghost use Rattle.std.specs.Ordering.{int_eq};
ghost use Rattle.outline_language.specs.LinearForms.{add_multiple};
ghost use Rattle.outline_language.specs.Canonical.{AreCanonical};
ghost use Rattle.nameless_forms.specs.Counts.{count_in, others_in};
ghost use Rattle.nameless_forms.specs.Sizes.{AreWithin};

use crate::variables::Var;
use chan_base::Memory;
use std::collections::BTreeMap;
use wide_sums::Wide;

pub(crate) type Counts = BTreeMap<Var, Wide>;

/// Takes the count of the variable out.
fn take_count(counts: &mut Counts, var: Var) -> Wide
    ensures count { result ≡ count_in var counts.old.entries }
    ensures others { counts.new.entries ≡ others_in var counts.old.entries }
{
    match counts.remove(&var) {
        Some(count) => count,
        None => Wide::zero(),
    }
}

fn is_zero(count: &Wide) -> bool
    ensures { result ≡ int_eq count.now (pos 0) }
{
    count.to_i64() == Some(0)
}

/// Adds a product to the count of the variable.
pub(crate) fn add_count(
    counts: &mut Counts,
    var: Var,
    weight: i128,
    times: i128,
) -> Result<(), Memory>
    requires canonical { AreCanonical counts.old.entries }
    requires weight { unsigned_abs weight ≤ 2 ^ 63 }
    requires times { unsigned_abs times ≤ 2 ^ 63 }
    requires within { AreWithin (2 ^ 247) counts.old.entries }
    ensures added { OnOk result (counts.new.entries ≡ add_multiple var (weight *ℤ times) counts.old.entries) }
    ensures canonical { AreCanonical counts.new.entries }
    ensures within { (size : ℕ) → AreWithin size counts.old.entries → OnOk result (AreWithin (size + 2 ^ 126) counts.new.entries) }
{
    let mut count = take_count(counts, var);
    count.add_product(weight, times);
    if !is_zero(&count) {
        counts.insert(var, count)?;
    }
    Ok(())
}
