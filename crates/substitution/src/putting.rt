//! Terms with terms put in, in normal form.
ghost use Rattle.std.specs.Prelude.{◌≡◌, ◌+◌, ◌≤◌, ◌<◌, ◌^◌, ◌++◌, ◌∷◌, [], ℕ, ◌*ℤ◌, unsigned_abs, List, map, flat_map, Some, None, OnOk, IfOk, IfErr};
ghost use Rattle.core_language.specs.Terms.{Term as Sum};
ghost use Rattle.chan_syntax.specs.Reading.{part_of, term_of};
ghost use Rattle.linear_forms.specs.Terms.{times_of};
ghost use Rattle.linear_forms.specs.Replacing.{counting, scaled, replaced_part, replaced};
ghost use Rattle.substitution.specs.Places.{token_of, part_put};
ghost use Rattle.substitution.specs.Sums.{HasSums, HasPlaces, Adds, Meets, IsWithin};
ghost use Rattle.substitution.specs.Likeness.{name_put, tokens_put};
ghost use Rattle.substitution.specs.Scopes.{put_in, before_of, after_of};

use crate::scope::{Binder, Put, new_name, put_named};
use crate::summands::Summands;
use chan_base::Memory;
use chan_syntax::{Ident, Part};
use std::alloc::Global;

/// Adds a part some times.
fn add_part(sums: &mut Summands, weight: i128, part: &Part) -> Result<(), Memory>
    requires weight { unsigned_abs weight ≤ 2 ^ 63 }
    requires within { IsWithin (2 ^ 247) sums.old }
    ensures sums { OnOk result (Adds sums.old sums.new (counting (weight *ℤ times_of (part_of part.now)) part.now.name ∷ [])) }
    ensures within { OnOk result ((size : ℕ) → IsWithin size sums.old → IsWithin (size + 2 ^ 126) sums.new) }
    ensures places { OnOk result (Meets sums.old sums.new (token_of part.now)) }
{
    match &part.name {
        Some(name) => sums.add_name(name, part.name_span, weight, part.times()),
        None => {
            sums.add_number(weight, part.times());
            Ok(())
        }
    }
}

/// Adds a term some times.
fn add_term(sums: &mut Summands, weight: i128, parts: &[Part]) -> Result<(), Memory>
    requires weight { unsigned_abs weight ≤ 2 ^ 63 }
    requires within { IsWithin (2 ^ 246) sums.old }
    ensures sums { OnOk result (Adds sums.old sums.new (scaled weight (map part_of parts.now))) }
    ensures within { OnOk result ((size : ℕ) → IsWithin size sums.old → IsWithin (size + 2 ^ 185) sums.new) }
    ensures places { OnOk result (Meets sums.old sums.new (flat_map token_of parts.now)) }
{
    for part in parts {
        add_part(sums, weight, part)?;
    }
    Ok(())
}

/// Adds a name as often as a part counts it.
fn add_once(sums: &mut Summands, part: &Part, name: &Ident) -> Result<(), Memory>
    requires { IsWithin (2 ^ 246) sums.old }
    ensures sums { OnOk result (Adds sums.old sums.new (counting (times_of (part_of part.now)) (Some name.now) ∷ [])) }
    ensures within { OnOk result ((size : ℕ) → IsWithin size sums.old → IsWithin (size + 2 ^ 185) sums.new) }
    ensures places { OnOk result (Meets sums.old sums.new (record { name = name.now; place = part.now.name_span } ∷ [])) }
{
    sums.add_name(name, part.name_span, 1, part.times())?;
    Ok(())
}

/// Adds what stands for a name, as often as a part counts it.
fn add_named(
    scope: &[Binder],
    put: &[Put],
    sums: &mut Summands,
    part: &Part,
    name: &Ident,
) -> Result<(), Memory>
    requires { IsWithin (2 ^ 246) sums.old }
    ensures sums { OnOk result (Adds sums.old sums.new (name_put put.now scope.now (times_of (part_of part.now)) name.now)) }
    ensures within { OnOk result ((size : ℕ) → IsWithin size sums.old → IsWithin (size + 2 ^ 185) sums.new) }
    ensures places { OnOk result (Meets sums.old sums.new (tokens_put put.now scope.now name.now part.now.name_span)) }
{
    match new_name(scope, name) {
        Some(made) => add_once(sums, part, made),
        None => match put_named(put, name) {
            Some(put) => add_term(sums, part.times(), put.term.parts.as_slice()),
            None => add_once(sums, part, name),
        },
    }
}

fn add_replaced(
    scope: &[Binder],
    put: &[Put],
    sums: &mut Summands,
    part: &Part,
) -> Result<(), Memory>
    requires { IsWithin (2 ^ 246) sums.old }
    ensures sums { OnOk result (Adds sums.old sums.new (replaced_part (before_of scope.now) (after_of scope.now) (map put_in put.now) (part_of part.now))) }
    ensures within { OnOk result ((size : ℕ) → IsWithin size sums.old → IsWithin (size + 2 ^ 185) sums.new) }
    ensures places { OnOk result (Meets sums.old sums.new (part_put (before_of scope.now) (after_of scope.now) put.now part.now)) }
{
    match &part.name {
        Some(name) => add_named(scope, put, sums, part, name),
        None => {
            sums.add_number(1, part.times());
            Ok(())
        }
    }
}

/// The sums of a term in which terms are put in and binders have their new names.
pub(crate) fn sums_of(
    alloc: Global,
    scope: &[Binder],
    put: &[Put],
    parts: &[Part],
) -> Result<Summands, Memory>
    ensures sums { IfOk result (λ sums. HasSums sums (replaced (before_of scope.now) (after_of scope.now) (map put_in put.now) (map part_of parts.now))) }
    ensures places { IfOk result (λ sums. HasPlaces sums (flat_map (part_put (before_of scope.now) (after_of scope.now) put.now) parts.now)) }
{
    let mut sums = Summands::new(alloc);
    for part in parts {
        add_replaced(scope, put, &mut sums, part)?;
    }
    Ok(sums)
}
