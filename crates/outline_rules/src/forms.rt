//! Normal forms of terms.
ghost use Rattle.std.specs.Prelude.{◌≡◌, map, Ok, MatchResult, IfOk, IfErr};
ghost use Rattle.std.specs.Option.{option_copied};
ghost use Rattle.chan_syntax.specs.Reading.{part_of, term_of};
ghost use Rattle.linear_forms.specs.Normal as form;
ghost use Rattle.linear_forms.specs.Normal.{IsNumberOf};
ghost use Rattle.outline_rules.specs.declared.naming.TermFault.TheVariants as cause;
ghost use Rattle.outline_rules.specs.Naming.{int_names_of, IsFaultOf};
ghost use Rattle.outline_rules.specs.Sums.{row_in};

use crate::naming::{IntNames, TermFault, is_int};
use crate::sums::{Sums, sums_of};
use chan_syntax::{Ident, Part, Term};
use farkas_check::Row;
use sqlite_items::Items;
use std::alloc::Global;
use wide_sums::Wide;

fn first_unknown<'a>(names: &IntNames, parts: &'a [Part]) -> Option<&'a Ident>
    ensures { option_copied result ≡ form.not_int (int_names_of names.now) (map part_of parts.now) }
{
    for part in parts {
        if let Some(name) = &part.name {
            if !is_int(names, name) {
                return Some(name);
            }
        }
    }
    None
}

fn number(sum: &Wide) -> Result<i64, TermFault>
    ensures { IsNumberOf cause.TooLarge sum.now result }
{
    sum.to_i64().ok_or(TermFault::TooLarge)
}

fn row_of(alloc: Global, sums: &Sums) -> Result<Row, TermFault>
    ensures { MatchResult result (λ row. form.within_64_bits (row_in sums.now) ≡ Ok row) (IsFaultOf (form.within_64_bits (row_in sums.now))) }
{
    let mut coefficients = Items::new(alloc);
    for sum in sums.coefficients.as_slice() {
        coefficients.push(number(sum)?)?;
    }
    let constant = number(&sums.constant)?;
    Ok(Row {
        coefficients,
        constant,
    })
}

/// The row that equals the term in the context.
pub fn normal(alloc: Global, term: &Term, context: &IntNames) -> Result<Row, TermFault>
    ensures ok { IfOk result (λ row. form.normal_of (int_names_of context.now) (term_of term.now) ≡ Ok row) }
    ensures err { IfErr result (IsFaultOf (form.normal_of (int_names_of context.now) (term_of term.now))) }
{
    let parts = term.parts.as_slice();
    match first_unknown(context, parts) {
        Some(name) => Err(TermFault::NotInt(name.copy()?)),
        None => row_of(alloc, &sums_of(alloc, context, parts)?),
    }
}
