//! Sums as terms in normal form.
ghost use Rattle.std.specs.Prelude.{◌≡◌, ◌++◌, true, false, List, All, map, flat_map, Ok, IfOk, IfErr, OnOk};
ghost use Rattle.std.specs.List.{list_all};
ghost use Rattle.core_language.specs.Terms.{Term as Sum};
ghost use Rattle.chan_syntax.specs.Reading.{part_of, term_of};
ghost use Rattle.linear_forms.specs.Normal.{fits, IsNumberOf};
ghost use Rattle.linear_forms.specs.NormalTerms.{Counted, IsNormal, IsSameSum, NumbersFit, signed, named_parts, spelled, counted_once, nonzero};
ghost use Rattle.substitution.specs.declared.faults.SubstFault.TheVariants as cause;
ghost use Rattle.substitution.specs.Places.{Token, StandAmong};
ghost use Rattle.substitution.specs.Sums.{HasSums, HasPlaces, IsWithNumber, sums_in, entry_fits, where_of, where_in};

use crate::faults::SubstFault;
use crate::summands::{Summand, Summands};
use chan_base::Span;
use chan_syntax::{Ident, Part, Term, TermParts};
use sqlite_items::Items;
use std::alloc::Global;
use std::collections::BTreeMap;
use wide_sums::Wide;

fn number(sum: &Wide) -> Result<i64, SubstFault>
    ensures { IsNumberOf cause.TooLarge sum.now result }
{
    sum.to_i64().ok_or(SubstFault::TooLarge)
}

fn part(name: Option<Ident>, name_span: Option<Span>, number: i64) -> Part
    ensures value { part_of result ≡ signed name number }
    ensures place { where_of result ≡ (name, name_span) }
{
    if number < 0 && number > i64::MIN {
        return Part {
            negative: true,
            factor: -number,
            name,
            name_span,
        };
    }
    Part {
        negative: false,
        factor: number,
        name,
        name_span,
    }
}

/// A name and its sum, which is left out where it is 0.
fn push_named(parts: &mut TermParts, name: &Ident, summand: &Summand) -> Result<(), SubstFault>
    ensures ok { OnOk result (map part_of parts.new ≡ map part_of parts.old ++ named_parts (counted_once (name.now, summand.now.sum))) }
    ensures fits { OnOk result (fits summand.now.sum ≡ true) }
    ensures places { OnOk result (map where_of parts.new ≡ map where_of parts.old ++ where_in (name.now, summand.now)) }
    ensures err { IfErr result (λ fault. fault ≡ cause.TooLarge → fits summand.now.sum ≡ false) }
{
    let number = number(&summand.sum)?;
    if number != 0 {
        let name = name.copy()?;
        parts.push(part(Some(name), summand.span, number))?;
    }
    Ok(())
}

fn named(alloc: Global, sums: &BTreeMap<Ident, Summand>) -> Result<TermParts, SubstFault>
    ensures ok { IfOk result (λ parts. map part_of parts ≡ named_parts (nonzero (sums_in sums.now.entries))) }
    ensures fits { OnOk result (list_all entry_fits sums.now.entries ≡ true) }
    ensures places { IfOk result (λ parts. map where_of parts ≡ flat_map where_in sums.now.entries) }
    ensures err { IfErr result (λ fault. fault ≡ cause.TooLarge → list_all entry_fits sums.now.entries ≡ false) }
{
    let mut parts = Items::new(alloc);
    for (name, summand) in sums {
        push_named(&mut parts, name, summand)?;
    }
    Ok(parts)
}

/// The constant after the names, which is left out where it is 0 and there are names.
fn with_constant(parts: TermParts, sum: &Wide) -> Result<TermParts, SubstFault>
    ensures ok { IfOk result (λ all. (counts : List Counted) → map part_of parts ≡ named_parts counts → map part_of all ≡ spelled counts sum.now) }
    ensures fits { OnOk result (fits sum.now ≡ true) }
    ensures places { IfOk result (λ all. IsWithNumber (map where_of parts) (map where_of all)) }
    ensures err { IfErr result (λ fault. fault ≡ cause.TooLarge → fits sum.now ≡ false) }
{
    let mut all = parts;
    let constant = number(sum)?;
    if constant != 0 || all.is_empty() {
        all.push(part(None, None, constant))?;
        return Ok(all);
    }
    Ok(all)
}

impl Summands {
    /// The term in normal form that has these sums.
    pub fn term(&self, alloc: Global, span: Span) -> Result<Term, SubstFault>
        ensures same { IfOk result (λ term. (sum : Sum) → HasSums self.now sum → IsSameSum (term_of term) sum) }
        ensures normal { IfOk result (λ term. IsNormal (term_of term)) }
        ensures fits { OnOk result ((sum : Sum) → HasSums self.now sum → NumbersFit sum) }
        ensures span { IfOk result (λ term. term.span ≡ span) }
        ensures places { IfOk result (λ term. (tokens : List Token) → HasPlaces self.now tokens → StandAmong tokens term.parts) }
        ensures err { IfErr result (λ fault. fault ≡ cause.TooLarge → (sum : Sum) → HasSums self.now sum → NumbersFit sum → ⊥) }
    {
        let _ordered = self.named.len();
        let parts = named(alloc, &self.named)?;
        let all = with_constant(parts, &self.constant)?;
        Ok(Term { parts: all, span })
    }
}
