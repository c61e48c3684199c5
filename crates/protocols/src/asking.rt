//! What a letter of a path asks for, and whether it is shown.
ghost use Rattle.std.specs.Prelude.{◌≡◌, ◌++◌, ◌∷◌, [], suc, pos, int_le, true, false, All, length, map, Some, Ok, Err, OnOk, IfOk, IfErr};
ghost use Rattle.std.specs.List.{list_all};
ghost use Rattle.std.specs.Ordering.{int_eq};
ghost use Rattle.farkas_check.specs.Rows.{IsNarrow};
ghost use Rattle.linear_forms.specs.Normal.{not_int, row_fits};
ghost use Rattle.linear_forms.specs.Terms.{negated, less, one, put_of, normal_form};
ghost use Rattle.chan_syntax.specs.Bounds.{IsBounded};
ghost use Rattle.chan_syntax.specs.Reading.{part_of, term_of, letter_of, cert_of};
ghost use Rattle.outline_language.specs.Contexts.{asks_nothing};
ghost use Rattle.outline_rules.specs.Naming.{int_names_of, int_var_of};
ghost use Rattle.substitution.specs.declared.faults.SubstFault.TheVariants as cause;
ghost use Rattle.protocols.specs.Unfolding as spec;
ghost use Rattle.protocols.specs.Unfolding.{NamesOnly};
ghost use Rattle.protocols.specs.FaultsOf.{IsFault};
ghost use Rattle.protocols.specs.Settings.{setting_of, IsReady, FitsAs, asked_as, IsFormedAs};

use crate::faults::UnfoldFault;
use chan_base::Memory;
use chan_syntax::{
    Certs, Idents, Letter, Part, Protos, Term, TermParts, Terms, WrittenCert, copy_names,
};
use farkas_check::{Row, Rows, holds};
use outline_rules::{IntNames, IntVar, IntVars, TermFault, normal};
use sqlite_items::Items;
use std::alloc::Global;
use substitution::{SubstFault, subst_terms};

/// Under what an end is followed.
#[derive(Clone, Copy)]
pub(crate) struct Setting<'a> {
    pub protos: &'a Protos,
    pub ints: &'a Idents,
    pub hyps: &'a Rows,
    pub certs: &'a Certs,
}

/// The parameters, each with the argument at its place.
fn arguments(alloc: Global, params: &Idents, args: &Terms) -> Result<IntVars, Memory>
    requires { length args.now ≡ length params.now }
    ensures { IfOk result (λ vars. map int_var_of vars ≡ put_of params.now (map term_of args.now)) }
{
    let mut vars = Items::new(alloc);
    for index in 0..params.len() {
        vars.push(IntVar {
            name: params.as_slice()[index].copy()?,
            term: args.as_slice()[index].copy(alloc)?,
        })?;
    }
    Ok(vars)
}

fn push_all(parts: &mut TermParts, term: &Term) -> Result<(), Memory>
    ensures { OnOk result (map part_of parts.new ≡ map part_of parts.old ++ term_of term.now) }
{
    for part in term.parts.as_slice() {
        parts.push(part.copy()?)?;
    }
    Ok(())
}

fn turned(part: &Part) -> Result<Part, Memory>
    ensures { IfOk result (λ turned. part_of turned ≡ negated (part_of part.now)) }
{
    let mut turned = part.copy()?;
    turned.negative = !turned.negative;
    Ok(turned)
}

fn push_turned(parts: &mut TermParts, term: &Term) -> Result<(), Memory>
    ensures { OnOk result (map part_of parts.new ≡ map part_of parts.old ++ map negated (term_of term.now)) }
{
    for part in term.parts.as_slice() {
        parts.push(turned(part)?)?;
    }
    Ok(())
}

fn push_less(parts: &mut TermParts, left: &Term, right: &Term) -> Result<(), Memory>
    ensures { OnOk result (map part_of parts.new ≡ map part_of parts.old ++ less (term_of left.now) (term_of right.now)) }
{
    push_all(parts, left)?;
    push_turned(parts, right)?;
    Ok(())
}

fn one() -> Part
    ensures { part_of result ≡ one }
{
    Part {
        negative: false,
        factor: 1,
        name: None,
        name_span: None,
    }
}

/// What a letter asks to be at most 0.
fn asked_term(alloc: Global, letter: Letter, left: &Term, right: &Term) -> Result<Term, Memory>
    ensures { IfOk result (λ term. term_of term ≡ spec.asked_term (letter_of letter) (term_of left.now) (term_of right.now)) }
{
    let mut parts = Items::new(alloc);
    match letter {
        Letter::Left => push_less(&mut parts, left, right)?,
        Letter::Right => {
            parts.push(one())?;
            push_less(&mut parts, right, left)?;
        }
    }
    Ok(Term {
        parts,
        span: left.span,
    })
}

/// The integers of a setting, and the parameters with their arguments.
fn context_of(
    alloc: Global,
    setting: &Setting<'_>,
    params: &Idents,
    args: &Terms,
) -> Result<IntNames, Memory>
    requires { length args.now ≡ length params.now }
    ensures { IfOk result (λ names. int_names_of names ≡ record { ints = setting.now.ints.now; vars = put_of params.now (map term_of args.now) }) }
{
    let ints = copy_names(alloc, setting.ints)?;
    let vars = arguments(alloc, params, args)?;
    Ok(IntNames { ints, vars })
}

/// The row of a term whose names are integers.
fn row_of(alloc: Global, term: &Term, names: &IntNames) -> Result<Row, SubstFault>
    requires { not_int (int_names_of names.now) (term_of term.now) ≡ None }
    ensures row { IfOk result (λ row. row ≡ normal_form (int_names_of names.now) (term_of term.now)) }
    ensures fits { IfOk result (λ row. row_fits row ≡ true) }
    ensures err { IfErr result (λ fault. fault ≡ cause.TooLarge → row_fits (normal_form (int_names_of names.now) (term_of term.now)) ≡ false) }
{
    match normal(alloc, term, names) {
        Ok(row) => Ok(row),
        Err(TermFault::TooLarge) => Err(SubstFault::TooLarge),
        Err(TermFault::NotInt(_)) => unreachable!(),
        Err(TermFault::Memory) => Err(SubstFault::Memory),
    }
}

/// The row that a letter asks for.
fn asked_row(
    alloc: Global,
    setting: &Setting<'_>,
    params: &Idents,
    args: &Terms,
    letter: Letter,
    left: &Term,
    right: &Term,
) -> Result<Row, SubstFault>
    requires arity { length args.now ≡ length params.now }
    requires left { NamesOnly params.now (term_of left.now) }
    requires right { NamesOnly params.now (term_of right.now) }
    ensures row { IfOk result (λ row. row ≡ asked_as setting.now params.now args.now letter left.now right.now) }
    ensures fits { IfOk result (λ row. row_fits row ≡ true) }
    ensures err { IfErr result (λ why. why ≡ cause.TooLarge → row_fits (asked_as setting.now params.now args.now letter left.now right.now) ≡ false) }
{
    let names = context_of(alloc, setting, params, args)?;
    let term = asked_term(alloc, letter, left, right)?;
    row_of(alloc, &term, &names)
}

fn both(alloc: Global, left: &Term, right: &Term) -> Result<Terms, Memory>
    ensures { IfOk result (λ terms. map term_of terms ≡ term_of left.now ∷ term_of right.now ∷ []) }
{
    let mut terms = Items::new(alloc);
    terms.push(left.copy(alloc)?)?;
    terms.push(right.copy(alloc)?)?;
    Ok(terms)
}

/// Forms both terms of an equation, in which arguments stand for parameters.
fn form_terms(
    alloc: Global,
    params: &Idents,
    args: &Terms,
    left: &Term,
    right: &Term,
) -> Result<(), SubstFault>
    requires { length args.now ≡ length params.now }
    ensures left { OnOk result (FitsAs params.now args.now left.now) }
    ensures right { OnOk result (FitsAs params.now args.now right.now) }
    ensures err { IfErr result (λ fault. fault ≡ cause.TooLarge → FitsAs params.now args.now left.now → FitsAs params.now args.now right.now → ⊥) }
{
    let terms = both(alloc, left, right)?;
    subst_terms(alloc, &terms, params, args)?;
    Ok(())
}

/// The row that a letter asks for, after the terms of its equation are formed.
pub(crate) fn formed_row(
    alloc: Global,
    setting: &Setting<'_>,
    params: &Idents,
    args: &Terms,
    letter: Letter,
    left: &Term,
    right: &Term,
) -> Result<Row, SubstFault>
    requires arity { length args.now ≡ length params.now }
    requires left { NamesOnly params.now (term_of left.now) }
    requires right { NamesOnly params.now (term_of right.now) }
    ensures row { IfOk result (λ row. row ≡ asked_as setting.now params.now args.now letter left.now right.now) }
    ensures formed { OnOk result (IsFormedAs setting.now params.now args.now letter left.now right.now) }
    ensures err { IfErr result (λ fault. fault ≡ cause.TooLarge → IsFormedAs setting.now params.now args.now letter left.now right.now → ⊥) }
{
    form_terms(alloc, params, args, left, right)?;
    let row = asked_row(alloc, setting, params, args, letter, left, right)?;
    Ok(row)
}

fn are_zero(numbers: &[i64]) -> bool
    ensures { result ≡ list_all (λ c. int_eq c (pos 0)) numbers.now }
{
    numbers.iter().all(|number| *number == 0)
}

fn is_low(number: i64) -> bool
    ensures { result ≡ int_le number (pos 0) }
{
    number <= 0
}

/// Whether a row is a constant at most 0.
fn asks_nothing(row: &Row) -> bool
    ensures { result ≡ asks_nothing row.now }
{
    are_zero(row.coefficients.as_slice()) && is_low(row.constant)
}

fn one_more(used: u32) -> Result<u32, Memory>
    ensures { IfOk result (λ more. more ≡ suc used) }
{
    used.checked_add(1).ok_or(Memory)
}

/// Tries a certificate, which has this number, on a row: how many are taken then.
fn try_cert(
    alloc: Global,
    hyps: &Rows,
    written: &WrittenCert,
    used: u32,
    row: &Row,
) -> Result<u32, UnfoldFault>
    requires hypotheses { All IsNarrow hyps.now }
    requires bounded { IsBounded written.now }
    requires row { IsNarrow row.now }
    ensures ok { IfOk result (λ more. spec.shown hyps.now row.now used (Some (cert_of written.now)) ≡ Ok more) }
    ensures err { IfErr result (IsFault (λ fault. spec.shown hyps.now row.now used (Some (cert_of written.now)) ≡ Err fault)) }
{
    match holds(&written.cert(alloc)?, hyps, row) {
        Ok(()) => {
            let more = one_more(used)?;
            Ok(more)
        }
        Err(fault) => Err(UnfoldFault::BranchNotProved(used, fault)),
    }
}

/// Tries the next certificate on a row, unless the row asks for nothing: how many are taken then.
pub(crate) fn oblige(
    alloc: Global,
    setting: &Setting<'_>,
    used: u32,
    row: &Row,
) -> Result<u32, UnfoldFault>
    requires ready { IsReady setting.now }
    requires row { IsNarrow row.now }
    ensures ok { IfOk result (λ more. spec.obligation (setting_of setting.now) used row.now ≡ Ok more) }
    ensures err { IfErr result (IsFault (λ fault. spec.obligation (setting_of setting.now) used row.now ≡ Err fault)) }
{
    if asks_nothing(row) {
        return Ok(used);
    }
    match setting.certs.as_slice().get(used as usize) {
        Some(written) => try_cert(alloc, setting.hyps, written, used, row),
        None => Err(UnfoldFault::CertCount),
    }
}
