//! What statements name: values, proofs, patterns and paths.
#![tactic(auto, using(crate::proofs::Firsts::first_rules, std::proofs::lemmas::Grind::common_steps), unfolding(crate::specs::Operands::supplies_faults, crate::specs::Operands::divisor_faults, crate::specs::Operands::mention_faults, crate::specs::Operands::mentions_faults, crate::specs::Operands::cert_faults, crate::specs::Operands::certs_faults, crate::specs::Operands::proof_faults, crate::specs::Operands::path_faults))]

ghost use Rattle.std.specs.Prelude.{◌≡◌, OnOk};
ghost use Rattle.form_faults.specs.Faults.{least};
ghost use Rattle.form_faults.specs.Scopes.{bind_all, twice_all};
ghost use Rattle.form_faults.specs.Operands as spec;

use crate::binding::bind_names;
use crate::faults::{Ill, IllKind, note, note_number};
use crate::scopes::{Scope, bind_name};
use crate::sorts::{Naming, Sort};
use crate::terms::{check_term, check_terms};
use chan_base::{Memory, Span};
use chan_syntax::{Pat, Path, Proof, Supply, WrittenCert, WrittenMention};
use std::alloc::Global;

/// The greatest number of a certificate.
const GREATEST: u64 = 2147483647;

#[cycle(supplies)]
#[tactic(auto, using(crate::proofs::Firsts::first_rules, std::proofs::lemmas::Grind::common_steps, crate::proofs::Shapes::supplies))]
pub fn check_supply(
    alloc: Global,
    first: &mut Option<Ill>,
    scope: &Scope,
    supply: &Supply,
) -> Result<(), Memory>
    ensures { OnOk result (first.new ≡ least first.old (spec.supply_faults scope.now supply.now)) }
{
    match supply {
        Supply::Unit => Ok(()),
        Supply::Pair(left, right) => {
            check_supply(alloc, first, scope, left.get())?;
            check_supply(alloc, first, scope, right.get())
        }
        Supply::Arm(_, value) => check_supply(alloc, first, scope, value.get()),
        Supply::Sum(term) => check_term(alloc, first, scope, Naming::Variables, term),
    }
}

pub fn check_supplies(
    alloc: Global,
    first: &mut Option<Ill>,
    scope: &Scope,
    supplies: &[Supply],
) -> Result<(), Memory>
    ensures { OnOk result (first.new ≡ least first.old (spec.supplies_faults scope.now supplies.now)) }
{
    for supply in supplies {
        check_supply(alloc, first, scope, supply)?;
    }
    Ok(())
}

fn check_divisor(alloc: Global, first: &mut Option<Ill>, divisor: u64, span: Span)
    ensures { first.new ≡ least first.old (spec.divisor_faults divisor span) }
{
    note_number(alloc, first, !(divisor == 0 || GREATEST < divisor), span);
}

fn check_mention(alloc: Global, first: &mut Option<Ill>, mention: &WrittenMention)
    ensures { first.new ≡ least first.old (spec.mention_faults mention.now) }
{
    note_number(
        alloc,
        first,
        mention.factor <= GREATEST,
        mention.factor_span,
    );
    note_number(alloc, first, mention.index <= GREATEST, mention.index_span);
}

fn check_mentions(alloc: Global, first: &mut Option<Ill>, mentions: &[WrittenMention])
    ensures { first.new ≡ least first.old (spec.mentions_faults mentions.now) }
{
    for mention in mentions {
        check_mention(alloc, first, mention);
    }
}

#[tactic(auto, using(crate::proofs::Firsts::first_rules, std::proofs::lemmas::Grind::common_steps), unfolding(crate::specs::Faults::past, crate::specs::Operands::mentions_past))]
fn check_count(alloc: Global, first: &mut Option<Ill>, mentions: &[WrittenMention])
    ensures { first.new ≡ least first.old (spec.mentions_past mentions.now) }
{
    match mentions.get(256) {
        None => {}
        Some(mention) => note(alloc, first, IllKind::TooMany, mention.span),
    }
}

fn check_cert(alloc: Global, first: &mut Option<Ill>, cert: &WrittenCert)
    ensures { first.new ≡ least first.old (spec.cert_faults cert.now) }
{
    let mentions = cert.mentions.as_slice();
    check_divisor(
        alloc,
        first,
        cert.divisor,
        cert.divisor_span.unwrap_or(cert.span),
    );
    check_mentions(alloc, first, mentions);
    check_count(alloc, first, mentions);
}

fn check_certs(alloc: Global, first: &mut Option<Ill>, certs: &[WrittenCert])
    ensures { first.new ≡ least first.old (spec.certs_faults certs.now) }
{
    for cert in certs {
        check_cert(alloc, first, cert);
    }
}

/// The instances and certificates beside a statement.
pub fn check_proof(
    alloc: Global,
    first: &mut Option<Ill>,
    scope: &Scope,
    proof: &Proof,
) -> Result<(), Memory>
    ensures { OnOk result (first.new ≡ least first.old (spec.proof_faults scope.now proof.now)) }
{
    check_terms(
        alloc,
        first,
        scope,
        Naming::Either,
        proof.instances.as_slice(),
    )?;
    check_certs(alloc, first, proof.certs.as_slice());
    Ok(())
}

/// TooMany at a path of more than 16 letters.
pub fn check_path(
    alloc: Global,
    first: &mut Option<Ill>,
    path: &Path,
    span: Option<Span>,
    otherwise: Span,
)
    ensures { first.new ≡ least first.old (spec.path_faults path.now span otherwise) }
{
    if path.len() > 16 {
        note(alloc, first, IllKind::TooMany, span.unwrap_or(otherwise));
    }
}

/// Binds the name of a pattern, and then those of its integer variables.
#[tactic(auto, using(crate::proofs::Firsts::first_rules, std::proofs::lemmas::Grind::common_steps, crate::proofs::Binders::binder_rules))]
pub fn bind_pat(
    alloc: Global,
    first: &mut Option<Ill>,
    scope: &mut Scope,
    pat: &Pat,
) -> Result<(), Memory>
    ensures first { OnOk result (first.new ≡ least first.old (twice_all scope.old (spec.pat_binders pat.now))) }
    ensures scope { OnOk result (scope.new ≡ bind_all scope.old (spec.pat_binders pat.now)) }
{
    bind_name(
        alloc,
        first,
        scope,
        &pat.name,
        Sort::Variable,
        pat.name_span,
    )?;
    bind_names(
        alloc,
        first,
        scope,
        Sort::Integer,
        pat.names.as_slice(),
        pat.names_spans.as_slice(),
    )
}
