//! Cases of ends that are followed.
ghost use Rattle.std.specs.Prelude.{◌≡◌, ◌≤◌, All, length, IfOk};
ghost use Rattle.farkas_check.specs.Rows.{IsNarrow};
ghost use Rattle.chan_syntax.specs.Bounds.{IsBounded};
ghost use Rattle.chan_syntax.specs.Reading.{ref_of};
ghost use Rattle.protocols.specs.Unfolding.{HasArity};
ghost use Rattle.protocol_tests.specs.Examples.{examples};

use crate::examples::{NOWHERE, from, protos};
use crate::rows::is_told;
use chan_base::Memory;
use chan_syntax::Letter::{Left, Right};
use chan_syntax::{Certs, Ident, Letter, Path, Ref, WrittenCert, WrittenMention, WrittenMentions};
use farkas_check::{CertFault, Coefficients, Row, Rows};
use outline_rules::{IntNames, IntVars};
use protocols::{Head, UnfoldFault, Unfolded, unfold};
use sqlite_items::Items;
use std::alloc::Global;
use std::process::Abort;
use std::test::Fail;
use tree_texts::{push, push_number, push_res};

/// A certificate that mentions a hypothesis: whether its factor is negative, the factor, and the
/// hypothesis's number.
type Mentioned = (bool, u16, u16);

/// An end, where it is followed to, by which certificates, and the hypothesis.
type Way = (
    (bool, &'static [u8], (i64, i64)),
    &'static [Letter],
    &'static [Mentioned],
    (i64, i64),
);

/// A way, and the head that is found there, or the fault.
type Case = (Way, &'static [u8]);

fn cert(alloc: Global, mentioned: Mentioned) -> Result<WrittenCert, Memory>
    ensures { IfOk result IsBounded }
{
    let mention = WrittenMention {
        negative: mentioned.0,
        factor: u64::from(mentioned.1),
        factor_span: NOWHERE,
        index: u64::from(mentioned.2),
        index_span: NOWHERE,
        span: NOWHERE,
    };
    Ok(WrittenCert {
        divisor: 1,
        divisor_span: None,
        mentions: WrittenMentions::from_slice(alloc, &[mention])?,
        span: NOWHERE,
    })
}

fn certs(alloc: Global, all: &[Mentioned]) -> Result<Certs, Memory>
    ensures { IfOk result (All IsBounded) }
{
    let mut certs = Items::new(alloc);
    for mentioned in all {
        certs.push(cert(alloc, *mentioned)?)?;
    }
    Ok(certs)
}

/// The hypothesis that `factor*n + constant` is at most 0.
fn hypothesis(alloc: Global, factor: i64, constant: i64) -> Result<Row, Memory>
    ensures { IfOk result IsNarrow }
{
    Ok(Row {
        coefficients: Coefficients::from_slice(alloc, &[factor])?,
        constant,
    })
}

fn hypotheses(alloc: Global, hyp: (i64, i64)) -> Result<Rows, Memory>
    ensures { IfOk result (All IsNarrow) }
{
    let mut hyps = Items::new(alloc);
    hyps.push(hypothesis(alloc, hyp.0, hyp.1)?)?;
    Ok(hyps)
}

fn names(alloc: Global) -> Result<IntNames, Memory>
    ensures { IfOk result (λ names. length names.ints ≤ 256) }
{
    let mut ints = Items::new(alloc);
    ints.push(Ident::from_slice(alloc, b"n")?)?;
    Ok(IntNames {
        ints,
        vars: IntVars::new(alloc),
    })
}

fn followed(
    alloc: Global,
    from: &Ref,
    path: &[Letter],
    certs: &Certs,
    hyps: &Rows,
) -> Result<Unfolded, UnfoldFault>
    requires arity { HasArity examples (ref_of from.now) }
    requires certs { All IsBounded certs.now }
    requires hyps { All IsNarrow hyps.now }
{
    let protos = protos(alloc)?;
    let names = names(alloc)?;
    let path = Path::from_slice(alloc, path)?;
    unfold(alloc, &protos, from, &path, certs, hyps, &names)
}

fn unfolded(alloc: Global, way: &Way) -> Result<Unfolded, UnfoldFault> {
    let from = from(alloc, way.0.0, way.0.1, way.0.2)?;
    let certs = certs(alloc, way.2)?;
    let hyps = hypotheses(alloc, way.3)?;
    followed(alloc, &from, way.1, &certs, &hyps)
}

fn push_head(alloc: Global, out: &mut Vec<u8>, head: &Head) -> Result<(), Memory> {
    match head {
        Head::Send(res) => {
            push(out, b"send ")?;
            push_res(alloc, out, res)
        }
        Head::Recv(res) => {
            push(out, b"recv ")?;
            push_res(alloc, out, res)
        }
    }
}

fn reason(fault: CertFault) -> &'static [u8] {
    match fault {
        CertFault::BadIndex(_) => b"bad index",
        CertFault::Negative(_) => b"negative",
        CertFault::NotEqual { .. } => b"not equal",
        CertFault::Constant { .. } => b"constant",
    }
}

fn push_unfolded(alloc: Global, out: &mut Vec<u8>, unfolded: &Unfolded) -> Result<(), Memory> {
    push_number(alloc, out, i128::from(unfolded.used))?;
    push(out, b" ")?;
    push_head(alloc, out, &unfolded.head)
}

fn push_fault(alloc: Global, out: &mut Vec<u8>, fault: &UnfoldFault) -> Result<(), Memory> {
    match fault {
        UnfoldFault::WrongForm => push(out, b"wrong form"),
        UnfoldFault::CertCount => push(out, b"no certificate"),
        UnfoldFault::BranchNotProved(number, fault) => {
            push_number(alloc, out, i128::from(*number))?;
            push(out, b" not proved: ")?;
            push(out, reason(*fault))
        }
        UnfoldFault::TooLarge => push(out, b"too large"),
        UnfoldFault::Memory => Err(Memory),
    }
}

fn told(alloc: Global, answer: &Result<Unfolded, UnfoldFault>) -> Result<Vec<u8>, Memory> {
    let mut out = Vec::new(alloc);
    match answer {
        Ok(unfolded) => push_unfolded(alloc, &mut out, unfolded)?,
        Err(fault) => push_fault(alloc, &mut out, fault)?,
    }
    Ok(out)
}

/// The head of an end and how many certificates were taken, or the fault, as a text.
fn answer(alloc: Global, way: &Way) -> Result<Vec<u8>, Memory> {
    told(alloc, &unfolded(alloc, way))
}

fn have_heads(rt: &(impl Abort + AllocGlobal), cases: &[Case]) -> Result<(), Fail> {
    for (way, want) in cases {
        is_told(rt, answer(rt.alloc(), way), want)?;
    }
    Ok(())
}

const FIRST: &[Mentioned] = &[(false, 1, 0)];

const DOUBLE: &[Mentioned] = &[(false, 2, 0)];

const BOTH: &[Mentioned] = &[(false, 1, 0), (false, 1, 0)];

const NO_INDEX: &[Mentioned] = &[(false, 1, 0), (false, 1, 3)];

const NEGATIVE: &[Mentioned] = &[(true, 1, 0)];

/// `n <= 0`
const LOW: (i64, i64) = (1, 0);

/// `1 - n <= 0`
const HIGH: (i64, i64) = (-1, 1);

const N: (i64, i64) = (1, 0);

static WAYS: [Case; 11] = [
    (((false, b"Ping", N), &[Left], FIRST, LOW), b"1 send unit"),
    (
        ((false, b"Ping", N), &[Right], FIRST, HIGH),
        b"1 send (int +1*n, end ~Pong +1*n)",
    ),
    (((true, b"Ping", N), &[Left], FIRST, LOW), b"1 recv unit"),
    (
        ((true, b"Ping", N), &[Right], FIRST, HIGH),
        b"1 recv (int +1*n, end ~Pong +1*n)",
    ),
    (
        ((false, b"Pong", N), &[], &[], LOW),
        b"0 recv (int +1*n, end Ping +1*n-1)",
    ),
    (
        ((true, b"Pong", N), &[], &[], LOW),
        b"0 send (int +1*n, end Ping +1*n-1)",
    ),
    (
        ((false, b"Ping", (0, 0)), &[Left], &[], LOW),
        b"0 send unit",
    ),
    (
        ((false, b"Ping", (0, 1)), &[Right], FIRST, LOW),
        b"0 send (int +1, end ~Pong +1)",
    ),
    (
        ((false, b"Twice", N), &[Left, Left], BOTH, LOW),
        b"2 send unit",
    ),
    (
        ((false, b"Far", (2, 0)), &[Right], DOUBLE, HIGH),
        b"1 send unit",
    ),
    (
        ((false, b"Load", N), &[], &[], LOW),
        b"0 send int +9223372036854775807*n",
    ),
];

static ENDINGS: [Case; 4] = [
    (((false, b"Quiet", N), &[], &[], LOW), b"0 send unit"),
    (((true, b"Quiet", N), &[], &[], LOW), b"0 recv unit"),
    (((false, b"Rest", N), &[], &[], LOW), b"0 recv unit"),
    (((true, b"Rest", N), &[], &[], LOW), b"0 send unit"),
];

static MESSAGES: [Case; 3] = [
    (
        ((false, b"Ask", N), &[], &[], LOW),
        b"0 recv [k: +0 <= +1*k, +1*k <= +1*n] (int +1*k, end Stop)",
    ),
    (
        ((true, b"Ask", (2, 1)), &[], &[], LOW),
        b"0 send [k: +0 <= +1*k, +1*k <= +2*n+1] (int +1*k, end Stop)",
    ),
    (
        ((false, b"Ask", (0, 9)), &[], &[], LOW),
        b"0 recv [k: +0 <= +1*k, +1*k <= +9] (int +1*k, end Stop)",
    ),
];

static FORMS: [Case; 5] = [
    (((false, b"Ping", N), &[], &[], LOW), b"wrong form"),
    (
        ((false, b"Ping", N), &[Left, Left], FIRST, LOW),
        b"wrong form",
    ),
    (((false, b"Go", N), &[Left], FIRST, LOW), b"wrong form"),
    (((false, b"Twice", N), &[Left], FIRST, LOW), b"wrong form"),
    (((true, b"Big", (2, 0)), &[], &[], LOW), b"wrong form"),
];

static PROOFS: [Case; 8] = [
    (((false, b"Ping", N), &[Left], &[], LOW), b"no certificate"),
    (
        ((false, b"Ping", (0, 1)), &[Left], &[], LOW),
        b"no certificate",
    ),
    (
        ((false, b"Twice", N), &[Left, Left], FIRST, LOW),
        b"no certificate",
    ),
    (
        ((false, b"Twice", N), &[Left, Left], NO_INDEX, LOW),
        b"1 not proved: bad index",
    ),
    (
        ((false, b"Ping", N), &[Left], NEGATIVE, LOW),
        b"0 not proved: negative",
    ),
    (
        ((false, b"Twice", N), &[Left, Right], BOTH, LOW),
        b"1 not proved: not equal",
    ),
    (
        ((false, b"Ping", N), &[Left], FIRST, (1, -5)),
        b"0 not proved: constant",
    ),
    (
        ((false, b"Far", (2, 0)), &[Left], &[], LOW),
        b"no certificate",
    ),
];

static LARGE: [Case; 5] = [
    (((false, b"Big", (2, 0)), &[Left], &[], LOW), b"too large"),
    (((false, b"Wide", N), &[Left], &[], LOW), b"too large"),
    (
        ((false, b"Wide", N), &[Right], FIRST, (-1, 0)),
        b"1 send unit",
    ),
    (
        ((false, b"Far", (2, 0)), &[Left], DOUBLE, LOW),
        b"too large",
    ),
    (((false, b"Load", (2, 0)), &[], &[], LOW), b"too large"),
];

#[test]
fn an_end_has_the_head_of_its_way(rt: HostRuntime) -> Result<(), Fail> {
    have_heads(&rt, &WAYS)
}

#[test]
fn an_end_that_ends_sends_or_receives_nothing(rt: HostRuntime) -> Result<(), Fail> {
    have_heads(&rt, &ENDINGS)
}

#[test]
fn a_message_keeps_its_binders_and_limits(rt: HostRuntime) -> Result<(), Fail> {
    have_heads(&rt, &MESSAGES)
}

#[test]
fn the_form_of_the_path_comes_first(rt: HostRuntime) -> Result<(), Fail> {
    have_heads(&rt, &FORMS)
}

#[test]
fn each_letter_is_shown_in_order(rt: HostRuntime) -> Result<(), Fail> {
    have_heads(&rt, &PROOFS)
}

#[test]
fn numbers_are_too_large_at_each_place(rt: HostRuntime) -> Result<(), Fail> {
    have_heads(&rt, &LARGE)
}
