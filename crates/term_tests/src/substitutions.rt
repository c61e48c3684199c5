//! Cases of terms that are put in for names.
use crate::rows::is_told;
use crate::trees::{NONE, Times, names, pair, terms};
use chan_base::Memory;
use chan_syntax::Res;
use std::alloc::Global;
use std::process::Abort;
use std::test::Fail;
use substitution::{SubstFault, subst};
use tree_texts::{push, push_res};

/// Two names, and the term that is put in for each of them.
pub(crate) type Put = (&'static [u8], &'static [Times], &'static [Times]);

/// A pair's binders, those around its integer, the integer, what is put in, and the pair that comes
/// of it.
type Case = (
    (&'static [u8], &'static [u8], &'static [Times]),
    Put,
    &'static [u8],
);

const MOST: i64 = 9223372036854775807;

const LEAST: i64 = -9223372036854775808;

const HALF: i64 = -4611686018427387904;

/// The resource with the terms put in, where there are as many as names.
fn put_in(alloc: Global, res: &Res, put: &Put) -> Result<Res, SubstFault> {
    let names = names(alloc, put.0)?;
    let by = terms(alloc, &[put.1, put.2])?;
    if names.len() != by.len() {
        return Err(SubstFault::Memory);
    }
    subst(alloc, res, &names, &by)
}

fn told(alloc: Global, answer: &Result<Res, SubstFault>) -> Result<Vec<u8>, Memory> {
    let mut out = Vec::new(alloc);
    match answer {
        Ok(res) => push_res(alloc, &mut out, res)?,
        Err(SubstFault::TooLarge) => push(&mut out, b"too large")?,
        Err(SubstFault::Memory) => return Err(Memory),
    }
    Ok(out)
}

/// The resource with the terms put in, or the fault, as a text.
pub(crate) fn answer(alloc: Global, res: &Res, put: &Put) -> Result<Vec<u8>, Memory> {
    told(alloc, &put_in(alloc, res, put))
}

fn answer_of_pair(alloc: Global, case: &Case) -> Result<Vec<u8>, Memory> {
    let pair = pair(alloc, case.0.0, case.0.1, case.0.2)?;
    answer(alloc, &pair, &case.1)
}

fn have_answers(rt: &(impl Abort + AllocGlobal), cases: &[Case]) -> Result<(), Fail> {
    for case in cases {
        is_told(rt, answer_of_pair(rt.alloc(), case), case.2)?;
    }
    Ok(())
}

static NORMAL: [Case; 12] = [
    (
        (b"", b"", &[(5, NONE)]),
        (b"ab", &[(7, NONE)], &[]),
        b"(int +5, unit)",
    ),
    (
        (b"", b"", &[(1, b'd'), (1, b'c')]),
        (b"ab", &[], &[]),
        b"(int +1*c+1*d, unit)",
    ),
    (
        (b"", b"", &[(1, b'a'), (2, b'b')]),
        (b"ab", &[(1, b'b')], &[(1, b'a')]),
        b"(int +2*a+1*b, unit)",
    ),
    (
        (b"", b"", &[(1, b'a')]),
        (b"aa", &[(1, NONE)], &[(2, NONE)]),
        b"(int +1, unit)",
    ),
    (
        (b"", b"", &[(1, b'a'), (-1, b'b')]),
        (b"ab", &[(1, b'c')], &[(1, b'c')]),
        b"(int +0, unit)",
    ),
    (
        (b"", b"", &[(1, b'a')]),
        (b"ab", &[(MOST, b'b')], &[]),
        b"(int +9223372036854775807*b, unit)",
    ),
    (
        (b"", b"", &[(1, b'a')]),
        (b"ab", &[(LEAST, NONE)], &[]),
        b"(int +-9223372036854775808, unit)",
    ),
    (
        (b"", b"", &[(1, b'a'), (1, b'b')]),
        (b"ab", &[(HALF, b'b')], &[(HALF, b'b')]),
        b"(int +-9223372036854775808*b, unit)",
    ),
    (
        (b"", b"", &[(2, b'a'), (-1, NONE)]),
        (b"ab", &[(2, b'b')], &[(1, b'a')]),
        b"(int +4*b-1, unit)",
    ),
    (
        (b"", b"", &[(2, b'a'), (-1, NONE)]),
        (b"ab", &[(HALF, NONE)], &[]),
        b"too large",
    ),
    (
        (b"", b"", &[(2, b'a')]),
        (b"ab", &[(MOST, b'b')], &[]),
        b"too large",
    ),
    (
        (b"", b"", &[(-1, b'a')]),
        (b"ab", &[(LEAST, NONE)], &[]),
        b"too large",
    ),
];

static BINDERS: [Case; 6] = [
    (
        (b"a", b"", &[(1, b'a'), (1, b'b')]),
        (b"ad", &[(7, NONE)], &[]),
        b"[a] (int +1*a+1*b, unit)",
    ),
    (
        (b"", b"a", &[(1, b'a'), (1, b'b')]),
        (b"ad", &[(7, NONE)], &[]),
        b"([a] int +1*a+1*b, unit)",
    ),
    (
        (b"c", b"", &[(1, b'a'), (1, b'b')]),
        (b"bd", &[(1, b'a')], &[]),
        b"[c] (int +2*a, unit)",
    ),
    (
        (b"a", b"", &[(1, b'a'), (1, b'b')]),
        (b"bd", &[(1, b'a')], &[]),
        b"[a.] (int +1*a+1*a., unit)",
    ),
    (
        (b"", b"a", &[(1, b'a'), (1, b'b')]),
        (b"bd", &[(1, b'a')], &[]),
        b"([a.] int +1*a+1*a., unit)",
    ),
    (
        (b"a", b"", &[(1, b'a'), (1, b'b')]),
        (b"cd", &[(1, b'a')], &[]),
        b"[a] (int +1*a+1*b, unit)",
    ),
];

#[test]
fn terms_are_put_in_at_once_and_in_normal_form(rt: HostRuntime) -> Result<(), Fail> {
    have_answers(&rt, &NORMAL)
}

#[test]
fn binders_shadow_and_catch_no_name(rt: HostRuntime) -> Result<(), Fail> {
    have_answers(&rt, &BINDERS)
}
