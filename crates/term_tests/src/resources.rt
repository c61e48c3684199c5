//! Cases of terms that are put into resources of each form.
use crate::rows::is_told;
use crate::substitutions::{Put, answer};
use crate::trees::{NONE, bound, boxed_int, dual_end, int, int_within};
use chan_base::Memory;
use chan_syntax::Relation::{AtMost, Less, Same};
use chan_syntax::{Res, Resources, Shape};
use sqlite_items::Boxed;
use std::alloc::Global;
use std::process::Abort;
use std::test::Fail;

/// What is put in, and the resource that comes of it.
type Case = (Put, &'static [u8]);

const MOST: i64 = 9223372036854775807;

/// `[k: a <= k, k < b, k = a + b] int(k)`
fn limits(alloc: Global) -> Result<Res, Memory> {
    int_within(
        alloc,
        b"k",
        &[
            (&[(1, b'a')], AtMost, &[(1, b'k')]),
            (&[(1, b'k')], Less, &[(1, b'b')]),
            (&[(1, b'k')], Same, &[(1, b'a'), (1, b'b')]),
        ],
        &[(1, b'k')],
    )
}

/// `int(a)`, `[a] int(a + b)`
fn ints(alloc: Global) -> Result<Resources, Memory> {
    let mut arms = Resources::new(alloc);
    arms.push(int(alloc, b"", &[(1, b'a')])?)?;
    arms.push(int(alloc, b"a", &[(1, b'a'), (1, b'b')])?)?;
    Ok(arms)
}

/// `int(a)`, `[a] int(a + b)`, `end ~P(b)`
fn arms(alloc: Global) -> Result<Resources, Memory> {
    let mut arms = ints(alloc)?;
    arms.push(dual_end(alloc, b"", &[&[(1, b'b')]])?)?;
    Ok(arms)
}

/// `sum(int(a), [a] int(a + b), end ~P(b))`
fn sum(alloc: Global) -> Result<Res, Memory> {
    let bound = bound(alloc, b"", &[])?;
    Ok(Res {
        bound,
        shape: Shape::Sum(arms(alloc)?),
    })
}

/// `[j: i < j, j < a] int(i + j + a)`
fn inner(alloc: Global) -> Result<Res, Memory> {
    int_within(
        alloc,
        b"j",
        &[
            (&[(1, b'i')], Less, &[(1, b'j')]),
            (&[(1, b'j')], Less, &[(1, b'a')]),
        ],
        &[(1, b'i'), (1, b'j'), (1, b'a')],
    )
}

/// `([j: i < j, j < a] int(i + j + a), [i] int(i + b))`
fn two_ints(alloc: Global) -> Result<Shape, Memory> {
    let first = Boxed::new(alloc, inner(alloc)?)?;
    let second = boxed_int(alloc, b"i", &[(1, b'i'), (1, b'b')])?;
    Ok(Shape::Pair(first, second))
}

/// `[i: i <= a] ([j: i < j, j < a] int(i + j + a), [i] int(i + b))`
fn nested(alloc: Global) -> Result<Res, Memory> {
    let bound = bound(alloc, b"i", &[(&[(1, b'i')], AtMost, &[(1, b'a')])])?;
    Ok(Res {
        bound,
        shape: two_ints(alloc)?,
    })
}

/// `[k] end ~P(a, k - a)`
fn end(alloc: Global) -> Result<Res, Memory> {
    dual_end(alloc, b"k", &[&[(1, b'a')], &[(1, b'k'), (-1, b'a')]])
}

/// A resource of each form.
#[derive(Clone, Copy)]
enum Form {
    Limits,
    Sum,
    Nested,
    End,
}

fn resource(alloc: Global, form: Form) -> Result<Res, Memory> {
    match form {
        Form::Limits => limits(alloc),
        Form::Sum => sum(alloc),
        Form::Nested => nested(alloc),
        Form::End => end(alloc),
    }
}

fn answer_of_form(alloc: Global, form: Form, put: &Put) -> Result<Vec<u8>, Memory> {
    let res = resource(alloc, form)?;
    answer(alloc, &res, put)
}

fn have_answers(rt: &(impl Abort + AllocGlobal), form: Form, cases: &[Case]) -> Result<(), Fail> {
    for (put, want) in cases {
        is_told(rt, answer_of_form(rt.alloc(), form, put), want)?;
    }
    Ok(())
}

static LIMITS: [Case; 4] = [
    (
        (b"ab", &[(2, b'c'), (1, NONE)], &[(1, b'd')]),
        b"[k: +2*c+1 <= +1*k, +1*k < +1*d, +1*k = +2*c+1*d+1] int +1*k",
    ),
    (
        (b"bd", &[(1, b'k')], &[]),
        b"[k.: +1*a <= +1*k., +1*k. < +1*k, +1*k. = +1*a+1*k] int +1*k.",
    ),
    (
        (b"kd", &[(7, NONE)], &[]),
        b"[k: +1*a <= +1*k, +1*k < +1*b, +1*k = +1*a+1*b] int +1*k",
    ),
    ((b"ab", &[(MOST, b'c')], &[(1, b'c')]), b"too large"),
];

static ARMS: [Case; 3] = [
    (
        (b"ab", &[(2, b'c')], &[(3, NONE)]),
        b"{int +2*c | [a] int +1*a+3 | end ~P +3}",
    ),
    (
        (b"ab", &[(1, b'b')], &[(1, b'a')]),
        b"{int +1*b | [a.] int +1*a+1*a. | end ~P +1*a}",
    ),
    (
        (b"cd", &[], &[]),
        b"{int +1*a | [a] int +1*a+1*b | end ~P +1*b}",
    ),
];

static BINDERS: [Case; 4] = [
    (
        (b"ab", &[(1, b'c')], &[(2, b'c')]),
        b"[i: +1*i <= +1*c] ([j: +1*i < +1*j, +1*j < +1*c] int +1*c+1*i+1*j, [i] int +2*c+1*i)",
    ),
    (
        (b"ad", &[(1, b'j')], &[]),
        b"[i: +1*i <= +1*j] ([j..: +1*i < +1*j.., +1*j.. < +1*j] int +1*i+1*j+1*j.., [i] int +1*b+1*i)",
    ),
    (
        (b"bd", &[(1, b'i')], &[]),
        b"[i.: +1*i. <= +1*a] ([j: +1*i. < +1*j, +1*j < +1*a] int +1*a+1*i.+1*j, [i..] int +1*i+1*i..)",
    ),
    (
        (b"ad", &[(1, b'i'), (1, b'j')], &[]),
        b"[i.: +1*i. <= +1*i+1*j] ([j..: +1*i. < +1*j.., +1*j.. < +1*i+1*j] int +1*i+1*i.+1*j+1*j.., [i] int +1*b+1*i)",
    ),
];

static ARGUMENTS: [Case; 3] = [
    (
        (b"ad", &[(2, b'c'), (1, NONE)], &[]),
        b"[k] end ~P +2*c+1 -2*c+1*k-1",
    ),
    ((b"ad", &[(1, b'k')], &[]), b"[k.] end ~P +1*k -1*k+1*k."),
    ((b"cd", &[], &[]), b"[k] end ~P +1*a -1*a+1*k"),
];

#[test]
fn terms_are_put_in_on_both_sides_of_limits(rt: HostRuntime) -> Result<(), Fail> {
    have_answers(&rt, Form::Limits, &LIMITS)
}

#[test]
fn terms_are_put_into_each_arm_of_a_sum(rt: HostRuntime) -> Result<(), Fail> {
    have_answers(&rt, Form::Sum, &ARMS)
}

#[test]
fn inner_binders_shadow_and_catch_no_name(rt: HostRuntime) -> Result<(), Fail> {
    have_answers(&rt, Form::Nested, &BINDERS)
}

#[test]
fn terms_are_put_into_the_arguments_of_an_end(rt: HostRuntime) -> Result<(), Fail> {
    have_answers(&rt, Form::End, &ARGUMENTS)
}
