//! Values that are taken apart, and bodies that are never come to.
use crate::rows::bodies_are_told;
use std::test::Fail;

const ROWS: &str = "\
send1 y a; let (q, r) = y; absurd => outline 2:12 not held y
let (q [k], r) = a; absurd => outline 2:1 wrong form
let (q, r [k]) = p; absurd => outline 2:1 instance count
let (q [k], r) = p; absurd => outline 2:1 instance count
let (q, r) = p; print q + r + y; absurd => outline 2:17 wrong form
match p { inl q { absurd } inr r { absurd } } => outline 2:1 wrong form
match s { inl q [k] { absurd } inr r { absurd } #2 t { absurd } } => outline 2:1 wrong form
match s { inl q { absurd } inr r [k] { absurd } } => outline 2:1 instance count
match s { inl q { print q; absurd } inr r { absurd } } => outline 2:19 wrong form
match s { inl q { absurd by [{1 #0}] } inr r { print r; absurd } } => outline 2:19 not proved 0: not equal n 0 -1
absurd => outline 2:1 certificate count
absurd with [1] => outline 2:1 certificate count
absurd with [1] by [{1 #0}] => outline 2:1 not proved 0: not equal n 0 -1
";

#[test]
fn parts_fail_at_their_first_condition(rt: HostRuntime) -> Result<(), Fail> {
    bodies_are_told(&rt, ROWS)
}
