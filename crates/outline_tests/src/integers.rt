//! Terms that aren't integers, or whose numbers 64 bits don't hold.
use crate::rows::bodies_are_told;
use std::test::Fail;

const ROWS: &str = "\
let x = y; absurd => outline 2:1 wrong form
let x = 9223372036854775807*a + a; absurd => outline 2:1 too large
let x = mul(a, y); absurd => outline 2:1 wrong form
let x = mul(p, 9223372036854775807*a + a); absurd => outline 2:1 wrong form
let x = div(-9223372036854775807, 10); absurd => outline 2:1 too large
let x = div(y, 10); absurd => outline 2:1 wrong form
let x = rem(p, 10); absurd => outline 2:1 wrong form
let x = div(-9223372036854775807, 3); absurd => outline 2:1 too large
let x = div(-9223372036854775807, 2); absurd => outline 2:39 certificate count
let x = div(1, 9223372036854775807); print y; absurd => outline 2:38 wrong form
print s; absurd => outline 2:1 wrong form
if 9223372036854775807*a + a <= y { absurd } else { absurd } => outline 2:1 too large
if a <= y { absurd } else { absurd } => outline 2:1 wrong form
if -9223372036854775807 - 1 <= 0 { absurd } else { absurd } => outline 2:1 too large
if 0 <= 0 { absurd by [{1 #1}] } else { absurd by [{1 #1}] } => outline 2:13 not proved 0: constant 1 1
if 1 <= 0 { absurd by [{1 #1}] } else { absurd by [{1 #1}] } => outline 2:41 not proved 0: constant 1 1
";

#[test]
fn integers_are_asked_for(rt: HostRuntime) -> Result<(), Fail> {
    bodies_are_told(&rt, ROWS)
}
