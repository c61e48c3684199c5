//! Numbers past 64 bits, told when the rule comes to them.
use crate::rows::bodies_are_told;
use std::test::Fail;

const ROWS: &str = "\
let x = wide(a, a) with [2]; absurd => outline 2:1 too large
let x = fork One(2) wide(a) with [2]; absurd => outline 2:1 too large
send1 y a; let x = large(y) with [2]; absurd => outline 2:12 not held y
let x = large(2) with [2, 2]; absurd => outline 2:1 instance count
let x [k] = large(2) with [2]; absurd => outline 2:1 too large
large(2) with [2] => outline 2:1 too large
send1 v y; absurd => outline 2:1 too large
let x [k] = recv1 v with [1]; absurd => outline 2:1 too large
let x = seed(y, -9223372036854775807) with [9223372036854775807]; absurd => outline 2:1 certificate count
let x = seed((), ()) with [9223372036854775807*a]; absurd => outline 2:1 wrong form
";

#[test]
fn numbers_are_too_large_in_their_turn(rt: HostRuntime) -> Result<(), Fail> {
    bodies_are_told(&rt, ROWS)
}
