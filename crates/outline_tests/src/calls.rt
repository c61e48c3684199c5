//! Calls, and values that are given back.
use crate::rows::bodies_are_told;
use std::test::Fail;

const ROWS: &str = "\
let x = seed(a, a); absurd => outline 2:1 instance count
let x = seed(a, a) with [y]; absurd => outline 2:1 wrong form
let x = seed(y, 1) with [n, n]; absurd => outline 2:1 certificate count
let x = seed(y, 1) with [n] by [{1 #0}]; absurd => outline 2:1 not proved 0: constant 1 1
let x = seed(a, y) with [n]; absurd => outline 2:1 wrong form
let x = seed(y, y) with [n]; absurd => outline 2:1 not held y
let x = seed(y, p) with [n]; absurd => outline 2:1 wrong form
let x [k] = seed(y, a) with [n, n] by [{1 #0}]; absurd => outline 2:1 instance count
let x [k] = seed(y, a) with [n] by [{1 #0}]; absurd => outline 2:1 certificate count
let x [k] = seed(y, a) with [n]; absurd => outline 2:1 instance count
let x = count(); absurd => outline 2:1 instance count
let x [k] = count(); print x; absurd by [{1 #1}] => outline 2:31 not proved 0: not equal k 0 -1
count() => outline 2:1 wrong form
seed(y, a) with [n] => outline 2:1 left w
ret 1 with [1] => outline 2:1 wrong form
ret () with [1] by [{1 #0}] => outline 2:1 instance count
ret () by [{1 #0}] => outline 2:1 certificate count
ret () => outline 2:1 left y
send1 y a; ret () => outline 2:12 left w
";

#[test]
fn calls_fail_at_their_first_condition(rt: HostRuntime) -> Result<(), Fail> {
    bodies_are_told(&rt, ROWS)
}
