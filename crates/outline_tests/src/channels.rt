//! Forks and messages.
use crate::rows::bodies_are_told;
use std::test::Fail;

const ROWS: &str = "\
let x = fork One(y) large(); absurd => outline 2:1 fork form
let x = fork One(y) seed(a); absurd => outline 2:1 wrong form
let x = fork One(n) seed(a); absurd => outline 2:1 instance count
let x = fork ~One(n) seed(p) with [n]; absurd => outline 2:1 wrong form
let x = fork One(1) seed(p) with [n]; absurd => outline 2:1 certificate count
let x = fork One(n) seed(p) with [n, n]; absurd => outline 2:1 wrong form
let x = fork One(n) seed(a) with [n, n]; absurd => outline 2:1 instance count
let x = fork One(n) seed(a) with [n] by [{1 #0}]; absurd => outline 2:1 certificate count
let x = fork One(n) seed(a) with [n]; ret () => outline 2:39 left y
send1 a y; absurd => outline 2:1 wrong form
send1 w a; absurd => outline 2:1 wrong form
send1 w via ll a; absurd => outline 2:1 wrong form
send1 w via l a; absurd => outline 2:1 certificate count
send1 w via l a by [{1 #0}]; absurd => outline 2:1 branch not proved 0: not equal n 1 -1
send1 w via r a by [{1 #0}]; absurd => outline 2:1 branch not proved 0: constant 1 1
send1 y y; absurd => outline 2:1 not held y
send1 y 1; absurd => outline 2:1 certificate count
send1 y a with [1]; absurd => outline 2:1 instance count
send1 y a; send1 y a; absurd => outline 2:12 not held y
let x [k] = recv1 y with [1]; absurd => outline 2:1 wrong form
let x [k] = recv1 w via l with [1] by [{1 #0}]; absurd => outline 2:1 branch not proved 0: not equal n 1 -1
if a <= 0 { let x [k] = recv1 w via l by [{1 #1}]; absurd } else { absurd } => outline 2:13 instance count
";

#[test]
fn forks_and_messages_fail_at_their_first_condition(rt: HostRuntime) -> Result<(), Fail> {
    bodies_are_told(&rt, ROWS)
}
