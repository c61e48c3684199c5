//! Values at resources with binders.
use crate::rows::rows_are_told;
use std::test::Fail;

/// The function whose result and last a row has.
const HEAD: &[u8] = b"fn f [n: 0 <= n, n <= 3, 3 <= n](a: int(n), u: unit) -> ";

const ROWS: &str = "\
[k] int(k) { ret a with [n] } => taken 1 0
[k] int(k) { ret a with [a] } => taken 1 0
[k] int(k) { ret a with [a, a] } => taken 1 0
[k] int(k) { ret a } => outline 1:1 instance count
[k] int(k) { ret x } => outline 1:1 instance count
[k] int(k) { ret a with [u] } => outline 1:1 wrong form
[k] int(k) { ret a with [x] } => outline 1:1 wrong form
[k] int(k) { ret x with [9223372036854775807*n + n] } => outline 1:1 too large
[k, m] int(m) { ret a with [1, n] } => taken 2 0
[k, m] int(k) { ret a with [1, n] } => outline 1:1 certificate count
[k, m: k <= 3] int(k) { ret a with [n] } => outline 1:1 instance count
[k: k <= 3] int(k) { ret x with [n] } => outline 1:1 certificate count
[k: k <= 3] int(k) { ret a with [n] by [{1 #1}] } => taken 1 1
[k: k < 4] int(k) { ret a with [n] by [{1 #1}] } => taken 1 1
[k: k < 3] int(k) { ret a with [n] by [{1 #1}] } => outline 1:1 not proved 0: constant 1 1
[k: k = 3] int(k) { ret a with [n] by [{1 #1}] } => outline 1:1 certificate count
[k: k = 3] int(k) { ret a with [n] by [{1 #1}, {1 #2}] } => taken 1 2
[k: k = 3] int(k) { ret a with [n] by [{1 #2}, {1 #1}] } => outline 1:1 not proved 0: not equal n 1 -1
[k: k <= 3, 0 <= k] int(k) { ret 2 with [2] } => taken 1 0
[k: k <= 3, 0 <= k] int(k) { ret 4 with [4] } => outline 1:1 certificate count
[k: k <= 3, 0 <= k] int(k) { ret a with [n] by [{1 #1}, {1 #0}] } => taken 1 2
[k: k <= 3, 0 <= k] int(k) { ret a with [n] by [{1 #0}, {1 #1}] } => outline 1:1 not proved 0: not equal n 1 -1
[k: 9223372036854775807*k <= 3] unit { ret u with [2] } => outline 1:1 too large
[k] int(9223372036854775807*k) { ret x with [2] } => outline 1:1 too large
[k: k <= 3] int(9223372036854775807*k) { ret a with [4] } => outline 1:1 certificate count
[k] (unit, [m: 9223372036854775807*k <= m] unit) { ret (x, u) with [2, 1] } => outline 1:1 too large
[k] (int(k), [m: m <= k] int(m)) { ret (a, 2) with [n, 2] } => outline 1:1 certificate count
[k] (int(k), [m: m <= k] int(m)) { ret (a, 2) with [n, 2] by [{1 #2}] } => taken 2 1
[k] (int(k), [m: m <= k] int(m)) { ret (a, 2) with [n] } => outline 1:1 instance count
[k] (int(k), [m: m <= k] int(m)) { ret (x, 2) with [n] } => outline 1:1 not held x
sum([k] int(k), [k, m] int(m)) { ret inr a with [1, n] } => taken 2 0
sum([k] int(k), [k, m] int(m)) { ret inl a with [n, 1] } => taken 1 0
";

#[test]
fn binders_take_instances_and_limits_certificates(rt: HostRuntime) -> Result<(), Fail> {
    rows_are_told(&rt, HEAD, ROWS, b"\n")
}
