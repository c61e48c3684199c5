//! Values at the parameters of functions.
use crate::rows::rows_are_told;
use std::test::Fail;

/// The function whose last a row is.
const HEAD: &[u8] =
    b"fn f [n: 0 <= n, n <= 3, 3 <= n](a: int(n), y: end One(n), u: unit) -> unit { ";

const TAIL: &[u8] = b" }
fn g [k: k <= 3](c: int(k), e: end One(k)) -> unit { ret () }
fn large [k](c: int(k), d: int(9223372036854775807*k)) -> unit { ret () }
fn none() -> unit { ret () }
";

const ROWS: &str = "\
none() => taken 0 0 left y
none() with [1] by [{1 #0}] => taken 0 0 left y
none(x) => outline 1:1 wrong form
g(a, y) => outline 1:1 instance count
g(a, y) with [x] => outline 1:1 wrong form
g(x, y) with [n] => outline 1:1 certificate count
g(a, y) with [n] by [{1 #1}] => taken 1 1
g(n + 0, y) with [a] by [{1 #1}] => taken 1 1
g(a, y) with [n] by [{1 #2}] => outline 1:1 not proved 0: not equal n 1 -1
g(a) with [n] by [{1 #1}] => outline 1:1 wrong form
g() with [n] by [{1 #1}] => outline 1:1 wrong form
g(x) with [n] by [{1 #1}] => outline 1:1 not held x
g(a, y, u) with [n] by [{1 #1}] => outline 1:1 wrong form
g(a, y, x) with [n] by [{1 #1}] => outline 1:1 wrong form
g(y, a) with [n] by [{1 #1}] => outline 1:1 wrong form
g(a, u) with [n] by [{1 #1}] => outline 1:1 wrong form
g(3, y) with [3] => outline 1:1 certificate count
g(3, y) with [3] by [{1 #1}, {1 #2}] => taken 1 2
g(a, y) with [3] by [{1 #1}, {1 #2}, {1 #1}] => outline 1:1 certificate count
g(a, y) with [3] by [{1 #1}, {1 #2}, {1 #1}, {1 #2}] => taken 1 4
large(1, 1) with [2] => outline 1:1 certificate count
large(x, 1) with [2] => outline 1:1 not held x
large(2, x) with [2] => outline 1:1 too large
large(2) with [2] => outline 1:1 wrong form
large(1, 9223372036854775807) with [1] => taken 1 0 left y
";

#[test]
fn values_are_given_in_order(rt: HostRuntime) -> Result<(), Fail> {
    rows_are_told(&rt, HEAD, ROWS, TAIL)
}
