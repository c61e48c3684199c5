//! Programs that are outlined.
use crate::rows::texts_are_told;
use std::test::Fail;

const ROWS: &str = "\
fn main() -> unit { ret () } => accepted
proto One(n) = recv int(n); / fn seed [n](y: end ~One(n), a: int(n)) -> unit { send1 y a; ret () } / fn main() -> unit { let c = fork One(7) seed(7) with [7]; let v = recv1 c; print v; ret () } => accepted
fn main() -> unit { if 0 <= 0 { ret () } else { absurd by [{1 #0}] } } => accepted
fn f [n](a: int(n)) -> unit { if a <= 0 { ret () } else { if a <= 0 { absurd by [{1 #0, 1 #1}] } else { ret () } } } / fn main() -> unit { ret () } => accepted
fn at_most(a: int(7)) -> [k: k <= 3, 3 < k + 2] int(k) { let x = div(a, 2); ret x with [x] by [{2: 1 #0}, {2: 1 #1}] } / fn main() -> unit { ret () } => accepted
fn below [n](a: int(n)) -> [k: 0 <= k, k < 5] int(k) { let x = rem(a, 5); ret x with [x] by [{1 #0}, {1 #1}] } / fn main() -> unit { ret () } => accepted
fn main() -> unit { let x = div(5, 9223372036854775807); let y = rem(5, 9223372036854775807); print x + y; ret () } => accepted
proto One(n) = recv int(n); / proto Way(n) = if n <= 0 then One(n) else One(1); / fn f [n: n <= 0](w: end Way(n)) -> int(n) { let v = recv1 w via l by [{1 #0}]; ret v } / fn g [n: 1 <= n](w: end Way(n)) -> int(1) { let v = recv1 w via r by [{1 #0}]; ret v } / fn main() -> unit { ret () } => accepted
fn f(s: sum([k: 0 <= k] int(k), (int(1), int(2)), unit)) -> [k: 0 <= k] int(k) { match s { inl a [k] { ret a with [k] by [{1 #0}] } inr p { let (q, r) = p; ret q + r with [3] } #2 u { ret 0 with [0] } } } / fn main() -> unit { ret () } => accepted
fn f [n](a: int(n)) -> int(2*n) { ret a + a } / fn g(a: int(3)) -> [m: m = 6] int(m) { let x = f(a) with [3]; ret x with [6] } / fn main() -> unit { ret () } => accepted
proto Sum() = recv [s] int(s); / fn tree [n: 0 <= n](y: end ~Sum(), d: int(n)) -> unit { if d <= 0 { send1 y 1 with [1]; ret () } else { let e = d - 1; let a = fork Sum() tree(e) with [n - 1] by [{1 #1}]; let b = fork Sum() tree(e) with [n - 1] by [{1 #1}]; let u [s] = recv1 a; let w [t] = recv1 b; let z = u + w; send1 y z with [s + t]; ret () } } / fn main() -> unit { let c = fork Sum() tree(10) with [10]; let v [s] = recv1 c; print v; ret () } => accepted
";

#[test]
fn outlined_programs_are_accepted(rt: HostRuntime) -> Result<(), Fail> {
    texts_are_told(&rt, ROWS)
}
