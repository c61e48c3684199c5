//! Values at shapes.
use crate::rows::rows_are_told;
use std::test::Fail;

/// The function whose result and last a row has.
const HEAD: &[u8] =
    b"fn f [n: 0 <= n, n <= 3, 3 <= n](a: int(n), y: end One(n), p: (int(1), int(2)), s: sum(unit, int(3)), t: sum([k: 0 <= k] int(k), unit), u: unit) -> ";

const UNITS: &str = "\
unit { ret () } => taken 0 0 left y
unit { ret u } => taken 0 0 left y
unit { ret 1 } => outline 1:1 wrong form
unit { ret a } => outline 1:1 wrong form
unit { ret x } => outline 1:1 not held x
unit { ret ((), ()) } => outline 1:1 wrong form
unit { ret inl () } => outline 1:1 wrong form
int(n) { ret () } => outline 1:1 wrong form
(unit, unit) { ret () } => outline 1:1 wrong form
sum(unit, unit) { ret () } => outline 1:1 wrong form
end One(n) { ret () } => outline 1:1 wrong form
";

const INTEGERS: &str = "\
int(n) { ret a } => taken 0 0 left y
int(n) { ret a by [{1 #1}, {1 #2}] } => taken 0 0 left y
int(n + 1) { ret a + 1 } => taken 0 0 left y
int(0) { ret a - n } => taken 0 0 left y
int(3) { ret a } => outline 1:1 certificate count
int(3) { ret a by [{1 #1}] } => outline 1:1 certificate count
int(3) { ret a by [{1 #1}, {1 #2}] } => taken 0 2 left y
int(3) { ret a by [{1 #0}] } => outline 1:1 not proved 0: not equal n 1 -1
int(3) { ret a by [{1 #1}, {1 #1}] } => outline 1:1 not proved 1: not equal n -1 1
int(n + 1) { ret a } => outline 1:1 certificate count
int(n + 1) { ret a by [{1 #0}] } => outline 1:1 not proved 0: not equal n 0 -1
int(n) { ret a + 1 by [{1 #0}] } => outline 1:1 not proved 0: not equal n 0 -1
int(n) { ret x } => outline 1:1 not held x
int(n) { ret n } => outline 1:1 not held n
int(n) { ret n + 0 } => taken 0 0 left y
int(n) { ret x + 0 } => outline 1:1 wrong form
int(n) { ret u + 1 } => outline 1:1 wrong form
int(n) { ret u } => outline 1:1 wrong form
unit { ret x + 0 } => outline 1:1 wrong form
int(n) { ret 9223372036854775807*a + a } => outline 1:1 too large
int(9223372036854775807) { ret -2 } => outline 1:1 too large
";

const ENDS: &str = "\
end One(n) { ret y } => taken 0 0
end ~One(n) { ret y } => outline 1:1 wrong form
end Two(n) { ret y } => outline 1:1 wrong form
end One(3) { ret y } => outline 1:1 certificate count
end One(3) { ret y by [{1 #1}, {1 #2}] } => taken 0 2
end One(3) { ret y by [{1 #2}] } => outline 1:1 not proved 0: not equal n 1 -1
end One(n, 1) { ret y } => outline 1:1 wrong form
end One(3, 1) { ret y } => outline 1:1 certificate count
end One() { ret y } => outline 1:1 wrong form
end One(n) { ret a } => outline 1:1 wrong form
end One(n) { ret y + 0 } => outline 1:1 wrong form
(end One(n), unit) { ret (y, u) } => taken 0 0
(end One(n), end One(n)) { ret (y, y) } => outline 1:1 not held y
(end One(n), int(1)) { ret (y, y) } => outline 1:1 not held y
(int(n), int(n)) { ret (a, a) } => taken 0 0 left y
";

const PARTS: &str = "\
(int(1), int(2)) { ret p } => taken 0 0 left y
(int(1), int(3)) { ret p by [{1 #0}, {1 #0}] } => outline 1:1 wrong form
(int(1), [k] int(2)) { ret p } => outline 1:1 wrong form
(int(1), int(2)) { ret (1, 2) } => taken 0 0 left y
(int(1), int(2)) { ret (2, 1) } => outline 1:1 certificate count
(int(1), int(2)) { ret s } => outline 1:1 wrong form
(unit, unit) { ret (x, 1) } => outline 1:1 not held x
(unit, unit) { ret ((), 1) } => outline 1:1 wrong form
int(1) { ret (1, 1) } => outline 1:1 wrong form
((int(1), int(2)), int(n)) { ret (p, a) } => taken 0 0 left y
(int(3), int(3)) { ret (a, a) by [{1 #1}, {1 #2}, {1 #1}] } => outline 1:1 certificate count
(int(3), int(3)) { ret (a, a) by [{1 #1}, {1 #2}, {1 #1}, {1 #2}] } => taken 0 4 left y
sum(unit, int(3)) { ret s } => taken 0 0 left y
sum(unit, int(4)) { ret s } => outline 1:1 wrong form
sum(unit, int(3), unit) { ret s } => outline 1:1 wrong form
sum([m: 0 <= m] int(m), unit) { ret t } => taken 0 0 left y
sum([m: 1 <= m] int(m), unit) { ret t } => outline 1:1 wrong form
sum(unit, int(3)) { ret inl () } => taken 0 0 left y
sum(unit, int(3)) { ret inr 3 } => taken 0 0 left y
sum(unit, int(3)) { ret inr () } => outline 1:1 wrong form
sum(unit, int(3)) { ret inl 3 } => outline 1:1 wrong form
sum(unit, int(3)) { ret #2 () } => outline 1:1 wrong form
sum(unit, unit, end One(n)) { ret #2 y } => taken 0 0
";

#[test]
fn units_are_given(rt: HostRuntime) -> Result<(), Fail> {
    rows_are_told(&rt, HEAD, UNITS, b"\n")
}

#[test]
fn integers_are_given_where_they_are_equal(rt: HostRuntime) -> Result<(), Fail> {
    rows_are_told(&rt, HEAD, INTEGERS, b"\n")
}

#[test]
fn ends_are_taken_once(rt: HostRuntime) -> Result<(), Fail> {
    rows_are_told(&rt, HEAD, ENDS, b"\n")
}

#[test]
fn parts_are_given_one_after_the_other(rt: HostRuntime) -> Result<(), Fail> {
    rows_are_told(&rt, HEAD, PARTS, b"\n")
}
