//! Programs with more than one fault: the one that starts first in the text is told.
use crate::rows::texts_are_told;
use std::test::Fail;

const ROWS: &str = "\
fn f(a: int(1), g: unit) -> unit { if a <= 0 { print g; ret () } else { ret () } } / fn main() -> unit { ret 1 } => outline 1:48 wrong form
proto One() = recv int(1); / fn f(y: end One()) -> unit { ret () } / fn main() -> unit { ret 1 } => outline 2:30 left y
proto One() = recv int(1); / fn main() -> unit { ret 1 } / fn f(y: end One()) -> unit { ret () } => outline 2:21 wrong form
proto One() = recv int(1); / fn f(a: int(1), y: end One()) -> unit { if a <= 0 { ret () } else { print y; ret () } } / fn main() -> unit { ret () } => outline 2:53 left y
proto One() = recv int(1); / fn f(a: int(1), y: end One()) -> unit { if a <= 0 { let v = recv1 y; ret () } else { print y; ret () } } / fn main() -> unit { ret () } => outline 2:86 wrong form
fn f(s: sum(unit, unit)) -> unit { match s { inl a { ret a } inr b { print b; ret 1 } } } / fn main() -> unit { ret () } => outline 1:70 wrong form
fn f(s: sum(unit, unit)) -> unit { match s { inl a { print a; ret a } inr b { print b; ret b } } } / fn main() -> unit { ret () } => outline 1:54 wrong form
";

#[test]
fn the_first_fault_in_the_text_is_told(rt: HostRuntime) -> Result<(), Fail> {
    texts_are_told(&rt, ROWS)
}
