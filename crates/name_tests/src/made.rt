//! Programs that are made.
use made_programs::make_text;
use std::test::Fail;

/// The text for the number 2, from the function `main` on.
const MAIN: &str = "fn main() -> unit {
    let c0 = fork One(0) seed(0) with [0];
    let c1 = fork One(1) stage(c0) with [0];
    let c2 = fork One(2) stage(c1) with [1];
    let h = fork One(7) seed(7) with [7];
    let g0 = fork Give() giver(h);
    let g1 = fork Give() pass(g0);
    let g2 = fork Give() pass(g1);
    let r = fork Sum() tree(6) with [6];
    let v = recv1 c2;
    print v;
    let e = recv1 g2;
    let x = recv1 e;
    print x;
    let w [s] = recv1 r;
    print w;
    ret ()
}
";

#[test]
fn the_text_for_two_has_two_of_each(rt: HostRuntime) -> Result<(), Fail> {
    let text = make_text(rt.alloc(), 2)?;
    assert!(rt; text.as_slice().ends_with(MAIN.as_bytes()));
    assert!(rt;
        text.as_slice()
            .starts_with(b"proto One(n) = recv int(n);\n")
    );
    Ok(())
}
