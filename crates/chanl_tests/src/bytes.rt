//! Texts with bytes that no row of `chanl_rows` has.
use crate::rows::is_answered;
use row_answers::answer;
use std::process::Abort;
use std::test::Fail;

/// A command, a text, the status, and what is written.
type Case = (&'static str, &'static [u8], u8, &'static [u8]);

static CASES: [Case; 5] = [
    ("fmt", b"\xc3", 1, b"refused 1:1 bad byte\n"),
    (
        "replay",
        b"// text\nfn main() -> unit { // }\r\nret () }",
        0,
        b"finished\n",
    ),
    (
        "replay",
        b"fn main() -> unit { print 0; // \xc3\n ret () }",
        0,
        b"0\nfinished\n",
    ),
    (
        "replay",
        b"fn main() -> unit { ret () } \xc3",
        1,
        b"refused 1:30 bad byte\n",
    ),
    (
        "replay",
        b"fn main() -> unit { ret () } // \xc3\n\t@",
        1,
        b"refused 2:2 bad token\n",
    ),
];

fn has_answer(rt: &(impl Abort + AllocGlobal), case: &Case) -> Result<(), Fail> {
    is_answered(rt, answer(rt.alloc(), &[case.0], case.1), case.2, case.3)
}

#[test]
fn other_bytes_stand_in_comments_alone(rt: HostRuntime) -> Result<(), Fail> {
    for case in &CASES {
        has_answer(&rt, case)?;
    }
    Ok(())
}
