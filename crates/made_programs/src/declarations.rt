//! The declarations of the program.
ghost use Rattle.std.specs.Prelude.{◌≡◌, ◌++◌, OnOk};
ghost use Rattle.made_programs.specs.Texts as spec;

use crate::pieces::put;
use chan_base::Memory;

const PROTOCOLS: &[u8] = b"proto One(n) = recv int(n);
proto Give() = recv end One(7);
proto Sum() = recv [s] int(s);
";

const SEED: &[u8] = b"fn seed [n](y: end ~One(n), a: int(n)) -> unit {
    send1 y a;
    ret ()
}
";

const STAGE: &[u8] = b"fn stage [n](y: end ~One(n + 1), c: end One(n)) -> unit {
    let v = recv1 c;
    let w = v + 1;
    send1 y w;
    ret ()
}
";

const GIVER: &[u8] = b"fn giver(y: end ~Give(), h: end One(7)) -> unit {
    send1 y h;
    ret ()
}
";

const PASS: &[u8] = b"fn pass(y: end ~Give(), c: end Give()) -> unit {
    let e = recv1 c;
    send1 y e;
    ret ()
}
";

const TREE: &[u8] = b"fn tree [n: 0 <= n](y: end ~Sum(), d: int(n)) -> unit {
    if d <= 0 {
        send1 y 1 with [1];
        ret ()
    } else {
        let e = d - 1;
        let a = fork Sum() tree(e) with [n - 1] by [{1 #1}];
        let b = fork Sum() tree(e) with [n - 1] by [{1 #1}];
        let u [s] = recv1 a;
        let w [t] = recv1 b;
        let z = u + w;
        send1 y z with [s + t];
        ret ()
    }
}
";

/// Adds the declarations, which are the same for each number.
pub(crate) fn put_declarations(text: &mut Vec<u8>) -> Result<(), Memory>
    ensures { OnOk result (text.new.items ≡ text.old.items ++ spec.declarations) }
{
    put(text, PROTOCOLS)?;
    put(text, SEED)?;
    put(text, STAGE)?;
    put(text, GIVER)?;
    put(text, PASS)?;
    put(text, TREE)
}
