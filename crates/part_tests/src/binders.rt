//! Limits without names.
use crate::printing::{absurd, func, limit_alone, printed, sending};
use crate::rows::is_told;
use crate::trees::{no_bound, unit};
use chan_base::Memory;
use chan_syntax::{Bound, Ident};
use sqlite_items::Boxed;
use std::alloc::Global;
use std::test::Fail;

fn binders(alloc: Global, has_limit: bool) -> Result<Bound, Memory> {
    if has_limit {
        return limit_alone(alloc);
    }
    Ok(no_bound(alloc))
}

/// A function without names, under a limit or none.
fn header(alloc: Global, has_limit: bool) -> Result<Vec<u8>, Memory> {
    let name = Ident::from_slice(alloc, b"f")?;
    let bound = binders(alloc, has_limit)?;
    let last = Boxed::new(alloc, absurd(alloc))?;
    printed(alloc, func(alloc, name, bound, last))
}

/// A protocol that sends nothing, under a limit or none.
fn message(alloc: Global, has_limit: bool) -> Result<Vec<u8>, Memory> {
    let name = Ident::from_slice(alloc, b"P")?;
    let bound = binders(alloc, has_limit)?;
    printed(alloc, sending(alloc, name, unit(bound)))
}

#[test]
fn limits_without_names_are_written(rt: HostRuntime) -> Result<(), Fail> {
    let wanted = b"fn f [: 0 <= 0]() -> unit {\n    absurd\n}\n";
    is_told(&rt, header(rt.alloc(), true), wanted)?;
    let wanted = b"proto P() = send [: 0 <= 0] unit;\n";
    is_told(&rt, message(rt.alloc(), true), wanted)
}

#[test]
fn no_binders_have_no_brackets(rt: HostRuntime) -> Result<(), Fail> {
    let wanted = b"fn f() -> unit {\n    absurd\n}\n";
    is_told(&rt, header(rt.alloc(), false), wanted)?;
    is_told(&rt, message(rt.alloc(), false), b"proto P() = send unit;\n")
}
