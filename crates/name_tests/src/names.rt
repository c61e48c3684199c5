//! Names that are read.
use chan_base::{Memory, Name};
use name_texts::read_name;
use std::alloc::Global;
use std::test::Fail;

/// Texts of no name.
static OTHERS: [&[u8]; 12] = [
    b"",
    b"mai",
    b"Main",
    b"main.",
    b"main.01",
    b"main.00",
    b"main..1",
    b"main.1.",
    b"main.-1",
    b"main.4294967296",
    b"main 1",
    b"main.+1",
];

/// Texts of names.
static NAMES: [&[u8]; 4] = [b"main", b"main.0", b"main.4294967295.0", b"main.10.200.3"];

/// Whether the text is read as the name that has it.
fn is_read(alloc: Global, text: &[u8]) -> Result<bool, Memory> {
    match read_name(alloc, text)? {
        Some(name) => {
            let written = name.text(alloc)?;
            Ok(written.as_slice() == text)
        }
        None => Ok(false),
    }
}

#[test]
fn texts_of_names_are_read(rt: HostRuntime) -> Result<(), Fail> {
    for text in NAMES.iter() {
        assert!(rt; is_read(rt.alloc(), text)?);
    }
    Ok(())
}

#[test]
fn other_texts_are_none(rt: HostRuntime) -> Result<(), Fail> {
    for text in OTHERS.iter() {
        assert!(rt; read_name(rt.alloc(), text)?.is_none());
    }
    Ok(())
}

/// A name of so many parts.
fn deep(alloc: Global, parts: u32) -> Result<Name, Memory> {
    let mut name = Name::root();
    for _ in 0..parts {
        name = name.child(alloc, 7)?;
    }
    Ok(name)
}

#[test]
fn a_name_has_at_most_1024_parts(rt: HostRuntime) -> Result<(), Fail> {
    let alloc = rt.alloc();
    let longest = deep(alloc, 1024)?.text(alloc)?;
    let longer = deep(alloc, 1025)?.text(alloc)?;
    assert!(rt; is_read(alloc, longest.as_slice())?);
    assert!(rt; read_name(alloc, longer.as_slice())?.is_none());
    Ok(())
}
