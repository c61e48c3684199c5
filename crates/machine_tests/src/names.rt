//! Names and their texts.
use chan_base::Name;
use std::test::Fail;

#[test]
fn names_tell_which_fork_they_are(rt: HostRuntime) -> Result<(), Fail> {
    let main = Name::root();
    let child = main.child(rt.alloc(), 0)?;
    let grandchild = child.child(rt.alloc(), 4294967295)?;
    let copy = grandchild.copy()?;
    assert_eq!(rt; main.text(rt.alloc())?.as_slice(), b"main".as_slice());
    assert_eq!(rt;
        copy.text(rt.alloc())?.as_slice(),
        b"main.0.4294967295".as_slice()
    );
    assert_eq!(rt; copy.parts(), 2);
    assert!(rt; main < child && child < copy);
    Ok(())
}
