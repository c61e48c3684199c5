//! What is told of a case, against what has to be.
use chan_base::Memory;
use std::process::Abort;
use std::test::Fail;

/// The answer of a case is what its row says.
pub(crate) fn is_told(
    rt: &(impl Abort + AllocGlobal),
    told: Result<Vec<u8>, Memory>,
    want: &[u8],
) -> Result<(), Fail> {
    let told = told?;
    assert_eq!(rt; told.as_slice(), want);
    Ok(())
}
