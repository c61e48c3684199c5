//! What is answered, against what has to be.
use chan_base::Memory;
use std::process::Abort;
use std::test::Fail;

/// The answer is this status with this output.
pub(crate) fn is_answered(
    rt: &(impl Abort + AllocGlobal),
    told: Result<(u8, Vec<u8>), Memory>,
    status: u8,
    want: &[u8],
) -> Result<(), Fail> {
    let (told, written) = told?;
    assert_eq!(rt; written.as_slice(), want);
    assert_eq!(rt; told, status);
    Ok(())
}
