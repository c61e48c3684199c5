//! Pieces of a text.
ghost use Rattle.std.specs.Prelude.{◌≡◌, ◌++◌, OnOk};
ghost use Rattle.std.specs.Fmt.{decimal};

use chan_base::Memory;
use std::alloc::Global;

pub(crate) fn put(text: &mut Vec<u8>, piece: &[u8]) -> Result<(), Memory>
    ensures { OnOk result (text.new.items ≡ text.old.items ++ piece.now) }
{
    text.extend_from_slice(piece)?;
    Ok(())
}

/// Adds the piece, and then the number.
pub(crate) fn put_numbered(
    alloc: Global,
    text: &mut Vec<u8>,
    piece: &[u8],
    number: u32,
) -> Result<(), Memory>
    ensures { OnOk result (text.new.items ≡ text.old.items ++ (piece.now ++ decimal number)) }
{
    text.extend_from_slice(piece)?;
    let number = number.to_string(alloc)?;
    text.extend_from_slice(number.as_bytes())?;
    Ok(())
}
