//! Whole names.
ghost use Rattle.std.specs.Prelude.{◌≡◌, ◌<◌, ℕ, List, Option, Some, IfOk};
ghost use Rattle.chan_base.specs.Names.{name_text};
ghost use Rattle.name_texts.specs.Texts.{ArePartsOf, IsNameOf, IsShort};

use crate::parts::next_part;
use chan_base::{Memory, Name};
use std::alloc::Global;

/// A name has no more parts than this.
const MOST_PARTS: usize = 1024;

/// The name that has these parts. Each part copies those before it, of which there are not many.
fn read_parts(alloc: Global, text: &[u8]) -> Result<Option<Name>, Memory>
    ensures { IfOk result (ArePartsOf text.now) }
{
    let mut name = Name::root();
    let mut rest = text;
    'parts: while !rest.is_empty() && name.parts() < MOST_PARTS {
        let Some((part, more)) = next_part(rest) else {
            return Ok(None);
        };
        name = name.child(alloc, part)?;
        rest = more;
    }
    if rest.is_empty() {
        Ok(Some(name))
    } else {
        Ok(None)
    }
}

/// The name whose text this is: `main`, and then a dot and a decimal number for each part, without
/// zeros in front, at most 4294967295, and at most 1,024 of them.
pub fn read_name(alloc: Global, text: &[u8]) -> Result<Option<Name>, Memory>
    ensures { IfOk result (IsNameOf text.now) }
{
    if text.starts_with(b"main") {
        read_parts(alloc, &text[4..])
    } else {
        Ok(None)
    }
}

/// Reading the text of a name gives the name back.
pub fn laws()
    ensures { (name : List ℕ) (found : Option (List ℕ)) → IsShort name → IsNameOf (name_text name) found → found ≡ Some name }
{}
