//! The text of a program.
ghost use Rattle.std.specs.Prelude.{◌≡◌, IfOk};
ghost use Rattle.surface_spelling.specs.Spelling.{spelling};

use crate::declarations::put_declarations;
use chan_base::{Bytes, Memory};
use chan_syntax::Surface;
use std::alloc::Global;

/// Comments, places and the layout of the text that was read are not kept.
#[tactic(auto, unfolding(surface_spelling::specs::Spelling::spelling, surface_spelling::specs::Spelling::program))]
pub fn print(alloc: Global, surface: &Surface) -> Result<Bytes, Memory>
    ensures { IfOk result (λ text. text ≡ spelling surface.now) }
{
    let mut text = Vec::new(alloc);
    put_declarations(alloc, &mut text, surface.decls.as_slice())?;
    Ok(Bytes::from_vec(text))
}
