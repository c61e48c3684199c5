//! The canonical spelling of programs.
#![tactic(auto)]

ghost use Rattle.std.specs.Prelude.{◌≡◌, []};
ghost use Rattle.chan_syntax.specs.declared.surface_tree.Surface.{Surface};
ghost use Rattle.surface_spelling.specs.Erased.{erase};
ghost use Rattle.surface_spelling.specs.Spelling as spec;

/// What holds of all spellings. It does nothing.
#[tactic(auto, using(crate::proofs::PlacesOfBlocks::places_aside), unfolding(crate::specs::Spelling::spelling, crate::specs::Spelling::program, crate::specs::Spelling::declarations, crate::specs::Layout::bytes))]
pub fn laws()
    ensures empty { spec.spelling (record { decls = [] }) ≡ [] }
    ensures places_aside { (s : Surface) → spec.spelling (erase s) ≡ spec.spelling s }
{}
