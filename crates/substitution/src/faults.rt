//! Why terms can't be put in.
ghost use Rattle.std.specs.Prelude.{◌≡◌};

use chan_base::Memory;
use std::alloc::AllocError;

#[derive(Debug, Drop)]
pub enum SubstFault {
    /// A number of a normal form leaves 64 bits.
    TooLarge,
    Memory,
}

impl From<AllocError> for SubstFault {
    ghost use Rattle.substitution.specs.declared.faults.SubstFault.TheVariants as cause;

    ghost from_gives = { λ _ fault. fault ≡ cause.Memory };

    fn from(_: AllocError) -> SubstFault {
        SubstFault::Memory
    }
}

impl From<Memory> for SubstFault {
    ghost use Rattle.substitution.specs.declared.faults.SubstFault.TheVariants as cause;

    ghost from_gives = { λ _ fault. fault ≡ cause.Memory };

    fn from(_: Memory) -> SubstFault {
        SubstFault::Memory
    }
}
