//! Why there is no form or row.
ghost use Rattle.std.specs.Prelude.{◌≡◌};

use chan_base::Memory;
use std::alloc::AllocError;

#[derive(Drop)]
pub enum FormFault {
    /// A number leaves 64 bits.
    TooLarge,
    Memory,
}

impl From<AllocError> for FormFault {
    ghost use Rattle.nameless_forms.specs.declared.faults.FormFault.TheVariants as cause;

    ghost from_gives = { λ _ fault. fault ≡ cause.Memory };

    fn from(_: AllocError) -> FormFault {
        FormFault::Memory
    }
}

impl From<Memory> for FormFault {
    ghost use Rattle.nameless_forms.specs.declared.faults.FormFault.TheVariants as cause;

    ghost from_gives = { λ _ fault. fault ≡ cause.Memory };

    fn from(_: Memory) -> FormFault {
        FormFault::Memory
    }
}
