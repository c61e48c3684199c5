//! Why an end isn't followed to its message.
ghost use Rattle.std.specs.Prelude.{◌≡◌};

use chan_base::Memory;
use farkas_check::CertFault;
use std::alloc::AllocError;
use substitution::SubstFault;

#[derive(Clone, Copy)]
pub enum UnfoldFault {
    /// The letters are fewer or more than the `if` equations on the way.
    WrongForm,
    /// No certificate is left for a letter.
    CertCount,
    /// What a letter asks for, and why the certificate with this number doesn't show it.
    BranchNotProved(u32, CertFault),
    /// A number of a term or of a row leaves 64 bits.
    TooLarge,
    Memory,
}

impl From<AllocError> for UnfoldFault {
    ghost use Rattle.protocols.specs.declared.faults.UnfoldFault.TheVariants as cause;

    ghost from_gives = { λ _ fault. fault ≡ cause.Memory };

    fn from(_: AllocError) -> UnfoldFault {
        UnfoldFault::Memory
    }
}

impl From<Memory> for UnfoldFault {
    ghost use Rattle.protocols.specs.declared.faults.UnfoldFault.TheVariants as cause;

    ghost from_gives = { λ _ fault. fault ≡ cause.Memory };

    fn from(_: Memory) -> UnfoldFault {
        UnfoldFault::Memory
    }
}

impl From<SubstFault> for UnfoldFault {
    ghost use Rattle.protocols.specs.FaultsOf.{fault_of};

    ghost from_gives = { λ from fault. fault ≡ fault_of from };

    fn from(fault: SubstFault) -> UnfoldFault {
        match fault {
            SubstFault::TooLarge => UnfoldFault::TooLarge,
            SubstFault::Memory => UnfoldFault::Memory,
        }
    }
}
