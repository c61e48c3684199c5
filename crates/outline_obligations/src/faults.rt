//! Why a rule fails.
ghost use Rattle.std.specs.Prelude.{◌≡◌};

use chan_base::Memory;
use chan_syntax::Ident;
use farkas_check::CertFault;
use nameless_forms::FormFault;
use std::alloc::AllocError;

/// The first condition of a rule that fails.
#[derive(Drop)]
pub enum Why {
    /// The name of no entry that is held.
    NotHeld(Ident),
    /// A value, a shape or a path has another form than the rule asks for.
    WrongForm,
    /// The first held entry in which an end is left.
    Left(Ident),
    /// Instances, or names of a pattern, are fewer or more than binders.
    InstanceCount,
    /// Certificates are fewer or more than what asks for them.
    CertCount,
    /// The certificate with this number, and the first part of it that fails.
    NotProved(u32, CertFault),
    /// A number leaves 64 bits, or there would be more than 256 integer variables or hypotheses.
    TooLarge,
    /// The function may not be forked.
    ForkForm,
    /// As `NotProved`, for a letter of a path.
    BranchNotProved(u32, CertFault),
}

#[derive(Drop)]
pub enum ContextFault {
    Why(Why),
    Memory,
}

impl From<AllocError> for ContextFault {
    ghost use Rattle.outline_obligations.specs.declared.faults.ContextFault.TheVariants as cause;

    ghost from_gives = { λ _ fault. fault ≡ cause.Memory };

    fn from(_: AllocError) -> ContextFault {
        ContextFault::Memory
    }
}

impl From<Memory> for ContextFault {
    ghost use Rattle.outline_obligations.specs.declared.faults.ContextFault.TheVariants as cause;

    ghost from_gives = { λ _ fault. fault ≡ cause.Memory };

    fn from(_: Memory) -> ContextFault {
        ContextFault::Memory
    }
}

impl From<Why> for ContextFault {
    ghost use Rattle.outline_obligations.specs.declared.faults.ContextFault.TheVariants as cause;

    ghost from_gives = { λ why fault. fault ≡ cause.Why why };

    fn from(why: Why) -> ContextFault {
        ContextFault::Why(why)
    }
}

impl From<FormFault> for ContextFault {
    ghost use Rattle.outline_obligations.specs.Reasons.{fault_of};

    ghost from_gives = { λ from fault. fault ≡ fault_of from };

    fn from(fault: FormFault) -> ContextFault {
        match fault {
            FormFault::TooLarge => ContextFault::Why(Why::TooLarge),
            FormFault::Memory => ContextFault::Memory,
        }
    }
}
