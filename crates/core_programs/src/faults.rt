//! Why parts are no program.
ghost use Rattle.std.specs.Prelude.{◌≡◌};

use chan_base::Memory;
use form_faults::Ill;

#[derive(Drop)]
pub enum BuildFault {
    Ill(Ill),
    Memory,
}

impl From<Memory> for BuildFault {
    ghost use Rattle.core_programs.specs.declared.faults.BuildFault.TheVariants as fault;

    ghost from_gives = { λ _ f. f ≡ fault.Memory };

    fn from(_: Memory) -> BuildFault {
        BuildFault::Memory
    }
}
