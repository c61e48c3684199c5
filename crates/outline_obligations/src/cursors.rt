//! How much of a proof was taken, and what is left of it.
ghost use Rattle.std.specs.Prelude.{◌≡◌, Ok, Err, OnOk, IfErr};
ghost use Rattle.outline_language.specs.Contexts as spec;
ghost use Rattle.outline_obligations.specs.Cursors.{cursor_at};
ghost use Rattle.outline_obligations.specs.Reasons.{why_of};

use crate::faults::Why;
use chan_syntax::Proof;

/// How many instances and certificates of a proof were taken.
#[derive(Clone, Copy)]
pub struct Taken {
    pub instance: u32,
    pub cert: u32,
}

impl Taken {
    pub fn none() -> Taken
        ensures instance { result.instance ≡ 0 }
        ensures cert { result.cert ≡ 0 }
    {
        Taken {
            instance: 0,
            cert: 0,
        }
    }
}

/// What is said of a certificate that isn't valid: on a path it is another reason than elsewhere.
#[derive(Clone, Copy)]
pub enum Refused {
    Here,
    OnPath,
}

/// InstanceCount where instances are left, then CertCount where certificates are.
pub fn leftovers(proof: &Proof, taken: Taken) -> Result<(), Why>
    ensures ok { OnOk result (spec.leftovers (cursor_at proof.now taken) ≡ Ok spec.nothing) }
    ensures err { IfErr result (λ why. spec.leftovers (cursor_at proof.now taken) ≡ Err (why_of why)) }
{
    if (taken.instance as usize) < proof.instances.len() {
        return Err(Why::InstanceCount);
    }
    if (taken.cert as usize) < proof.certs.len() {
        return Err(Why::CertCount);
    }
    Ok(())
}
