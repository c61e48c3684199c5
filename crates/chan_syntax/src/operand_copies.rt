//! Copies of what statements name.
ghost use Rattle.std.specs.Prelude.{◌≡◌, IfOk};

use crate::copies::{copy_names, copy_spans, copy_terms};
use crate::operands::{Certs, Pat, Path, Proof, Supplies, Supply, WrittenCert};
use chan_base::Memory;
use sqlite_items::{Boxed, Items};
use std::alloc::Global;

pub fn copy_path(alloc: Global, path: &Path) -> Result<Path, Memory>
    ensures { IfOk result (λ copy. copy ≡ path.now) }
{
    Ok(Items::from_slice(alloc, path.as_slice())?)
}

pub fn copy_supplies(alloc: Global, values: &Supplies) -> Result<Supplies, Memory>
    ensures { IfOk result (λ copy. copy ≡ values.now) }
{
    let mut copy = Items::new(alloc);
    for value in values.as_slice() {
        copy.push(value.copy(alloc)?)?;
    }
    Ok(copy)
}

fn copy_certs(alloc: Global, certs: &Certs) -> Result<Certs, Memory>
    ensures { IfOk result (λ copy. copy ≡ certs.now) }
{
    let mut copy = Items::new(alloc);
    for cert in certs.as_slice() {
        copy.push(cert.copy(alloc)?)?;
    }
    Ok(copy)
}

impl Supply {
    pub fn copy(&self, alloc: Global) -> Result<Supply, Memory>
        ensures { IfOk result (λ copy. copy ≡ self.now) }
    {
        match self {
            Supply::Unit => Ok(Supply::Unit),
            Supply::Pair(first, second) => {
                let first = Boxed::new(alloc, first.get().copy(alloc)?)?;
                let second = Boxed::new(alloc, second.get().copy(alloc)?)?;
                Ok(Supply::Pair(first, second))
            }
            Supply::Arm(number, value) => {
                let value = Boxed::new(alloc, value.get().copy(alloc)?)?;
                Ok(Supply::Arm(*number, value))
            }
            Supply::Sum(term) => Ok(Supply::Sum(term.copy(alloc)?)),
        }
    }
}

impl Pat {
    pub fn copy(&self, alloc: Global) -> Result<Pat, Memory>
        ensures { IfOk result (λ copy. copy ≡ self.now) }
    {
        Ok(Pat {
            name: self.name.copy()?,
            name_span: self.name_span,
            names: copy_names(alloc, &self.names)?,
            names_spans: copy_spans(alloc, &self.names_spans)?,
        })
    }
}

impl WrittenCert {
    pub fn copy(&self, alloc: Global) -> Result<WrittenCert, Memory>
        ensures { IfOk result (λ copy. copy ≡ self.now) }
    {
        Ok(WrittenCert {
            divisor: self.divisor,
            divisor_span: self.divisor_span,
            mentions: Items::from_slice(alloc, self.mentions.as_slice())?,
            span: self.span,
        })
    }
}

impl Proof {
    pub fn copy(&self, alloc: Global) -> Result<Proof, Memory>
        ensures { IfOk result (λ copy. copy ≡ self.now) }
    {
        Ok(Proof {
            instances: copy_terms(alloc, &self.instances)?,
            certs: copy_certs(alloc, &self.certs)?,
        })
    }
}
