//! Certificates of what is written as one.
ghost use Rattle.std.specs.Prelude.{◌≡◌, ◌<◌, ◌^◌, All, length, map, unsigned_abs, IfOk};
ghost use Rattle.farkas_check.specs.declared.cert.Mention.{Mention};
ghost use Rattle.chan_syntax.specs.Reading.{mention_of, cert_of};
ghost use Rattle.chan_syntax.specs.Bounds.{IsSmall, IsBounded, mention_in, cert_in};

use crate::operands::{WrittenCert, WrittenMention, WrittenMentions};
use chan_base::Memory;
use farkas_check::{Cert, Mention, Mentions};
use sqlite_items::Items;
use std::alloc::Global;

impl WrittenMention {
    fn mention(&self) -> Mention
        requires { IsSmall self.now }
        ensures same { mention_in result ≡ mention_of self.now }
        ensures bounded { unsigned_abs result.factor < 2 ^ 31 }
    {
        let factor = self.factor as i64;
        Mention {
            factor: if self.negative { -factor } else { factor },
            index: self.index as u32,
        }
    }
}

fn mentions(alloc: Global, written: &WrittenMentions) -> Result<Mentions, Memory>
    requires { All IsSmall written.now }
    ensures same { IfOk result (λ all. map mention_in all ≡ map mention_of written.now) }
    ensures count { IfOk result (λ all. length all ≡ length written.now) }
    ensures bounded { IfOk result (λ all. All (λ m. unsigned_abs m.factor < 2 ^ 31) all) }
{
    let mut all = Items::new(alloc);
    for mention in written.as_slice() {
        all.push(mention.mention())?;
    }
    Ok(all)
}

impl WrittenCert {
    /// The certificate of these numbers.
    pub fn cert(&self, alloc: Global) -> Result<Cert, Memory>
        requires { IsBounded self.now }
        ensures { IfOk result (λ cert. cert_in cert ≡ cert_of self.now) }
    {
        Ok(Cert {
            divisor: self.divisor as u32,
            mentions: mentions(alloc, &self.mentions)?,
        })
    }
}
