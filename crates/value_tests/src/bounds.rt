//! Whether the certificates of a text are bounded.
ghost use Rattle.std.specs.Prelude.{◌≡◌, true, All};
ghost use Rattle.chan_syntax.specs.Bounds.{IsSmall, IsBounded};

use chan_syntax::{WrittenCert, WrittenMention};

const END: u64 = 2147483648;

fn is_small(mention: &WrittenMention) -> bool
    ensures { result ≡ true → IsSmall mention.now }
{
    mention.factor < END && mention.index < END
}

fn are_small(mentions: &[WrittenMention]) -> bool
    ensures { result ≡ true → All IsSmall mentions.now }
{
    for mention in mentions {
        if !is_small(mention) {
            return false;
        }
    }
    true
}

fn is_bounded(cert: &WrittenCert) -> bool
    ensures { result ≡ true → IsBounded cert.now }
{
    1 <= cert.divisor
        && cert.divisor < END
        && cert.mentions.len() <= 256
        && are_small(cert.mentions.as_slice())
}

pub(crate) fn are_bounded(certs: &[WrittenCert]) -> bool
    ensures { result ≡ true → All IsBounded certs.now }
{
    for cert in certs {
        if !is_bounded(cert) {
            return false;
        }
    }
    true
}
