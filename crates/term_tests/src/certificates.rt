//! Cases of certificates as they are written.
ghost use Rattle.std.specs.Prelude.{IfOk};
ghost use Rattle.chan_syntax.specs.Bounds.{IsBounded};

use crate::rows::is_told;
use crate::trees::NOWHERE;
use chan_base::Memory;
use chan_syntax::{WrittenCert, WrittenMention, WrittenMentions};
use farkas_check::{Cert, Mention};
use std::alloc::Global;
use std::test::Fail;
use tree_texts::{push, push_number};

/// `-3 #1`, divided by 2.
fn written(alloc: Global) -> Result<WrittenCert, Memory>
    ensures { IfOk result IsBounded }
{
    let mention = WrittenMention {
        negative: true,
        factor: 3,
        factor_span: NOWHERE,
        index: 1,
        index_span: NOWHERE,
        span: NOWHERE,
    };
    Ok(WrittenCert {
        divisor: 2,
        divisor_span: None,
        mentions: WrittenMentions::from_slice(alloc, &[mention])?,
        span: NOWHERE,
    })
}

fn push_mention(alloc: Global, out: &mut Vec<u8>, mention: &Mention) -> Result<(), Memory> {
    push_number(alloc, out, i128::from(mention.factor))?;
    push(out, b" #")?;
    push_number(alloc, out, i128::from(mention.index))?;
    push(out, b" / ")
}

/// The factors with their hypotheses, and the divisor.
fn told(alloc: Global, cert: &Cert) -> Result<Vec<u8>, Memory> {
    let mut out = Vec::new(alloc);
    for mention in cert.mentions.as_slice() {
        push_mention(alloc, &mut out, mention)?;
    }
    push_number(alloc, &mut out, i128::from(cert.divisor))?;
    Ok(out)
}

fn answer(alloc: Global) -> Result<Vec<u8>, Memory> {
    let written = written(alloc)?;
    told(alloc, &written.cert(alloc)?)
}

#[test]
fn a_written_certificate_keeps_its_numbers(rt: HostRuntime) -> Result<(), Fail> {
    is_told(&rt, answer(rt.alloc()), b"-3 #1 / 2")
}
