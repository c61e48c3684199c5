//! Certificates and proofs.

ghost use Rattle.std.specs.Prelude.{◌≡◌, IfOk};
ghost use Rattle.surface_grammar.specs.Language.{At};
ghost use Rattle.surface_grammar.specs.Operands as spec;
ghost use Rattle.token_cursor.specs.Syntax.{Answers};

use crate::terms::terms;
use chan_base::Span;
use chan_syntax::{Certs, Proof, Terms, WrittenCert, WrittenMention, WrittenMentions};
use sqlite_items::Items;
use std::alloc::{AllocError, Global};
use surface_grammar::{BehindNumber, CertParts, Digits, Word};
use token_cursor::{Cursor, Stop};

fn mention_of(negative: bool, factor: Digits, index: Digits, span: Span) -> WrittenMention
    ensures { result ≡ spec.mention_of negative factor index span }
{
    WrittenMention {
        negative,
        factor: factor.value,
        factor_span: factor.span,
        index: index.value,
        index_span: index.span,
        span,
    }
}

fn span_to(first: Span, last: Span) -> Span
    ensures { result ≡ spec.span_to first last }
{
    Span {
        start: first.start,
        stop: last.stop,
        line: first.line,
        column: first.column,
    }
}

#[tactic(auto, unfolding(surface_grammar::specs::Operands::ratio, token_cursor::specs::Syntax::skip, token_cursor::specs::Syntax::number_at, surface_grammar::specs::Grammar::number))]
fn ratio(cursor: &mut Cursor<'_>, depth: usize) -> Result<(Digits, Digits), Stop>
    ensures { Answers (At depth spec.ratio cursor.old) result cursor.new }
{
    let factor = cursor.number()?;
    cursor.skip(Word::Hash)?;
    let index = cursor.number()?;
    Ok((factor, index))
}

#[tactic(auto, unfolding(surface_grammar::specs::Operands::minus_mention, token_cursor::specs::Syntax::skip))]
fn minus_mention(cursor: &mut Cursor<'_>, depth: usize) -> Result<WrittenMention, Stop>
    ensures { Answers (At depth spec.minus_mention cursor.old) result cursor.new }
{
    let start = cursor.mark();
    cursor.skip(Word::Minus)?;
    let (factor, index) = ratio(cursor, depth)?;
    Ok(mention_of(true, factor, index, cursor.since(&start)))
}

#[tactic(auto, unfolding(surface_grammar::specs::Operands::plain_mention))]
fn plain_mention(cursor: &mut Cursor<'_>, depth: usize) -> Result<WrittenMention, Stop>
    ensures { Answers (At depth spec.plain_mention cursor.old) result cursor.new }
{
    let start = cursor.mark();
    let (factor, index) = ratio(cursor, depth)?;
    Ok(mention_of(false, factor, index, cursor.since(&start)))
}

#[tactic(auto, unfolding(surface_grammar::specs::Operands::mention, token_cursor::specs::Syntax::sees))]
fn mention(cursor: &mut Cursor<'_>, depth: usize) -> Result<WrittenMention, Stop>
    ensures { Answers (At depth spec.mention cursor.old) result cursor.new }
{
    if cursor.sees(Word::Minus) {
        minus_mention(cursor, depth)
    } else {
        plain_mention(cursor, depth)
    }
}

#[tactic(auto, unfolding(surface_grammar::specs::Operands::mentions, token_cursor::specs::Syntax::sees, token_cursor::specs::Syntax::skip))]
fn mentions(cursor: &mut Cursor<'_>, depth: usize) -> Result<WrittenMentions, Stop>
    ensures { Answers (At depth spec.mentions cursor.old) result cursor.new }
{
    let mut found = Items::new(cursor.alloc());
    found.push(mention(cursor, depth)?)?;
    for _turn in 0..cursor.left() {
        if !cursor.sees(Word::Comma) {
            return Ok(found);
        }
        cursor.skip(Word::Comma)?;
        found.push(mention(cursor, depth)?)?;
    }
    Ok(found)
}

#[tactic(auto, using(token_cursor::proofs::Turns::one_more, token_cursor::proofs::Turns::no_more), unfolding(surface_grammar::specs::Operands::more_mentions, token_cursor::specs::Syntax::sees, token_cursor::specs::Syntax::skip))]
fn more_mentions(cursor: &mut Cursor<'_>, depth: usize) -> Result<WrittenMentions, Stop>
    ensures { Answers (At depth spec.more_mentions cursor.old) result cursor.new }
{
    let mut found = Items::new(cursor.alloc());
    for _turn in 0..cursor.left() {
        if !cursor.sees(Word::Comma) {
            return Ok(found);
        }
        cursor.skip(Word::Comma)?;
        found.push(mention(cursor, depth)?)?;
    }
    Ok(found)
}

#[tactic(auto, unfolding(surface_grammar::specs::Operands::mentions_to_brace, token_cursor::specs::Syntax::sees, token_cursor::specs::Syntax::skip))]
fn mentions_to_brace(cursor: &mut Cursor<'_>, depth: usize) -> Result<WrittenMentions, Stop>
    ensures { Answers (At depth spec.mentions_to_brace cursor.old) result cursor.new }
{
    if cursor.sees(Word::RightBrace) {
        cursor.skip(Word::RightBrace)?;
        return Ok(Items::new(cursor.alloc()));
    }
    let mentions = mentions(cursor, depth)?;
    cursor.skip(Word::RightBrace)?;
    Ok(mentions)
}

#[tactic(auto, unfolding(surface_grammar::specs::Operands::behind_number, token_cursor::specs::Syntax::sees, token_cursor::specs::Syntax::skip, token_cursor::specs::Syntax::number_at, surface_grammar::specs::Grammar::number))]
fn behind_number(cursor: &mut Cursor<'_>, depth: usize) -> Result<BehindNumber, Stop>
    ensures { Answers (At depth spec.behind_number cursor.old) result cursor.new }
{
    if cursor.sees(Word::Colon) {
        cursor.skip(Word::Colon)?;
        Ok(BehindNumber::Mentions(mentions_to_brace(cursor, depth)?))
    } else {
        cursor.skip(Word::Hash)?;
        let index = cursor.number()?;
        let more = more_mentions(cursor, depth)?;
        cursor.skip(Word::RightBrace)?;
        Ok(BehindNumber::Mention(index, more))
    }
}

fn numbered(alloc: Global, number: Digits, behind: BehindNumber) -> Result<CertParts, AllocError>
    ensures { IfOk result (λ parts. parts ≡ spec.numbered number behind) }
{
    match behind {
        BehindNumber::Mentions(mentions) => Ok(CertParts {
            divisor: Some(number),
            mentions,
        }),
        BehindNumber::Mention(index, more) => {
            let span = span_to(number.span, index.span);
            let mut mentions = Items::new(alloc);
            mentions.push(mention_of(false, number, index, span))?;
            mentions.append(more)?;
            Ok(CertParts {
                divisor: None,
                mentions,
            })
        }
    }
}

#[tactic(auto, unfolding(surface_grammar::specs::Operands::minus_mentions, token_cursor::specs::Syntax::sees, token_cursor::specs::Syntax::skip))]
fn minus_mentions(cursor: &mut Cursor<'_>, depth: usize) -> Result<WrittenMentions, Stop>
    ensures { Answers (At depth spec.minus_mentions cursor.old) result cursor.new }
{
    if cursor.sees(Word::RightBrace) {
        cursor.skip(Word::RightBrace)?;
        return Ok(Items::new(cursor.alloc()));
    }
    let first = minus_mention(cursor, depth)?;
    let mut mentions = Items::new(cursor.alloc());
    mentions.push(first)?;
    mentions.append(more_mentions(cursor, depth)?)?;
    cursor.skip(Word::RightBrace)?;
    Ok(mentions)
}

#[tactic(auto, unfolding(surface_grammar::specs::Operands::cert_parts, token_cursor::specs::Syntax::sees_number, token_cursor::specs::Syntax::number_at, surface_grammar::specs::Grammar::number))]
fn cert_parts(cursor: &mut Cursor<'_>, depth: usize) -> Result<CertParts, Stop>
    ensures { Answers (At depth spec.cert_parts cursor.old) result cursor.new }
{
    if cursor.sees_number() {
        let number = cursor.number()?;
        let behind = behind_number(cursor, depth)?;
        Ok(numbered(cursor.alloc(), number, behind)?)
    } else {
        Ok(CertParts {
            divisor: None,
            mentions: minus_mentions(cursor, depth)?,
        })
    }
}

fn cert_with(divisor: Option<Digits>, mentions: WrittenMentions, span: Span) -> WrittenCert
    ensures { result ≡ spec.cert_with divisor mentions span }
{
    match divisor {
        None => WrittenCert {
            divisor: 1,
            divisor_span: None,
            mentions,
            span,
        },
        Some(digits) => WrittenCert {
            divisor: digits.value,
            divisor_span: Some(digits.span),
            mentions,
            span,
        },
    }
}

#[tactic(auto, using(token_cursor::proofs::Opens::opens_brace), unfolding(surface_grammar::specs::Operands::cert))]
fn cert(cursor: &mut Cursor<'_>, depth: usize) -> Result<WrittenCert, Stop>
    ensures { Answers (At depth spec.cert cursor.old) result cursor.new }
{
    let start = cursor.mark();
    let inner = cursor.open(Word::LeftBrace, depth)?;
    let parts = cert_parts(cursor, inner)?;
    let span = cursor.since(&start);
    Ok(cert_with(parts.divisor, parts.mentions, span))
}

#[tactic(auto, unfolding(surface_grammar::specs::Operands::certs, token_cursor::specs::Syntax::sees, token_cursor::specs::Syntax::skip))]
fn certs(cursor: &mut Cursor<'_>, depth: usize) -> Result<Certs, Stop>
    ensures { Answers (At depth spec.certs cursor.old) result cursor.new }
{
    let mut found = Items::new(cursor.alloc());
    found.push(cert(cursor, depth)?)?;
    for _turn in 0..cursor.left() {
        if !cursor.sees(Word::Comma) {
            return Ok(found);
        }
        cursor.skip(Word::Comma)?;
        found.push(cert(cursor, depth)?)?;
    }
    Ok(found)
}

#[tactic(auto, using(token_cursor::proofs::Opens::opens_bracket), unfolding(surface_grammar::specs::Operands::bracketed_terms, token_cursor::specs::Syntax::sees, token_cursor::specs::Syntax::skip))]
fn bracketed_terms(cursor: &mut Cursor<'_>, depth: usize) -> Result<Terms, Stop>
    ensures { Answers (At depth spec.bracketed_terms cursor.old) result cursor.new }
{
    let depth = cursor.open(Word::LeftBracket, depth)?;
    if cursor.sees(Word::RightBracket) {
        cursor.skip(Word::RightBracket)?;
        return Ok(Items::new(cursor.alloc()));
    }
    let terms = terms(cursor, depth)?;
    cursor.skip(Word::RightBracket)?;
    Ok(terms)
}

#[tactic(auto, using(token_cursor::proofs::Opens::opens_bracket), unfolding(surface_grammar::specs::Operands::bracketed_certs, token_cursor::specs::Syntax::sees, token_cursor::specs::Syntax::skip))]
fn bracketed_certs(cursor: &mut Cursor<'_>, depth: usize) -> Result<Certs, Stop>
    ensures { Answers (At depth spec.bracketed_certs cursor.old) result cursor.new }
{
    let depth = cursor.open(Word::LeftBracket, depth)?;
    if cursor.sees(Word::RightBracket) {
        cursor.skip(Word::RightBracket)?;
        return Ok(Items::new(cursor.alloc()));
    }
    let certs = certs(cursor, depth)?;
    cursor.skip(Word::RightBracket)?;
    Ok(certs)
}

#[tactic(auto, unfolding(surface_grammar::specs::Operands::instances, token_cursor::specs::Syntax::sees, token_cursor::specs::Syntax::skip))]
fn instances(cursor: &mut Cursor<'_>, depth: usize) -> Result<Terms, Stop>
    ensures { Answers (At depth spec.instances cursor.old) result cursor.new }
{
    if cursor.sees(Word::With) {
        cursor.skip(Word::With)?;
        bracketed_terms(cursor, depth)
    } else {
        Ok(Items::new(cursor.alloc()))
    }
}

#[tactic(auto, unfolding(surface_grammar::specs::Operands::certificates, token_cursor::specs::Syntax::sees, token_cursor::specs::Syntax::skip))]
fn certificates(cursor: &mut Cursor<'_>, depth: usize) -> Result<Certs, Stop>
    ensures { Answers (At depth spec.certificates cursor.old) result cursor.new }
{
    if cursor.sees(Word::By) {
        cursor.skip(Word::By)?;
        bracketed_certs(cursor, depth)
    } else {
        Ok(Items::new(cursor.alloc()))
    }
}

/// Instances and certificates.
#[tactic(auto, unfolding(surface_grammar::specs::Operands::proof))]
pub fn proof(cursor: &mut Cursor<'_>, depth: usize) -> Result<Proof, Stop>
    ensures { Answers (At depth spec.proof cursor.old) result cursor.new }
{
    let instances = instances(cursor, depth)?;
    let certs = certificates(cursor, depth)?;
    Ok(Proof { instances, certs })
}
