//! The tokens that are left.

ghost use Rattle.std.specs.Prelude.{◌≡◌, ◌==◌, ◌<◌, ◌-◌, ℕ, List, length, take, map, IfOk};
ghost use Rattle.std.specs.List.{list_all, list_any};
ghost use Rattle.grammar_laws.specs.Grammar.{next_in};
ghost use Rattle.surface_grammar.specs.Grammar as grammar;
ghost use Rattle.surface_grammar.specs.Grammar.{cover};
ghost use Rattle.token_cursor.specs.Syntax as spec;
ghost use Rattle.surface_grammar.specs.Words.{code, code_of, name_code, number_code};
ghost use Rattle.chan_lexer.specs.Spelled.{spelled, spelled_token};
ghost use Rattle.token_cursor.specs.Syntax.{Answers};

use chan_base::Span;
use chan_lexer::{Token, TokenKind, text_at};
use chan_syntax::{Ident, Letter, Path};
use std::alloc::{AllocError, Global};
use std::marker::Model;
use surface_grammar::{Digits, Named, Route, Word, spelling};

/// Why a text is not read to its end. The cursor stands at the fault.
#[derive(Clone, Copy)]
pub enum Stop {
    Unexpected,
    TooDeep,
    Memory,
}

impl From<AllocError> for Stop {
    ghost use Rattle.std.specs.Prelude.{◌≡◌};
    ghost use Rattle.token_cursor.specs.declared.cursor.Stop.TheVariants.{Memory};

    ghost from_gives = { λ _ e. e ≡ Memory };

    fn from(_: AllocError) -> Stop {
        Stop::Memory
    }
}

#[derive(Drop)]
pub struct Cursor<'a> {
    alloc: Global,
    source: &'a [u8],
    rest: &'a [Token],
}

impl<'a> Model for Cursor<'a> {
    ghost use Rattle.std.specs.Prelude.{List};
    ghost use Rattle.text_tokens.specs.Text.{Token};
    ghost use Rattle.chan_lexer.specs.Spelled.{spelled};

    ghost Value = { List Token };

    ghost view = { λ c. spelled c.source.now c.rest.now };
}

#[tactic(auto, using(surface_grammar::proofs::WordCodes::word_code, surface_grammar::proofs::WordCodes::not_name, surface_grammar::proofs::WordCodes::not_number), unfolding(surface_grammar::specs::Words::code))]
fn is_word(source: &[u8], token: Token, word: Word) -> bool
    ensures { result ≡ (code (spelled_token source.now token) == code_of word) }
{
    match token.kind {
        TokenKind::Keyword | TokenKind::Mark => text_at(source, token.span) == spelling(word),
        TokenKind::Name | TokenKind::Number(_) => false,
    }
}

impl<'a> Cursor<'a> {
    pub fn new(alloc: Global, source: &'a [u8], rest: &'a [Token]) -> Cursor<'a>
        ensures { result ≡ spelled source.now rest.now }
    {
        Cursor {
            alloc,
            source,
            rest,
        }
    }

    pub fn alloc(&self) -> Global {
        self.alloc
    }

    /// How many tokens are left.
    pub fn left(&self) -> usize
        ensures { result ≡ length self.now }
    {
        self.rest.len()
    }

    /// The place of the token that comes next.
    pub fn next_span(&self) -> Option<Span>
        ensures { result ≡ spec.next_span self.now }
    {
        match self.rest.split_first() {
            None => None,
            Some((first, _)) => Some(first.span),
        }
    }

    /// The same place.
    pub fn mark(&self) -> Cursor<'a>
        ensures { result ≡ self.now }
    {
        Cursor {
            alloc: self.alloc,
            source: self.source,
            rest: self.rest,
        }
    }

    /// The place of what was read since `start` was marked.
    pub fn since(&self, start: &Cursor<'_>) -> Span
        ensures { result ≡ cover (take (length start.now - length self.now) start.now) }
    {
        span_of(&start.rest[..start.rest.len().saturating_sub(self.rest.len())])
    }

    /// Whether the word comes next.
    #[tactic(auto, unfolding(crate::specs::Syntax::sees))]
    pub fn sees(&self, word: Word) -> bool
        ensures { result ≡ spec.sees word self.now }
    {
        match self.rest.split_first() {
            None => false,
            Some((first, _)) => is_word(self.source, *first, word),
        }
    }

    /// Whether one of the words comes next.
    pub fn sees_any(&self, words: &[Word]) -> bool
        ensures { result ≡ next_in code (grammar.yes words.now) self.now }
    {
        match self.rest.split_first() {
            None => false,
            Some((first, _)) => is_among(self.source, *first, words),
        }
    }

    /// Whether a NAME comes next.
    #[tactic(auto, unfolding(crate::specs::Syntax::sees_name))]
    pub fn sees_name(&self) -> bool
        ensures { result ≡ spec.sees_name self.now }
    {
        match self.rest.split_first() {
            None => false,
            Some((first, _)) => is_name(self.source, *first),
        }
    }

    /// Whether a NUMBER comes next.
    #[tactic(auto, unfolding(crate::specs::Syntax::sees_number))]
    pub fn sees_number(&self) -> bool
        ensures { result ≡ spec.sees_number self.now }
    {
        match self.rest.split_first() {
            None => false,
            Some((first, _)) => is_number(self.source, *first),
        }
    }

    /// Takes the word.
    #[tactic(auto, unfolding(crate::specs::Syntax::skip))]
    pub fn skip(&mut self, word: Word) -> Result<(), Stop>
        ensures { Answers (spec.skip word self.old) result self.new }
    {
        match self.rest.split_first() {
            None => Err(Stop::Unexpected),
            Some((first, rest)) => {
                if is_word(self.source, *first, word) {
                    self.rest = rest;
                    Ok(())
                } else {
                    Err(Stop::Unexpected)
                }
            }
        }
    }

    /// Takes a word that opens a level, and tells how many more may be open behind it.
    #[tactic(auto, unfolding(crate::specs::Syntax::opening))]
    pub fn open(&mut self, word: Word, depth: usize) -> Result<usize, Stop>
        ensures answer { Answers (spec.opening word depth self.old) result self.new }
        ensures lower { IfOk result (λ inner. inner < depth) }
    {
        match self.rest.split_first() {
            None => Err(Stop::Unexpected),
            Some((first, rest)) => {
                if !is_word(self.source, *first, word) {
                    return Err(Stop::Unexpected);
                }
                if depth == 0 {
                    return Err(Stop::TooDeep);
                }
                self.rest = rest;
                Ok(depth - 1)
            }
        }
    }

    /// Takes a NAME.
    #[tactic(auto, unfolding(crate::specs::Syntax::name_at, surface_grammar::specs::Grammar::name))]
    pub fn name(&mut self) -> Result<Named, Stop>
        ensures { Answers (spec.name_at self.old) result self.new }
    {
        match self.rest.split_first() {
            None => Err(Stop::Unexpected),
            Some((first, rest)) => {
                if !is_name(self.source, *first) {
                    return Err(Stop::Unexpected);
                }
                let name = Ident::from_slice(self.alloc, text_at(self.source, first.span))?;
                self.rest = rest;
                Ok(Named {
                    name,
                    span: first.span,
                })
            }
        }
    }

    /// Takes a NUMBER.
    #[tactic(auto, unfolding(crate::specs::Syntax::number_at, surface_grammar::specs::Grammar::number))]
    pub fn number(&mut self) -> Result<Digits, Stop>
        ensures { Answers (spec.number_at self.old) result self.new }
    {
        match self.rest.split_first() {
            None => Err(Stop::Unexpected),
            Some((first, rest)) => {
                if !is_number(self.source, *first) {
                    return Err(Stop::Unexpected);
                }
                let value = number_of(first.kind);
                if value > LIMIT {
                    return Err(Stop::Unexpected);
                }
                self.rest = rest;
                Ok(Digits {
                    value,
                    span: first.span,
                })
            }
        }
    }

    /// Takes the NUMBER of an arm.
    #[tactic(auto, unfolding(crate::specs::Syntax::arm_number_at, surface_grammar::specs::Grammar::arm_number))]
    pub fn arm_number(&mut self) -> Result<u8, Stop>
        ensures { Answers (spec.arm_number_at self.old) result self.new }
    {
        match self.rest.split_first() {
            None => Err(Stop::Unexpected),
            Some((first, rest)) => {
                if !is_number(self.source, *first) {
                    return Err(Stop::Unexpected);
                }
                let value = number_of(first.kind);
                if value > LAST_ARM {
                    return Err(Stop::Unexpected);
                }
                self.rest = rest;
                Ok(value as u8)
            }
        }
    }

    /// Takes the NUMBER that is given.
    #[tactic(auto, unfolding(crate::specs::Syntax::the_number_at, surface_grammar::specs::Grammar::the_number))]
    pub fn the_number(&mut self, number: u64) -> Result<(), Stop>
        ensures { Answers (spec.the_number_at number self.old) result self.new }
    {
        match self.rest.split_first() {
            None => Err(Stop::Unexpected),
            Some((first, rest)) => {
                if !is_number(self.source, *first) {
                    return Err(Stop::Unexpected);
                }
                if number_of(first.kind) != number {
                    return Err(Stop::Unexpected);
                }
                self.rest = rest;
                Ok(())
            }
        }
    }

    /// Takes the letters of a path.
    #[tactic(auto, unfolding(crate::specs::Syntax::letters_at, surface_grammar::specs::Grammar::letters))]
    pub fn letters(&mut self) -> Result<Route, Stop>
        ensures { Answers (spec.letters_at self.old) result self.new }
    {
        match self.rest.split_first() {
            None => Err(Stop::Unexpected),
            Some((first, rest)) => {
                if !is_name(self.source, *first) {
                    return Err(Stop::Unexpected);
                }
                let text = text_at(self.source, first.span);
                if !are_letters(text) {
                    return Err(Stop::Unexpected);
                }
                let path = path(self.alloc, text)?;
                self.rest = rest;
                Ok(Route {
                    path,
                    span: Some(first.span),
                })
            }
        }
    }
}

/// How many arms a sum, a choice, a match or a branch may have beyond the first two.
pub const MORE_ARMS_THAN_TWO: usize = 14;

/// The greatest number of an arm.
const LAST_ARM: u64 = 15;

/// The largest NUMBER.
const LIMIT: u64 = 9_223_372_036_854_775_807;

fn is_among(source: &[u8], token: Token, words: &[Word]) -> bool
    ensures { result ≡ list_any (λ word. code (spelled_token source.now token) == code_of word) words.now }
{
    words.iter().any(|word| is_word(source, token, *word))
}

#[tactic(auto, using(surface_grammar::proofs::WordCodes::other_not_name), unfolding(surface_grammar::specs::Words::code))]
fn is_name(source: &[u8], token: Token) -> bool
    ensures { result ≡ (code (spelled_token source.now token) == name_code) }
{
    matches!(token.kind, TokenKind::Name)
}

#[tactic(auto, using(surface_grammar::proofs::WordCodes::other_not_number), unfolding(surface_grammar::specs::Words::code))]
fn is_number(source: &[u8], token: Token) -> bool
    ensures { result ≡ (code (spelled_token source.now token) == number_code) }
{
    matches!(token.kind, TokenKind::Number(_))
}

fn number_of(kind: TokenKind) -> u64
    ensures { result ≡ grammar.number_of kind }
{
    match kind {
        TokenKind::Number(value) => value,
        TokenKind::Name | TokenKind::Keyword | TokenKind::Mark => 0,
    }
}

fn are_letters(text: &[u8]) -> bool
    ensures { result ≡ list_all grammar.is_letter text.now }
{
    text.iter().all(|b| *b == b'l' || *b == b'r')
}

fn path(alloc: Global, text: &[u8]) -> Result<Path, AllocError>
    ensures { IfOk result (λ path. path ≡ map grammar.letter_of text.now) }
{
    let mut path = Path::new(alloc);
    for b in text {
        path.push(if *b == b'l' {
            Letter::Left
        } else {
            Letter::Right
        })?;
    }
    Ok(path)
}

#[tactic(auto, unfolding(surface_grammar::specs::Grammar::cover))]
fn span_of(used: &[Token]) -> Span
    ensures { (source : List ℕ) → result ≡ cover (spelled source used.now) }
{
    let Some(first) = used.first() else {
        return NOWHERE;
    };
    let Some(last) = used.last() else {
        return NOWHERE;
    };
    Span {
        start: first.span.start,
        stop: last.span.stop,
        line: first.span.line,
        column: first.span.column,
    }
}

const NOWHERE: Span = Span {
    start: 0,
    stop: 0,
    line: 0,
    column: 0,
};
