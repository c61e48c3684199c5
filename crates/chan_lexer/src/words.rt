//! Which words are keywords and marks, and which bytes go on in a word.

ghost use Rattle.std.specs.Prelude.{◌≡◌, ◌+◌, ◌≤◌, ◌<◌, ◌^◌, ◌-◌, min, length};
ghost use Rattle.std.specs.List.{prefix_len, list_any};
ghost use Rattle.std.specs.Str.{bytes_eq};
ghost use Rattle.chan_lexer.specs.Class as class_spec;
ghost use Rattle.text_tokens.specs.Word as spec;

const KEYWORDS: [&[u8]; 39] = [
    b"proto", b"fn", b"let", b"fork", b"do", b"send1", b"recv1", b"send", b"recv", b"close",
    b"wait", b"left", b"right", b"branch", b"print", b"if", b"else", b"match", b"absurd", b"ret",
    b"loop", b"again", b"with", b"by", b"via", b"then", b"choice", b"offer", b"of", b"as", b"int",
    b"unit", b"end", b"sum", b"inl", b"inr", b"mul", b"div", b"rem",
];

const MARKS: [&[u8]; 19] = [
    b"(", b")", b"[", b"]", b"{", b"}", b",", b";", b":", b"=", b"~", b"#", b"|", b"+", b"-", b"*",
    b"<", b"<=", b"->",
];

#[derive(Clone, Copy, Debug)]
pub enum Class {
    /// What a name goes on with.
    Name,
    Digit,
    /// What a line goes on with.
    Line,
}

pub fn is_in(class: Class, b: u8) -> bool
    ensures { result ≡ class_spec.is_in class b }
{
    match class {
        Class::Name => b.is_ascii_alphanumeric() || b == b'_',
        Class::Digit => b.is_ascii_digit(),
        Class::Line => b != b'\n',
    }
}

pub fn begins_name(b: u8) -> bool
    ensures { result ≡ spec.begins_name b }
{
    b.is_ascii_alphabetic() || b == b'_'
}

/// How many bytes of the class a text begins with.
pub fn front_len(class: Class, text: &[u8]) -> usize
    ensures { result ≡ prefix_len (class_spec.is_in class) text.now }
{
    let mut len = 0;
    while len < text.len() && is_in(class, text[len]) {
        len += 1;
    }
    len
}

fn contains(words: &[&[u8]], word: &[u8]) -> bool
    ensures { result ≡ list_any (λ w. bytes_eq word.now w.now) words.entry.now }
{
    words.iter().any(|w| word == *w)
}

pub fn is_keyword(word: &[u8]) -> bool
    ensures { result ≡ spec.is_keyword word.now }
{
    contains(&KEYWORDS, word)
}

pub fn is_mark(word: &[u8]) -> bool
    ensures { result ≡ spec.is_mark word.now }
{
    contains(&MARKS, word)
}

/// The number that digits spell, at most `u64::MAX`.
pub fn value_of(digits: &[u8]) -> u64
    ensures { result ≡ min (spec.value_of digits.now) (2 ^ 64 - 1) }
{
    let mut value = 0u64;
    for b in digits {
        let digit = u64::from(b.saturating_sub(b'0'));
        value = value.saturating_mul(10).saturating_add(digit);
    }
    value
}
