//! Places in a text.

ghost use Rattle.std.specs.Prelude.{◌≡◌, ◌<◌, ◌+◌, ◌^◌, []};
ghost use Rattle.chan_lexer.specs.Place as spec;

use chan_base::Span;

/// What lines and columns count from.
const FIRST: u32 = 1;

#[derive(Clone, Copy, Debug)]
pub struct Place {
    pub at: u32,
    pub line: u32,
    pub column: u32,
}

impl Place {
    pub fn start() -> Place
        ensures { result ≡ spec.place_behind [] }
    {
        Place {
            at: 0,
            line: FIRST,
            column: FIRST,
        }
    }

    pub fn span(self, len: usize) -> Span
        requires { self.at + len < 2 ^ 32 }
        ensures { result ≡ spec.span self len }
    {
        Span {
            start: self.at,
            stop: self.at + len as u32,
            line: self.line,
            column: self.column,
        }
    }

    /// Some bytes further in the line.
    pub fn along(self, len: usize) -> Place
        requires at { self.at + len < 2 ^ 32 }
        requires column { self.column + len < 2 ^ 32 }
        ensures { result ≡ spec.along self len }
    {
        Place {
            at: self.at + len as u32,
            line: self.line,
            column: self.column + len as u32,
        }
    }

    pub fn next_line(self) -> Place
        requires at { self.at + 1 < 2 ^ 32 }
        requires line { self.line + 1 < 2 ^ 32 }
        ensures { result ≡ spec.next_line self }
    {
        Place {
            at: self.at + 1,
            line: self.line + 1,
            column: FIRST,
        }
    }
}
