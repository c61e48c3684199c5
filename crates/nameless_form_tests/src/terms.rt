//! Terms in which two names stand for forms.
ghost use Rattle.std.specs.Prelude.{◌≡◌, nat_eq, if◌then◌else◌};
ghost use Rattle.std.specs.Cmp.Lexicographic.{pointwise};
ghost use Rattle.nameless_forms.specs.Standings.{standing_of};

use chan_base::{Memory, Span};
use chan_syntax::{Ident, Part, Term};
use nameless_forms::{Form, FormFault, Names, Standing, Var, form_of_term};
use sqlite_items::Items;
use std::alloc::Global;

const NOWHERE: Span = Span {
    start: 0,
    stop: 0,
    line: 1,
    column: 1,
};

/// A name of one letter that counts so often, or a bare number at `NONE`.
pub(crate) type Times = (i64, u8);

/// No name.
pub(crate) const NONE: u8 = 0;

/// One name, and all others.
#[derive(Drop)]
struct Letters {
    name: Ident,
    named: Form,
    other: Form,
}

impl Names for Letters {
    ghost stands_for = { λ letters name. if pointwise nat_eq name letters.name then letters.named else letters.other };

    fn standing(&self, name: &Ident) -> Standing<'_> {
        if *name == self.name {
            Standing::Whole(&self.named)
        } else {
            Standing::Whole(&self.other)
        }
    }
}

/// `n` is the first of three integer variables, and any other name the last.
fn two_letters(alloc: Global) -> Result<Letters, Memory> {
    let name = Ident::from_slice(alloc, b"n")?;
    let named = Form::variable(alloc, Var::free(0))?;
    let other = Form::variable(alloc, Var::free(2))?;
    Ok(Letters { name, named, other })
}

fn part(alloc: Global, times: &Times) -> Result<Part, Memory> {
    let name = if times.1 == NONE {
        None
    } else {
        Some(Ident::from_slice(alloc, &[times.1])?)
    };
    Ok(Part {
        negative: false,
        factor: times.0,
        name,
        name_span: None,
    })
}

fn term(alloc: Global, times: &[Times]) -> Result<Term, Memory> {
    let mut parts = Items::new(alloc);
    for one in times {
        parts.push(part(alloc, one)?)?;
    }
    Ok(Term {
        parts,
        span: NOWHERE,
    })
}

pub(crate) fn form(alloc: Global, times: &[Times]) -> Result<Form, FormFault> {
    let term = term(alloc, times)?;
    let letters = two_letters(alloc)?;
    form_of_term(alloc, &letters, &term)
}
