//! The integers that terms mean.
ghost use Rattle.std.specs.Prelude.{◌≡◌, [], ◌∷◌, pos, map, unwrap_or, is_some, Ok, IfOk, IfErr};
ghost use Rattle.std.specs.List.{list_all};
ghost use Rattle.std.specs.Option.{option_copied, option_map};
ghost use Rattle.chan_syntax.specs.Reading.{part_of, term_of};
ghost use Rattle.linear_forms.specs.Normal.{names_of};
ghost use Rattle.nameless_forms.specs.Standings.{standing_of};
ghost use Rattle.outline_language.specs.LinearForms.{constant_form};
ghost use Rattle.outline_language.specs.Contexts as spec;
ghost use Rattle.outline_obligations.specs.Reasons.{IsReason};
ghost use Rattle.outline_contexts.specs.Trails.{context_in};

use crate::trail::Context;
use chan_syntax::{Ident, Part, Term};
use nameless_forms::{Form, Forms, Names, Standing, Var, form_of_term};
use nameless_shapes::{Node, Shape};
use outline_obligations::{ContextFault, Why};
use sqlite_items::Items;
use std::alloc::Global;

fn integer_of(shape: &Shape) -> Option<Standing<'_>>
    ensures { option_map standing_of result ≡ spec.int_of shape.now }
{
    match shape.get() {
        Node::Int(form) => Some(Standing::Whole(form)),
        _ => None,
    }
}

impl Context {
    /// The shape of the first entry with this name, held or not.
    pub fn shape_of(&self, name: &Ident) -> Option<&Shape>
        ensures { option_copied result ≡ option_map (λ e. e.shape) (spec.entry_named (context_in self.now).entries name.now) }
    {
        match self.names.place(name) {
            Some(place) => Some(&self.shapes[place]),
            None => None,
        }
    }

    fn variable(&self, name: &Ident) -> Option<Standing<'_>>
        ensures { option_map standing_of result ≡ spec.variable_in self.now.ints name.now }
    {
        match self.ints.place(name) {
            Some(place) => Some(Standing::Variable(Var::free(place as u32))),
            None => None,
        }
    }

    /// The integer that a name stands for, where it is one.
    fn integer(&self, name: &Ident) -> Option<Standing<'_>>
        ensures { option_map standing_of result ≡ spec.integer_named (context_in self.now) name.now }
    {
        match self.shape_of(name) {
            Some(shape) => integer_of(shape),
            None => self.variable(name),
        }
    }

    fn is_integer(&self, part: &Part) -> bool
        ensures { result ≡ list_all (λ x. is_some (spec.integer_named (context_in self.now) x)) (names_of (part_of part.now ∷ [])) }
    {
        match &part.name {
            None => true,
            Some(name) => self.integer(name).is_some(),
        }
    }

    fn are_integers(&self, parts: &[Part]) -> bool
        ensures { result ≡ list_all (λ x. is_some (spec.integer_named (context_in self.now) x)) (names_of (map part_of parts.now)) }
    {
        for part in parts {
            if !self.is_integer(part) {
                return false;
            }
        }
        true
    }

    /// The integer that a term means. WrongForm where a name of it isn't an integer, and TooLarge
    /// where a number leaves 64 bits.
    pub fn meaning(&self, alloc: Global, term: &Term) -> Result<Form, ContextFault>
        ensures ok { IfOk result (λ form. spec.meaning (context_in self.now) (term_of term.now) ≡ Ok form) }
        ensures err { IfErr result (IsReason (spec.meaning (context_in self.now) (term_of term.now))) }
    {
        if !self.are_integers(term.parts.as_slice()) {
            return Err(ContextFault::Why(Why::WrongForm));
        }
        let form = form_of_term(alloc, self, term)?;
        Ok(form)
    }

    /// The integers that terms mean, one after the other.
    pub fn meanings(&self, alloc: Global, terms: &[Term]) -> Result<Forms, ContextFault>
        ensures ok { IfOk result (λ forms. spec.meanings (context_in self.now) (map term_of terms.now) ≡ Ok forms) }
        ensures err { IfErr result (IsReason (spec.meanings (context_in self.now) (map term_of terms.now))) }
    {
        let mut forms = Items::new(alloc);
        for term in terms {
            let form = self.meaning(alloc, term)?;
            forms.push(form)?;
        }
        Ok(forms)
    }
}

impl Names for Context {
    ghost stands_for = { λ ctx x. unwrap_or (spec.integer_named (context_in ctx) x) (constant_form (pos 0)) };

    fn standing(&self, name: &Ident) -> Standing<'_> {
        match self.integer(name) {
            Some(standing) => standing,
            None => Standing::Nothing,
        }
    }
}
