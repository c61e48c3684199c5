//! What names of terms stand for: the binders around a place, and integer variables.
ghost use Rattle.std.specs.Prelude.{◌≡◌, ◌+◌, ◌++◌, ◌<◌, ◌≤◌, ◌^◌, length, IfOk, IfSome};
ghost use Rattle.linear_forms.specs.Substitution as spec;
ghost use Rattle.outline_language.specs.Nameless as nameless;
ghost use Rattle.shape_readings.specs.Names.{names_in};

use chan_base::Memory;
use chan_syntax::Ident;
use nameless_forms::{Names, Standing, Var};
use std::alloc::Global;

fn place_of(names: &[Ident], name: &Ident) -> Option<usize>
    ensures value { result ≡ spec.place_of names.now name.now }
    ensures within { IfSome result (λ place. place < length names.now) }
{
    for index in 0..names.len() {
        if names[index] == *name {
            return Some(index);
        }
    }
    None
}

fn place_around(names: &[&Ident], name: &Ident) -> Option<usize>
    ensures value { result ≡ spec.place_of (names_in names.now) name.now }
    ensures within { IfSome result (λ place. place + 1 < 2 ^ 64) }
{
    for index in 0..names.len() {
        let other = names[index];
        if *other == *name {
            return Some(index);
        }
    }
    None
}

/// The names, not copied.
pub(crate) fn borrowed<'a>(alloc: Global, names: &'a [Ident]) -> Result<Vec<&'a Ident>, Memory>
    ensures { IfOk result (λ all. names_in all.items ≡ names.now) }
{
    let mut all = Vec::new(alloc);
    for name in names {
        all.push(name)?;
    }
    Ok(all)
}

/// The binders of a resource, and then those around it.
pub(crate) fn joined<'a>(
    alloc: Global,
    inner: &'a [Ident],
    outer: &[&'a Ident],
) -> Result<Vec<&'a Ident>, Memory>
    ensures { IfOk result (λ all. names_in all.items ≡ inner.now ++ names_in outer.now) }
{
    let mut all = borrowed(alloc, inner)?;
    for name in outer {
        all.push(*name)?;
    }
    Ok(all)
}

/// Integer variables, and the binders around a place, the innermost first.
#[derive(Clone, Copy)]
pub(crate) struct Scope<'a> {
    pub(crate) ints: &'a [Ident],
    pub(crate) around: &'a [&'a Ident],
    ghost few: { length ints.now ≤ 2 ^ 32 },
}

impl Names for Scope<'_> {
    ghost stands_for = { λ scope name. nameless.named_form scope.ints.now (names_in scope.around.now) name };

    fn standing(&self, name: &Ident) -> Standing<'_> {
        if let Some(place) = place_around(self.around, name) {
            return Standing::Variable(Var::inside(place));
        }
        match place_of(self.ints, name) {
            Some(place) => Standing::Variable(Var::free(place as u32)),
            None => Standing::Nothing,
        }
    }
}
