//! What is put in for names, and the binders around a place.
ghost use Rattle.std.specs.Prelude.{◌≡◌, ◌++◌, ◌∷◌, List, map, find, length, is_none, IfOk};
ghost use Rattle.std.specs.Option.{option_copied};
ghost use Rattle.core_language.specs.Names.{same};
ghost use Rattle.linear_forms.specs.Terms.{put_of};
ghost use Rattle.linear_forms.specs.Replacing as spec;
ghost use Rattle.linear_forms.specs.Substitution.{place_of};
ghost use Rattle.chan_syntax.specs.Reading.{term_of};
ghost use Rattle.substitution.specs.Places.{puts_for};
ghost use Rattle.substitution.specs.Scopes.{put_in, before_of, after_of};

use chan_base::Memory;
use chan_syntax::{Ident, Idents, Term, Terms};
use sqlite_items::Items;
use std::alloc::Global;

pub(crate) type Puts = Items<Put>;

pub(crate) type Scope = Items<Binder>;

/// A name, and the term that is put in for it.
#[derive(Drop)]
pub(crate) struct Put {
    pub name: Ident,
    pub term: Term,
}

/// A binder, and its name in the result.
#[derive(Drop)]
pub(crate) struct Binder {
    pub name: Ident,
    pub made: Ident,
}

fn binder_named<'a>(scope: &'a [Binder], name: &Ident) -> Option<&'a Binder>
    ensures { option_copied result ≡ find (λ b. same b.name name.now) scope.now }
{
    scope.iter().find(|binder| binder.name == *name)
}

/// The new name of a binder.
#[tactic(auto, using(crate::proofs::Lookups::new_name_found))]
pub(crate) fn new_name<'a>(scope: &'a [Binder], name: &Ident) -> Option<&'a Ident>
    ensures { option_copied result ≡ spec.new_name (before_of scope.now) (after_of scope.now) name.now }
{
    match binder_named(scope, name) {
        Some(binder) => Some(&binder.made),
        None => None,
    }
}

#[tactic(auto, using(crate::proofs::Lookups::place_found))]
pub(crate) fn is_free(scope: &[Binder], name: &Ident) -> bool
    ensures { result ≡ is_none (place_of (before_of scope.now) name.now) }
{
    binder_named(scope, name).is_none()
}

pub(crate) fn put_named<'a>(put: &'a [Put], name: &Ident) -> Option<&'a Put>
    ensures { option_copied result ≡ find (λ v. same v.name name.now) put.now }
{
    put.iter().find(|put| put.name == *name)
}

pub(crate) fn puts_of(alloc: Global, names: &Idents, by: &Terms) -> Result<Puts, Memory>
    requires { length names.now ≡ length by.now }
    ensures terms { IfOk result (λ put. map put_in put ≡ put_of names.now (map term_of by.now)) }
    ensures places { IfOk result (λ put. put ≡ puts_for names.now by.now) }
{
    let mut put = Items::new(alloc);
    for index in 0..names.len() {
        put.push(Put {
            name: names.as_slice()[index].copy()?,
            term: by.as_slice()[index].copy(alloc)?,
        })?;
    }
    Ok(put)
}

impl Binder {
    fn copy(&self) -> Result<Binder, Memory>
        ensures { IfOk result (λ copy. copy ≡ self.now) }
    {
        Ok(Binder {
            name: self.name.copy()?,
            made: self.made.copy()?,
        })
    }
}

/// The binders of a resource, and then those around it.
pub(crate) fn joined(inner: Scope, outer: &Scope) -> Result<Scope, Memory>
    ensures { IfOk result (λ scope. scope ≡ inner ++ outer.now) }
{
    let mut scope = inner;
    for binder in outer.as_slice() {
        scope.push(binder.copy()?)?;
    }
    Ok(scope)
}

/// Binders that keep their names.
pub(crate) fn kept(alloc: Global, names: &Idents) -> Result<Scope, Memory>
    ensures { IfOk result (λ scope. before_of scope ≡ names.now) }
{
    let mut scope = Items::new(alloc);
    for name in names.as_slice() {
        scope.push(Binder {
            name: name.copy()?,
            made: name.copy()?,
        })?;
    }
    Ok(scope)
}

pub(crate) fn made_names(alloc: Global, scope: &[Binder]) -> Result<Idents, Memory>
    ensures { IfOk result (λ names. names ≡ after_of scope.now) }
{
    let mut names = Items::new(alloc);
    for binder in scope {
        names.push(binder.made.copy()?)?;
    }
    Ok(names)
}
