//! Names in scope: binding them and using them.
ghost use Rattle.std.specs.Prelude.{◌≡◌, [], ◌∷◌, ◌++◌, take, is_some, false, length, OnOk};
ghost use Rattle.form_faults.specs.Scopes.{sort_of, unscoped, twice, bind, bind_all, twice_all, binders};
ghost use Rattle.form_faults.specs.Faults.{least};

use crate::faults::{Ill, IllKind, note_name};
use crate::sorts::{Known, Naming, Sort, is_usable};
use chan_base::{Memory, Span};
use chan_syntax::Ident;
use std::alloc::Global;
use std::collections::BTreeMap;
use std::marker::Model;

/// The names in scope, in the order in which they were bound. The index has the place of each; a
/// place at which another name stands counts for nothing, so that leaving a scope is a cut of the
/// trail.
#[derive(Drop)]
pub struct Scope {
    trail: Vec<Known>,
    index: BTreeMap<Ident, usize>,
}

impl Model for Scope {
    ghost use Rattle.std.specs.Prelude.{List};
    ghost use Rattle.std.specs.Coded.{coded_list};
    ghost use Rattle.form_faults.specs.declared.sorts.Known.{Known};
    ghost use Rattle.form_faults.specs.contracts.sorts.Known as known;
    ghost use Rattle.form_faults.specs.Indexed.{IsIndexed};

    ghost Value = { List Known };

    ghost coded = { coded_list known.the_row.coded };

    ghost view = { λ scope. scope.trail.items };

    ghost invariant = { λ scope. IsIndexed (λ (k : Known). k.name) scope.trail.items scope.index };
}

impl Scope {
    pub fn new(alloc: Global) -> Scope
        ensures { result ≡ [] }
    {
        Scope {
            trail: Vec::new(alloc),
            index: BTreeMap::new(alloc),
        }
    }

    pub fn len(&self) -> usize
        ensures { result ≡ length self.now }
    {
        self.trail.len()
    }

    /// What the name stands for.
    pub fn sort(&self, name: &Ident) -> Option<Sort>
        ensures { result ≡ sort_of self.now name.now }
    {
        match self.index.get(name) {
            None => None,
            Some(place) => match self.trail.get(*place) {
                None => None,
                Some(there) => {
                    if there.name == *name {
                        Some(there.sort)
                    } else {
                        None
                    }
                }
            },
        }
    }

    /// Leaves the scope of the names that were bound since it had this length.
    pub fn cut(&mut self, mark: usize)
        ensures { self.new ≡ take mark self.old }
    {
        self.trail.truncate(mark);
    }

    fn put(&mut self, name: &Ident, sort: Sort) -> Result<(), Memory>
        requires { is_some (sort_of self.old name.now) ≡ false }
        ensures { OnOk result (self.new ≡ self.old ++ record { name = name.now; sort = sort } ∷ []) }
    {
        let key = name.copy()?;
        let name = name.copy()?;
        let place = self.trail.len();
        self.index.insert(key, place)?;
        self.trail.push(Known { name, sort })?;
        Ok(())
    }

    /// Binds a name that isn't in scope; one that is stays what it is.
    #[tactic(auto, unfolding(crate::specs::Scopes::bind))]
    pub fn bind(&mut self, name: &Ident, sort: Sort) -> Result<(), Memory>
        ensures { OnOk result (self.new ≡ bind self.old name.now sort) }
    {
        match self.sort(name) {
            Some(_) => Ok(()),
            None => self.put(name, sort),
        }
    }
}

/// Unscoped, where the name may not be used there.
#[tactic(auto, using(crate::proofs::Firsts::first_rules), unfolding(crate::specs::Scopes::unscoped))]
pub fn check_name(
    alloc: Global,
    first: &mut Option<Ill>,
    scope: &Scope,
    may: Naming,
    name: &Ident,
    span: Span,
) -> Result<(), Memory>
    ensures { OnOk result (first.new ≡ least first.old (unscoped may scope.now name.now span)) }
{
    if is_usable(may, scope.sort(name)) {
        Ok(())
    } else {
        note_name(alloc, first, IllKind::Unscoped, name, span)
    }
}

#[tactic(auto, using(crate::proofs::Firsts::first_rules), unfolding(crate::specs::Scopes::twice))]
pub(crate) fn check_new(
    alloc: Global,
    first: &mut Option<Ill>,
    scope: &Scope,
    name: &Ident,
    span: Span,
) -> Result<(), Memory>
    ensures { OnOk result (first.new ≡ least first.old (twice scope.now name.now span)) }
{
    match scope.sort(name) {
        Some(_) => note_name(alloc, first, IllKind::Twice, name, span),
        None => Ok(()),
    }
}

/// Binds a name, with Twice where it is in scope already.
pub fn bind_name(
    alloc: Global,
    first: &mut Option<Ill>,
    scope: &mut Scope,
    name: &Ident,
    sort: Sort,
    span: Span,
) -> Result<(), Memory>
    ensures first { OnOk result (first.new ≡ least first.old (twice scope.old name.now span)) }
    ensures scope { OnOk result (scope.new ≡ bind scope.old name.now sort) }
{
    check_new(alloc, first, scope, name, span)?;
    scope.bind(name, sort)
}
