//! Names in order, each found by the place of the first one.
ghost use Rattle.std.specs.Prelude.{◌≡◌, [], ◌∷◌, ◌++◌, take, None, true, is_some, length, OnOk, OnErr};
ghost use Rattle.linear_forms.specs.Substitution.{place_of};

use chan_base::Memory;
use chan_syntax::Ident;
use std::alloc::Global;
use std::collections::BTreeMap;
use std::marker::Model;

/// The index has the place of the first with each name. A place at which another name stands counts
/// for nothing, so that the list can be cut.
#[derive(Drop)]
pub(crate) struct Places {
    names: Vec<Ident>,
    index: BTreeMap<Ident, usize>,
}

impl Model for Places {
    ghost use Rattle.std.specs.Prelude.{List, ℕ};
    ghost use Rattle.form_faults.specs.Indexed.{IsIndexed};

    ghost Value = { List (List ℕ) };

    ghost view = { λ places. places.names.items };

    ghost invariant = { λ places. IsIndexed (λ (x : List ℕ). x) places.names.items places.index };
}

impl Places {
    pub fn new(alloc: Global) -> Places
        ensures { result ≡ [] }
    {
        Places {
            names: Vec::new(alloc),
            index: BTreeMap::new(alloc),
        }
    }

    pub fn len(&self) -> usize
        ensures { result ≡ length self.now }
    {
        self.names.len()
    }

    pub fn as_slice(&self) -> &[Ident]
        ensures { result.now ≡ self.now }
    {
        self.names.as_slice()
    }

    pub fn place(&self, name: &Ident) -> Option<usize>
        ensures { result ≡ place_of self.now name.now }
    {
        match self.index.get(name) {
            None => None,
            Some(place) => match self.names.get(*place) {
                None => None,
                Some(there) => { if *there == *name { Some(*place) } else { None } }
            },
        }
    }

    /// Leaves so many names.
    pub fn cut(&mut self, many: usize)
        ensures { self.new ≡ take many self.old }
    {
        self.names.truncate(many);
    }

    fn put(&mut self, name: &Ident) -> Result<(), Memory>
        requires { place_of self.old name.now ≡ None }
        ensures ok { OnOk result (self.new ≡ self.old ++ name.now ∷ []) }
        ensures err { OnErr result (self.new ≡ self.old) }
    {
        let key = name.copy()?;
        let name = name.copy()?;
        let place = self.names.len();
        self.index.insert(key, place)?;
        self.names.push(name)?;
        Ok(())
    }

    fn put_again(&mut self, name: &Ident) -> Result<(), Memory>
        requires { is_some (place_of self.old name.now) ≡ true }
        ensures ok { OnOk result (self.new ≡ self.old ++ name.now ∷ []) }
        ensures err { OnErr result (self.new ≡ self.old) }
    {
        let name = name.copy()?;
        self.names.push(name)?;
        Ok(())
    }

    /// Adds a name. Where it is there already, the earlier place still counts.
    pub fn push(&mut self, name: &Ident) -> Result<(), Memory>
        ensures ok { OnOk result (self.new ≡ self.old ++ name.now ∷ []) }
        ensures err { OnErr result (self.new ≡ self.old) }
    {
        match self.place(name) {
            None => self.put(name),
            Some(_) => self.put_again(name),
        }
    }
}
