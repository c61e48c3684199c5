//! Functions or protocols by their names.
ghost use Rattle.std.specs.Prelude.{◌≡◌, [], ◌∷◌, ◌++◌, is_some, true, false, OnOk};
ghost use Rattle.form_faults.specs.Faults.{least};
ghost use Rattle.form_faults.specs.Terms.{count_of, use_faults};

use crate::faults::{Ill, IllKind, note_name};
use crate::signatures::Signature;
use chan_base::{Memory, Span};
use chan_syntax::Ident;
use std::alloc::Global;
use std::collections::BTreeMap;
use std::marker::Model;

/// The signatures of declarations in order, and the place of the first with each name. A place at
/// which another name stands counts for nothing.
#[derive(Drop)]
pub struct Table {
    signatures: Vec<Signature>,
    places: BTreeMap<Ident, usize>,
}

impl Model for Table {
    ghost use Rattle.std.specs.Prelude.{List};
    ghost use Rattle.std.specs.Coded.{coded_list};
    ghost use Rattle.form_faults.specs.declared.signatures.Signature.{Signature};
    ghost use Rattle.form_faults.specs.contracts.signatures.Signature as signature;
    ghost use Rattle.form_faults.specs.Indexed.{IsIndexed};

    ghost Value = { List Signature };

    ghost coded = { coded_list signature.the_row.coded };

    ghost view = { λ table. table.signatures.items };

    ghost invariant = { λ table. IsIndexed (λ (s : Signature). s.name) table.signatures.items table.places };
}

impl Table {
    pub fn new(alloc: Global) -> Table
        ensures { result ≡ [] }
    {
        Table {
            signatures: Vec::new(alloc),
            places: BTreeMap::new(alloc),
        }
    }

    fn put(&mut self, name: &Ident, count: usize) -> Result<(), Memory>
        requires { is_some (count_of self.old name.now) ≡ false }
        ensures { OnOk result (self.new ≡ self.old ++ record { name = name.now; count = count } ∷ []) }
    {
        let key = name.copy()?;
        let name = name.copy()?;
        let place = self.signatures.len();
        self.places.insert(key, place)?;
        self.signatures.push(Signature { name, count })?;
        Ok(())
    }

    fn put_again(&mut self, name: &Ident, count: usize) -> Result<(), Memory>
        requires { is_some (count_of self.old name.now) ≡ true }
        ensures { OnOk result (self.new ≡ self.old ++ record { name = name.now; count = count } ∷ []) }
    {
        let name = name.copy()?;
        self.signatures.push(Signature { name, count })?;
        Ok(())
    }

    /// Adds a declaration. Where its name is declared already the earlier one still counts.
    pub fn add(&mut self, name: &Ident, count: usize) -> Result<(), Memory>
        ensures { OnOk result (self.new ≡ self.old ++ record { name = name.now; count = count } ∷ []) }
    {
        match self.count(name) {
            None => self.put(name, count),
            Some(_) => self.put_again(name, count),
        }
    }

    /// How many parameters the first declaration with this name has.
    pub fn count(&self, name: &Ident) -> Option<usize>
        ensures { result ≡ count_of self.now name.now }
    {
        match self.places.get(name) {
            None => None,
            Some(place) => match self.signatures.get(*place) {
                None => None,
                Some(its) => {
                    if its.name == *name {
                        Some(its.count)
                    } else {
                        None
                    }
                }
            },
        }
    }
}

/// UnknownName, or Arity where it takes another count.
#[tactic(auto, using(crate::proofs::Firsts::first_rules), unfolding(crate::specs::Terms::use_faults))]
pub fn check_use(
    alloc: Global,
    first: &mut Option<Ill>,
    table: &Table,
    name: &Ident,
    span: Span,
    count: usize,
) -> Result<(), Memory>
    ensures { OnOk result (first.new ≡ least first.old (use_faults table.now name.now span count)) }
{
    match table.count(name) {
        None => note_name(alloc, first, IllKind::UnknownName, name, span),
        Some(its) if its == count => Ok(()),
        Some(_) => note_name(alloc, first, IllKind::Arity, name, span),
    }
}
