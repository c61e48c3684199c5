//! The names in operands, in their order.
ghost use Rattle.std.specs.Prelude.{◌≡◌, [], ◌∷◌, ◌++◌, map, OnOk};
ghost use Rattle.std.specs.Option.{option_to_list};
ghost use Rattle.chan_syntax.specs.Reading.{term_of, supply_of};
ghost use Rattle.name_uses.specs.Uses.{supplies_names, supply_names, term_names};

use chan_base::Memory;
use chan_syntax::{Ident, Part, Supply, Term};

/// Adds a copy of the name.
pub fn add_name(names: &mut Vec<Ident>, name: &Ident) -> Result<(), Memory>
    ensures { OnOk result (names.new.items ≡ names.old.items ++ name.now ∷ []) }
{
    let name = name.copy()?;
    names.push(name)?;
    Ok(())
}

fn add_part(names: &mut Vec<Ident>, part: &Part) -> Result<(), Memory>
    ensures { OnOk result (names.new.items ≡ names.old.items ++ option_to_list part.now.name) }
{
    match &part.name {
        Some(name) => add_name(names, name),
        None => Ok(()),
    }
}

/// Adds the names of a term.
pub fn add_term(names: &mut Vec<Ident>, term: &Term) -> Result<(), Memory>
    ensures { OnOk result (names.new.items ≡ names.old.items ++ term_names (term_of term.now)) }
{
    'parts: for part in term.parts.as_slice() {
        add_part(names, part)?;
    }
    Ok(())
}

/// Adds the names of two terms.
pub fn add_terms(names: &mut Vec<Ident>, left: &Term, right: &Term) -> Result<(), Memory>
    ensures { OnOk result (names.new.items ≡ names.old.items ++ (term_names (term_of left.now) ++ term_names (term_of right.now))) }
{
    add_term(names, left)?;
    add_term(names, right)
}

/// Adds the names of a value.
pub fn add_supply(names: &mut Vec<Ident>, supply: &Supply) -> Result<(), Memory>
    ensures { OnOk result (names.new.items ≡ names.old.items ++ supply_names (supply_of supply.now)) }
{
    match supply {
        Supply::Unit => Ok(()),
        Supply::Pair(first, second) => {
            add_supply(names, first.get())?;
            add_supply(names, second.get())
        }
        Supply::Arm(_, value) => add_supply(names, value.get()),
        Supply::Sum(term) => add_term(names, term),
    }
}

/// Adds the names of values.
pub fn add_supplies(names: &mut Vec<Ident>, supplies: &[Supply]) -> Result<(), Memory>
    ensures { OnOk result (names.new.items ≡ names.old.items ++ supplies_names (map supply_of supplies.now)) }
{
    'supplies: for supply in supplies {
        add_supply(names, supply)?;
    }
    Ok(())
}
