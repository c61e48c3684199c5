//! Numbers that are noted for names, and whether one of them lies between two others.
ghost use Rattle.std.specs.Prelude.{◌≡◌, ◌≤◌, [], ◌∷◌, ◌++◌, OnOk};
ghost use Rattle.std.specs.List.{list_any};
ghost use Rattle.std.specs.List.Sorted.{IsNonDecreasing};
ghost use Rattle.core_language.specs.Names.{Ident as IdentOf};
ghost use Rattle.name_uses.specs.Uses.{is_between, times, uses_in};

use chan_base::Memory;
use chan_syntax::Ident;
use std::alloc::Global;
use std::collections::BTreeMap;

/// For each name the numbers that are noted for it, in their order.
pub type Uses = BTreeMap<Ident, Vec<u32>>;

fn note(alloc: Global, uses: &mut Uses, name: Ident, number: u32) -> Result<(), Memory>
    ensures { OnOk result ((x : IdentOf) → uses_in uses.new x ≡ uses_in uses.old x ++ times x number (name ∷ [])) }
{
    let mut numbers = match uses.remove(&name) {
        Some(numbers) => numbers,
        None => Vec::new(alloc),
    };
    numbers.push(number)?;
    uses.insert(name, numbers)?;
    Ok(())
}

/// Notes the number for each of the names.
pub fn note_all(
    alloc: Global,
    uses: &mut Uses,
    names: Vec<Ident>,
    number: u32,
) -> Result<(), Memory>
    ensures { OnOk result ((x : IdentOf) → uses_in uses.new x ≡ uses_in uses.old x ++ times x number names.items) }
{
    'names: for name in names {
        note(alloc, uses, name, number)?;
    }
    Ok(())
}

/// The numbers that are noted for the name.
pub fn uses_of<'a>(uses: &'a Uses, name: &Ident) -> &'a [u32]
    ensures { result.now ≡ uses_in uses.now name.now }
{
    match uses.get(name) {
        Some(numbers) => numbers.as_slice(),
        None => &[],
    }
}

/// Whether one of the numbers, which ascend, lies from one number to another.
pub fn has_between(numbers: &[u32], low: u32, high: u32) -> bool
    requires ascending { IsNonDecreasing numbers.now }
    requires order { low ≤ high }
    ensures { result ≡ list_any (is_between low high) numbers.now }
{
    match numbers.binary_search(&low) {
        Ok(_) => true,
        Err(place) => match numbers.get(place) {
            Some(number) => *number <= high,
            None => false,
        },
    }
}
