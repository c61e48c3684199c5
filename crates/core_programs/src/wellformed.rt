//! Programs that are well formed.
ghost use Rattle.std.specs.Prelude.{◌≡◌, ◌<◌, codes, length, slice_get, Some, IfSome, IfOk, IfErr};
ghost use Rattle.std.specs.Option.{option_copied};
ghost use Rattle.core_language.specs.Configurations.{names};
ghost use Rattle.core_programs.specs.Bodies.{LeadsToFirst, opened, rest, func_named};
ghost use Rattle.core_programs.specs.Formed.{IsNumbered, HasDivisor, LeadBelow};
ghost use Rattle.core_programs.specs.Form.{IsFormed, IsBuildFault, HasForm};
ghost use Rattle.core_programs.specs.Uses.{LeadsToUses, AreStarts};

use crate::faults::BuildFault;
use crate::forms::first_fault;
use crate::indexes::{find_indexed, index_funcs};
use crate::naming::has_use;
use crate::nodes::{Func, Node, Parts};
use crate::starts::find_starts;
use crate::uses::index_uses;
use chan_base::Memory;
use chan_syntax::Ident;
use name_uses::{Uses, has_between, uses_of};
use std::alloc::Global;
use std::collections::BTreeMap;
use std::marker::Model;

/// Parts that are well formed. A program is seen as its parts.
#[derive(Drop)]
pub struct Program {
    parts: Parts,
    places: BTreeMap<Ident, usize>,
    uses: Uses,
    starts: Option<Vec<u32>>,
}

impl Model for Program {
    ghost use Rattle.core_programs.specs.declared.nodes.Parts.{Parts};
    ghost use Rattle.core_programs.specs.contracts.nodes.Parts as whole;

    ghost Value = { Parts };

    ghost coded = { whole.the_row.coded };

    ghost use Rattle.core_programs.specs.Bodies.{LeadsToFirst};
    ghost use Rattle.core_programs.specs.Form.{IsFormed};
    ghost use Rattle.core_programs.specs.Uses.{LeadsToUses, AreStarts};

    ghost view = { λ p. p.parts };

    ghost invariant = { λ p. IsFormed p.parts × LeadsToFirst p.parts.funcs p.places × LeadsToUses p.parts.nodes p.uses × AreStarts p.parts.nodes p.starts };
}

impl Program {
    /// Parts without a fault of form. The fault is the first one, pass by pass.
    pub fn build(alloc: Global, parts: Parts) -> Result<Program, BuildFault>
        requires { IsNumbered parts }
        ensures ok { IfOk result (λ program. (program ≡ parts) × HasForm parts) }
        ensures err { IfErr result (IsBuildFault parts) }
    {
        match first_fault(alloc, &parts)? {
            Some(ill) => Err(BuildFault::Ill(ill)),
            None => {
                let (places, uses, starts) = indexes(alloc, &parts)?;
                Ok(Program {
                    parts,
                    places,
                    uses,
                    starts,
                })
            }
        }
    }

    pub fn parts(&self) -> &Parts
        ensures parts { result.now ≡ self.now }
        ensures formed { IsFormed self.now }
    {
        &self.parts
    }

    /// The node with this number. The body there is made of it and of the bodies that it names.
    pub fn node(&self, number: u32) -> &Node
        requires { number < length self.now.nodes }
        ensures at { slice_get self.now.nodes number ≡ Some result.now }
        ensures opens { rest self.now.nodes number ≡ opened result.now (rest self.now.nodes) }
        ensures leads { LeadBelow result.now (length self.now.nodes) }
        ensures divisor { HasDivisor result.now }
    {
        let parts = self.parts();
        let nodes = parts.nodes.as_slice();
        &nodes[number as usize]
    }

    /// Whether the body at the node with this number names the variable.
    pub fn names(&self, number: u32, name: &Ident) -> bool
        requires { number < length self.now.nodes }
        ensures { result ≡ names (rest self.now.nodes number) name.now }
    {
        let numbers = uses_of(&self.uses, name);
        match &self.starts {
            Some(starts) => {
                let starts = starts.as_slice();
                has_between(numbers, starts[number as usize], number)
            }
            None => has_use(self.parts(), numbers, number),
        }
    }

    /// The function with this name.
    pub fn func(&self, name: &Ident) -> Option<&Func>
        ensures named { option_copied result ≡ func_named name.now self.now.funcs }
        ensures first { IfSome result (λ f. f.now.first < length self.now.nodes) }
    {
        let parts = self.parts();
        find_indexed(parts.funcs.as_slice(), &self.places, name)
    }

    /// The function `main`.
    pub fn main(&self) -> Option<&Func>
        ensures named { option_copied result ≡ func_named (codes "main") self.now.funcs }
        ensures first { IfSome result (λ f. f.now.first < length self.now.nodes) }
    {
        let parts = self.parts();
        find_func(parts.funcs.as_slice(), b"main")
    }
}

/// Where the functions stand, which nodes mention each name, and where bodies begin.
fn indexes(
    alloc: Global,
    parts: &Parts,
) -> Result<(BTreeMap<Ident, usize>, Uses, Option<Vec<u32>>), Memory>
    requires { IsNumbered parts.now }
    ensures places { IfOk result (λ x. LeadsToFirst parts.now.funcs x.0) }
    ensures uses { IfOk result (λ x. LeadsToUses parts.now.nodes x.1) }
    ensures starts { IfOk result (λ x. AreStarts parts.now.nodes x.2) }
{
    let places = index_funcs(alloc, parts.funcs.as_slice())?;
    let uses = index_uses(alloc, parts.nodes.as_slice())?;
    let starts = find_starts(alloc, parts.nodes.as_slice())?;
    Ok((places, uses, starts))
}

/// The first of the functions with this name.
fn find_func<'a>(funcs: &'a [Func], name: &[u8]) -> Option<&'a Func>
    ensures { option_copied result ≡ func_named name.now funcs.now }
{
    'funcs: for func in funcs {
        if func.name.as_slice() == name {
            return Some(func);
        }
    }
    None
}
