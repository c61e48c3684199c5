//! The values that supplies make.
ghost use Rattle.std.specs.Prelude.{◌≡◌, max, map, IfOk, IfSome};
ghost use Rattle.std.specs.Option.{option_copied, option_map};
ghost use Rattle.core_language.specs.Computing.{machine, Done, and_then, shallow as shallow_of, known, sum_of, bare_part as bare_part_of, bare_name as bare_name_of, term_value, supplied, all_supplied};
ghost use Rattle.core_language.specs.Values.{Int, Pair, Arm};
ghost use Rattle.chan_syntax.specs.Reading.{term_of, supply_of};
ghost use Rattle.machine_values.specs.Cells.{EndTest};
ghost use Rattle.machine_values.specs.Ends.{BindsPass, MadePasses, ValuePasses, ValuesPass};
ghost use Rattle.machine_values.specs.Reading.{env_of, value_as};
ghost use Rattle.machine_values.specs.Troubles.{computed_of, depth_of, nested_of, done_of, made_of, all_made_of};

use crate::binds::Bind;
use crate::computing::{NOT_INT, Trouble, lookup, sum};
use crate::stops::StuckWhy;
use crate::values::{TOO_DEEP, Value, Values};
use chan_base::Memory;
use chan_syntax::{Ident, Part, Supply, Term};
use std::alloc::Global;

const DEEP: Trouble = Trouble::Stuck(StuckWhy::Deep);

fn bare_part(part: &Part) -> Option<&Ident>
    ensures { option_copied result ≡ bare_part_of part.now.negative part.now.factor part.now.name }
{
    if part.negative || part.factor != 1 {
        None
    } else {
        part.name.as_ref()
    }
}

/// The name that the term is, where it is one name and nothing else.
fn bare_name(term: &Term) -> Option<&Ident>
    ensures { option_copied result ≡ bare_name_of (term_of term.now) }
{
    let parts = term.parts.as_slice();
    if parts.len() == 1 {
        bare_part(&parts[0])
    } else {
        None
    }
}

/// The depth of a value that is made of parts, the deepest of this depth.
fn nested(depth: usize) -> Result<usize, Trouble>
    ensures { computed_of result ≡ nested_of depth }
{
    if depth < 256 {
        Ok(depth + 1)
    } else {
        Err(DEEP)
    }
}

fn nested_in(depth: Result<usize, Trouble>) -> Result<usize, Trouble>
    ensures { computed_of result ≡ and_then (computed_of depth) nested_of }
{
    match depth {
        Ok(depth) => nested(depth),
        Err(trouble) => Err(trouble),
    }
}

fn deepest(first: usize, second: Result<usize, Trouble>) -> Result<usize, Trouble>
    ensures { computed_of result ≡ and_then (computed_of second) (λ second. Done (max first second)) }
{
    match second {
        Ok(second) => Ok(first.max(second)),
        Err(trouble) => Err(trouble),
    }
}

fn deepest_of(
    first: Result<usize, Trouble>,
    second: Result<usize, Trouble>,
) -> Result<usize, Trouble>
    ensures { computed_of result ≡ and_then (computed_of first) (λ first. and_then (computed_of second) (λ second. Done (max first second))) }
{
    match first {
        Ok(first) => deepest(first, second),
        Err(trouble) => Err(trouble),
    }
}

fn weigh_term(binds: &[Bind], term: &Term) -> Result<usize, Trouble>
    ensures { computed_of result ≡ depth_of (term_value machine (env_of binds.now) (term_of term.now) (bare_name_of (term_of term.now))) }
{
    match bare_name(term) {
        Some(name) => match lookup(binds, name) {
            Some(value) => Ok(value.depth()),
            None => Err(NOT_INT),
        },
        None => {
            let _number = sum(binds, term)?;
            Ok(0)
        }
    }
}

/// The depth of the value that the supply would make.
fn weigh(binds: &[Bind], supply: &Supply) -> Result<usize, Trouble>
    ensures { computed_of result ≡ depth_of (supplied machine (env_of binds.now) (supply_of supply.now)) }
{
    match supply {
        Supply::Unit => Ok(0),
        Supply::Pair(first, second) => {
            let first = weigh(binds, first.get());
            let second = weigh(binds, second.get());
            nested_in(deepest_of(first, second))
        }
        Supply::Arm(_, value) => nested_in(weigh(binds, value.get())),
        Supply::Sum(term) => weigh_term(binds, term),
    }
}

/// The value, unless it is nested too deep.
fn shallow(value: Value) -> Result<Value, Trouble>
    ensures value { made_of result ≡ shallow_of (value_as value) }
    ensures ends { (test : EndTest) → ValuePasses test value → MadePasses test result }
{
    if value.depth() < TOO_DEEP {
        Ok(value)
    } else {
        Err(DEEP)
    }
}

fn make_pair(
    alloc: Global,
    first: Result<Value, Trouble>,
    second: Result<Value, Trouble>,
) -> Result<Result<Value, Trouble>, Memory>
    ensures value { IfOk result (λ made. made_of made ≡ and_then (made_of first) (λ a. and_then (made_of second) (λ b. shallow_of (Pair a b)))) }
    ensures ends { IfOk result (λ made. (test : EndTest) → MadePasses test first → MadePasses test second → MadePasses test made) }
{
    match first {
        Ok(first) => match second {
            Ok(second) => {
                let value = Value::pair(alloc, first, second)?;
                Ok(shallow(value))
            }
            Err(trouble) => Ok(Err(trouble)),
        },
        Err(trouble) => Ok(Err(trouble)),
    }
}

fn make_arm(
    alloc: Global,
    number: u8,
    value: Result<Value, Trouble>,
) -> Result<Result<Value, Trouble>, Memory>
    ensures value { IfOk result (λ made. made_of made ≡ and_then (made_of value) (λ a. shallow_of (Arm number a))) }
    ensures ends { IfOk result (λ made. (test : EndTest) → MadePasses test value → MadePasses test made) }
{
    match value {
        Ok(value) => {
            let value = Value::arm(alloc, number, value)?;
            Ok(shallow(value))
        }
        Err(trouble) => Ok(Err(trouble)),
    }
}

fn make_sum(binds: &[Bind], term: &Term) -> Result<Value, Trouble>
    ensures value { made_of result ≡ and_then (sum_of machine (env_of binds.now) (term_of term.now)) (λ z. Done (Int z)) }
    ensures ends { (test : EndTest) → MadePasses test result }
{
    match sum(binds, term) {
        Ok(number) => Ok(Value::Int(number)),
        Err(trouble) => Err(trouble),
    }
}

fn make_known(value: Option<&Value>) -> Result<Result<Value, Trouble>, Memory>
    ensures value { IfOk result (λ made. made_of made ≡ known (option_map (λ v. value_as v.now) value.entry)) }
    ensures ends { IfOk result (λ made. (test : EndTest) → IfSome value.entry (λ v. ValuePasses test v.now) → MadePasses test made) }
{
    match value {
        Some(value) => {
            let value = value.copy()?;
            Ok(Ok(value))
        }
        None => Ok(Err(NOT_INT)),
    }
}

fn make_term(binds: &[Bind], term: &Term) -> Result<Result<Value, Trouble>, Memory>
    ensures value { IfOk result (λ made. made_of made ≡ term_value machine (env_of binds.now) (term_of term.now) (bare_name_of (term_of term.now))) }
    ensures ends { IfOk result (λ made. (test : EndTest) → BindsPass test binds.now → MadePasses test made) }
{
    match bare_name(term) {
        Some(name) => make_known(lookup(binds, name)),
        None => Ok(make_sum(binds, term)),
    }
}

/// The value that the supply makes, or why it makes none; the outer error is want of memory.
pub fn make(
    alloc: Global,
    binds: &[Bind],
    supply: &Supply,
) -> Result<Result<Value, Trouble>, Memory>
    ensures value { IfOk result (λ made. made_of made ≡ supplied machine (env_of binds.now) (supply_of supply.now)) }
    ensures ends { IfOk result (λ made. (test : EndTest) → BindsPass test binds.now → MadePasses test made) }
{
    match supply {
        Supply::Unit => Ok(Ok(Value::Unit)),
        Supply::Pair(first, second) => {
            let first = make(alloc, binds, first.get())?;
            let second = make(alloc, binds, second.get())?;
            make_pair(alloc, first, second)
        }
        Supply::Arm(number, value) => {
            let value = make(alloc, binds, value.get())?;
            make_arm(alloc, *number, value)
        }
        Supply::Sum(term) => make_term(binds, term),
    }
}

fn forget(depth: Result<usize, Trouble>) -> Result<(), Trouble>
    ensures { computed_of result ≡ done_of (computed_of depth) }
{
    match depth {
        Ok(_) => Ok(()),
        Err(trouble) => Err(trouble),
    }
}

/// Whether the supply makes a value, told without memory.
pub fn weighed(binds: &[Bind], supply: &Supply) -> Result<(), Trouble>
    ensures { computed_of result ≡ done_of (supplied machine (env_of binds.now) (supply_of supply.now)) }
{
    forget(weigh(binds, supply))
}

/// Whether the supplies make their values, told without memory; else why the first one that fails
/// makes none.
pub fn weigh_all(binds: &[Bind], supplies: &[Supply]) -> Result<(), Trouble>
    ensures { computed_of result ≡ done_of (all_supplied machine (env_of binds.now) (map supply_of supplies.now)) }
{
    'supplies: for supply in supplies {
        if let Err(trouble) = weighed(binds, supply) {
            return Err(trouble);
        }
    }
    Ok(())
}

/// The values that the supplies make, or why the first one that fails makes none; the outer error is
/// want of memory.
pub fn make_all(
    alloc: Global,
    binds: &[Bind],
    supplies: &[Supply],
) -> Result<Result<Values, Trouble>, Memory>
    ensures values { IfOk result (λ made. all_made_of made ≡ all_supplied machine (env_of binds.now) (map supply_of supplies.now)) }
    ensures ends { IfOk result (λ made. (test : EndTest) → BindsPass test binds.now → IfOk made (λ vs. ValuesPass test vs.items)) }
{
    let mut values = Vec::new(alloc);
    'supplies: for supply in supplies {
        match make(alloc, binds, supply)? {
            Ok(value) => values.push(value)?,
            Err(trouble) => return Ok(Err(trouble)),
        }
    }
    Ok(Ok(values))
}
