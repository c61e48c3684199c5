//! What computing the operands of a form comes to.
ghost use Rattle.std.specs.Prelude.{◌≡◌, ◌<◌, ◌+ℤ◌, ◌-ℤ◌, ◌*ℤ◌, IfSome};
ghost use Rattle.std.specs.Option.{option_map};
ghost use Rattle.core_language.specs.Computing.{machine, value_of, as_int, checked, joined, product as product_of, sum_of, multiplied, divided, left_over};
ghost use Rattle.chan_syntax.specs.Reading.{term_of};
ghost use Rattle.machine_values.specs.Cells.{EndTest};
ghost use Rattle.machine_values.specs.Ends.{BindsPass, ValuePasses};
ghost use Rattle.machine_values.specs.Reading.{env_of, value_as};
ghost use Rattle.machine_values.specs.Troubles.{computed_of};

use crate::binds::Bind;
use crate::stops::{Halt, StuckWhy};
use crate::values::Value;
use chan_syntax::{Ident, Part, Term};

/// Why operands come to no result.
#[derive(Clone, Copy, Debug, PartialEq, Eq)]
pub enum Trouble {
    Stuck(StuckWhy),
    Halts(Halt),
}

const OUT_OF_RANGE: Trouble = Trouble::Halts(Halt::Range);

pub(crate) const NOT_INT: Trouble = Trouble::Stuck(StuckWhy::NotInt);

fn add(total: i128, number: i128) -> Result<i128, Trouble>
    ensures { computed_of result ≡ checked machine (total +ℤ number) }
{
    match total.checked_add(number) {
        Some(sum) => Ok(sum),
        None => Err(OUT_OF_RANGE),
    }
}

fn subtract(total: i128, number: i128) -> Result<i128, Trouble>
    ensures { computed_of result ≡ checked machine (total -ℤ number) }
{
    match total.checked_sub(number) {
        Some(rest) => Ok(rest),
        None => Err(OUT_OF_RANGE),
    }
}

fn multiply(left: i128, right: i128) -> Result<i128, Trouble>
    ensures { computed_of result ≡ checked machine (left *ℤ right) }
{
    match left.checked_mul(right) {
        Some(product) => Ok(product),
        None => Err(OUT_OF_RANGE),
    }
}

/// A number of 128 bits is within the limits of the machine.
fn within(number: i128) -> Result<i128, Trouble>
    ensures { computed_of result ≡ checked machine number }
{
    Ok(number)
}

/// The value of the first variable with the name.
pub fn lookup<'a>(binds: &'a [Bind], name: &Ident) -> Option<&'a Value>
    ensures value { option_map (λ value. value_as value.now) result ≡ value_of (env_of binds.now) name.now }
    ensures ends { (test : EndTest) → BindsPass test binds.now → IfSome result (λ value. ValuePasses test value.now) }
{
    'binds: for bind in binds {
        if bind.name == *name {
            return Some(&bind.value);
        }
    }
    None
}

fn integer(binds: &[Bind], name: &Ident) -> Result<i128, Trouble>
    ensures { computed_of result ≡ as_int (value_of (env_of binds.now) name.now) }
{
    match lookup(binds, name) {
        Some(Value::Int(number)) => Ok(*number),
        _ => Err(NOT_INT),
    }
}

/// A variable that stands alone has the factor 1, for which nothing is multiplied.
fn scale(factor: i64, number: i128) -> Result<i128, Trouble>
    ensures { computed_of result ≡ checked machine (factor *ℤ number) }
{
    if factor == 1 {
        within(number)
    } else {
        multiply(i128::from(factor), number)
    }
}

fn product(binds: &[Bind], part: &Part) -> Result<i128, Trouble>
    ensures { computed_of result ≡ product_of machine (env_of binds.now) part.now.factor part.now.name }
{
    match &part.name {
        None => within(i128::from(part.factor)),
        Some(name) => {
            let number = integer(binds, name)?;
            scale(part.factor, number)
        }
    }
}

fn join(negative: bool, total: i128, number: i128) -> Result<i128, Trouble>
    ensures { computed_of result ≡ checked machine (joined negative total number) }
{
    if negative {
        subtract(total, number)
    } else {
        add(total, number)
    }
}

/// The sum that the term is, each product and each running sum within 128 bits.
pub fn sum(binds: &[Bind], term: &Term) -> Result<i128, Trouble>
    ensures { computed_of result ≡ sum_of machine (env_of binds.now) (term_of term.now) }
{
    let mut total = 0;
    'parts: for part in term.parts.as_slice() {
        let number = product(binds, part)?;
        total = join(part.negative, total, number)?;
    }
    Ok(total)
}

/// The product of the two sums.
pub fn product_of_sums(binds: &[Bind], left: &Term, right: &Term) -> Result<i128, Trouble>
    ensures { computed_of result ≡ multiplied machine (env_of binds.now) (term_of left.now) (term_of right.now) }
{
    let left = sum(binds, left)?;
    let right = sum(binds, right)?;
    multiply(left, right)
}

/// The quotient, rounded down.
pub fn quotient(binds: &[Bind], term: &Term, divisor: u64) -> Result<i128, Trouble>
    requires { 0 < divisor }
    ensures { computed_of result ≡ divided machine (env_of binds.now) (term_of term.now) divisor }
{
    let number = sum(binds, term)?;
    within(number.div_euclid(i128::from(divisor)))
}

/// What the division leaves over.
pub fn remainder(binds: &[Bind], term: &Term, divisor: u64) -> Result<i128, Trouble>
    requires { 0 < divisor }
    ensures { computed_of result ≡ left_over machine (env_of binds.now) (term_of term.now) divisor }
{
    let number = sum(binds, term)?;
    within(number.rem_euclid(i128::from(divisor)))
}
