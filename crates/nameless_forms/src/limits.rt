//! Limits, and what they ask of integer variables as rows that are at most 0.
ghost use Rattle.std.specs.Prelude.{◌≡◌, ◌^◌, ◌≤◌, Ok, IfOk, IfErr};
ghost use Rattle.outline_language.specs.LinearForms.{minus, plus_one};
ghost use Rattle.outline_language.specs.Contexts.{row_formed};
ghost use Rattle.nameless_forms.specs.Faults.{IsTooLarge};
ghost use Rattle.nameless_forms.specs.Differences.{difference_at};
ghost use Rattle.nameless_forms.specs.Sizes.{IsWithin};

use crate::faults::FormFault;
use crate::linear::Form;
use crate::putting::{put, with};
use crate::sums::{FormSum, Standing};
use chan_base::Memory;
use chan_syntax::Relation;
use farkas_check::Row;
use std::alloc::Global;

/// How two forms compare.
#[derive(Drop)]
pub struct Limit {
    pub left: Form,
    pub relation: Relation,
    pub right: Form,
}

/// The first form less the second.
fn difference(alloc: Global, left: &Form, right: &Form) -> Result<FormSum, Memory>
    ensures sum { IfOk result (λ sum. sum ≡ minus left.now right.now) }
    ensures within { IfOk result (IsWithin (2 ^ 247)) }
{
    let mut sum = FormSum::from_form(alloc, left)?;
    sum.add(-1, Standing::Whole(right))?;
    Ok(sum)
}

/// The first form less the second, both with the instances.
fn difference_with(
    alloc: Global,
    instances: &[Form],
    left: &Form,
    right: &Form,
) -> Result<FormSum, Memory>
    ensures sum { IfOk result (λ sum. sum ≡ difference_at instances.now left.now right.now) }
    ensures within { IfOk result (IsWithin (2 ^ 247)) }
{
    let mut sum = with(alloc, instances, 0, left)?;
    put(&mut sum, -1, instances, 0, right)?;
    Ok(sum)
}

/// The row over so many integer variables that is at most 0 where the first form is at most the second.
pub fn at_most_row(
    alloc: Global,
    variables: u32,
    left: &Form,
    right: &Form,
) -> Result<Row, FormFault>
    ensures ok { IfOk result (λ row. row_formed variables (minus left.now right.now) ≡ Ok row) }
    ensures err { IfErr result (IsTooLarge (row_formed variables (minus left.now right.now))) }
{
    let sum = difference(alloc, left, right)?;
    sum.row(alloc, variables)
}

/// The row over so many integer variables that is at most 0 where the first form is less than the second.
pub fn less_row(alloc: Global, variables: u32, left: &Form, right: &Form) -> Result<Row, FormFault>
    ensures ok { IfOk result (λ row. row_formed variables (plus_one (minus left.now right.now)) ≡ Ok row) }
    ensures err { IfErr result (IsTooLarge (row_formed variables (plus_one (minus left.now right.now)))) }
{
    let mut sum = difference(alloc, left, right)?;
    sum.add_one();
    sum.row(alloc, variables)
}

/// The row of `at_most_row` where the instances are put in.
pub fn at_most_row_with(
    alloc: Global,
    variables: u32,
    instances: &[Form],
    left: &Form,
    right: &Form,
) -> Result<Row, FormFault>
    ensures ok { IfOk result (λ row. row_formed variables (difference_at instances.now left.now right.now) ≡ Ok row) }
    ensures err { IfErr result (IsTooLarge (row_formed variables (difference_at instances.now left.now right.now))) }
{
    let sum = difference_with(alloc, instances, left, right)?;
    sum.row(alloc, variables)
}

/// The row of `less_row` where the instances are put in.
pub fn less_row_with(
    alloc: Global,
    variables: u32,
    instances: &[Form],
    left: &Form,
    right: &Form,
) -> Result<Row, FormFault>
    ensures ok { IfOk result (λ row. row_formed variables (plus_one (difference_at instances.now left.now right.now)) ≡ Ok row) }
    ensures err { IfErr result (IsTooLarge (row_formed variables (plus_one (difference_at instances.now left.now right.now)))) }
{
    let mut sum = difference_with(alloc, instances, left, right)?;
    sum.add_one();
    sum.row(alloc, variables)
}
