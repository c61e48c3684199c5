//! What a task makes of the results of a form's operands: its step, or why it makes none.
ghost use Rattle.std.specs.Prelude.{◌≡◌, ◌<◌, ◌∷◌, ℕ, List, length, slice_get, IfOk, IfSome, OnOk, OnErr};
ghost use Rattle.std.specs.Option.{option_map};
ghost use Rattle.core_language.specs.Acts.{Act as ActOf, on_pair, on_sum, returned, with_result};
ghost use Rattle.core_language.specs.Computing.{machine, sum_of};
ghost use Rattle.core_language.specs.Configurations.{Caller};
ghost use Rattle.core_language.specs.Values.{Value as ValueOf};
ghost use Rattle.chan_syntax.specs.Reading.{term_of};
ghost use Rattle.machine_values.specs.Cells.{EndTest};
ghost use Rattle.machine_values.specs.Ends.{MadePasses, ValuePasses, ValuesPass};
ghost use Rattle.machine_values.specs.Reading.{env_of, value_as};
ghost use Rattle.machine_values.specs.Troubles.{all_made_of, computed_of, made_of};
ghost use Rattle.machine_tasks.specs.declared.tasks.Frame.{Frame};
ghost use Rattle.machine_tasks.specs.Attempts.{Attempts, LeadWithin, assigns, begins, chooses, compared, on_arm, on_parts, picks, picks_arm, splits};
ghost use Rattle.machine_tasks.specs.Ends.{NoNewEnds, TaskPasses};
ghost use Rattle.machine_tasks.specs.Fits.{AtCall};
ghost use Rattle.machine_tasks.specs.Kinds.{kind_as, kind_of};
ghost use Rattle.machine_tasks.specs.Moving.{at_node, bound_in, place_with};
ghost use Rattle.machine_tasks.specs.Steps.{FitsTask, GoesTo, HasTop, IsUnmoved, callers_of, place_in, waiting};

use crate::acts::Act;
use crate::calls::{call, give_back, tail};
use crate::tasks::Task;
use chan_base::Memory;
use chan_syntax::{Ident, Term};
use core_programs::{Arm, Program};
use machine_values::{Bind, StuckWhy, Trouble, Value, Values, sum};
use std::alloc::Global;

/// Binds the value and goes on at the node.
fn assign(
    program: &Program,
    task: &mut Task,
    name: &Ident,
    value: Value,
    next: u32,
) -> Result<(), Memory>
    requires next { next < length program.now.nodes }
    requires fits { FitsTask program.now task.old }
    ensures ok { OnOk result (GoesTo program.now task.old task.new
        (place_with program.now.nodes name.now (value_as value) next (place_in program.now task.old))) }
    ensures ends { OnOk result ((test : EndTest) → ValuePasses test value → TaskPasses test task.old → TaskPasses test task.new) }
    ensures err { OnErr result (IsUnmoved task.old task.new) }
{
    let name = name.copy()?;
    task.make_room(1)?;
    task.bind(Bind { name, value });
    task.go_on(program, next);
    Ok(())
}

/// Binds the number and goes on at the node.
pub(crate) fn try_assign(
    program: &Program,
    task: &mut Task,
    name: &Ident,
    number: Result<i128, Trouble>,
    next: u32,
) -> Result<Act, Memory>
    requires next { next < length program.now.nodes }
    requires fits { FitsTask program.now task.old }
    ensures kind { IfOk result (λ act. kind_as act ≡ kind_of (assigns program.now task.old name.now next (computed_of number))) }
    ensures goes { OnOk result (Attempts program.now task.old task.new (assigns program.now task.old name.now next (computed_of number))) }
    ensures ends { OnOk result (NoNewEnds task.old task.new) }
    ensures err { OnErr result (IsUnmoved task.old task.new) }
{
    match number {
        Ok(number) => {
            assign(program, task, name, Value::Int(number), next)?;
            Ok(Act::Silent)
        }
        Err(Trouble::Stuck(why)) => Ok(Act::Stuck(why)),
        Err(Trouble::Halts(why)) => Ok(Act::Halts(why)),
    }
}

/// Whether the left sum is at most the right one.
pub(crate) fn at_most(binds: &[Bind], left: &Term, right: &Term) -> Result<bool, Trouble>
    ensures { computed_of result ≡ compared (sum_of machine (env_of binds.now) (term_of left.now)) (sum_of machine (env_of binds.now) (term_of right.now)) }
{
    let left = sum(binds, left)?;
    let right = sum(binds, right)?;
    Ok(left <= right)
}

/// Goes on at the first node, where this holds, or at the second one. It takes no memory.
pub(crate) fn try_choose(
    program: &Program,
    task: &mut Task,
    less: Result<bool, Trouble>,
    yes: u32,
    no: u32,
) -> Act
    requires yes { yes < length program.now.nodes }
    requires no { no < length program.now.nodes }
    requires fits { FitsTask program.now task.old }
    ensures kind { kind_as result ≡ kind_of (chooses program.now task.old yes no (computed_of less)) }
    ensures goes { Attempts program.now task.old task.new (chooses program.now task.old yes no (computed_of less)) }
    ensures ends { NoNewEnds task.old task.new }
{
    match less {
        Ok(true) => {
            task.go_on(program, yes);
            Act::Silent
        }
        Ok(false) => {
            task.go_on(program, no);
            Act::Silent
        }
        Err(Trouble::Stuck(why)) => Act::Stuck(why),
        Err(Trouble::Halts(why)) => Act::Halts(why),
    }
}

/// Copies of the parts of a pair.
pub(crate) fn parts(value: Option<&Value>) -> Result<Option<(Value, Value)>, Memory>
    ensures parts { IfOk result (λ p. (go : ValueOf → ValueOf → ActOf) → on_pair (option_map (λ v. value_as v.now) value.entry) go ≡ on_parts p go) }
    ensures ends { IfOk result (λ p. (test : EndTest) → IfSome value.entry (λ v. ValuePasses test v.now) → IfSome p (λ q. ValuePasses test q.0 × ValuePasses test q.1)) }
{
    match value {
        Some(Value::Pair(first, second)) => {
            let first = first.get().copy()?;
            let second = second.get().copy()?;
            Ok(Some((first, second)))
        }
        _ => Ok(None),
    }
}

/// Binds the parts of the pair and goes on at the node.
fn split(
    program: &Program,
    task: &mut Task,
    first: &Ident,
    second: &Ident,
    parts: (Value, Value),
    next: u32,
) -> Result<(), Memory>
    requires next { next < length program.now.nodes }
    requires fits { FitsTask program.now task.old }
    ensures ok { OnOk result (GoesTo program.now task.old task.new
        (at_node program.now.nodes next (bound_in second.now (value_as parts.1) (bound_in first.now (value_as parts.0) (place_in program.now task.old))))) }
    ensures ends { OnOk result ((test : EndTest) → ValuePasses test parts.0 → ValuePasses test parts.1 → TaskPasses test task.old → TaskPasses test task.new) }
    ensures err { OnErr result (IsUnmoved task.old task.new) }
{
    let first = first.copy()?;
    let second = second.copy()?;
    task.make_room(2)?;
    task.bind(Bind {
        name: first,
        value: parts.0,
    });
    task.bind(Bind {
        name: second,
        value: parts.1,
    });
    task.go_on(program, next);
    Ok(())
}

/// Binds the parts of the pair, where there is one, and goes on at the node.
pub(crate) fn try_split(
    program: &Program,
    task: &mut Task,
    first: &Ident,
    second: &Ident,
    parts: Option<(Value, Value)>,
    next: u32,
) -> Result<Act, Memory>
    requires next { next < length program.now.nodes }
    requires fits { FitsTask program.now task.old }
    ensures kind { IfOk result (λ act. kind_as act ≡ kind_of (splits program.now task.old first.now second.now next parts)) }
    ensures goes { OnOk result (Attempts program.now task.old task.new (splits program.now task.old first.now second.now next parts)) }
    ensures ends { OnOk result ((test : EndTest) → IfSome parts (λ p. ValuePasses test p.0 × ValuePasses test p.1) → TaskPasses test task.old → TaskPasses test task.new) }
    ensures err { OnErr result (IsUnmoved task.old task.new) }
{
    match parts {
        Some(parts) => {
            split(program, task, first, second, parts, next)?;
            Ok(Act::Silent)
        }
        None => Ok(Act::Stuck(StuckWhy::NotPair)),
    }
}

/// The number and a copy of the value of an arm.
pub(crate) fn arm_of(value: Option<&Value>) -> Result<Option<(u8, Value)>, Memory>
    ensures arm { IfOk result (λ p. (go : ℕ → ValueOf → ActOf) → on_sum (option_map (λ v. value_as v.now) value.entry) go ≡ on_arm p go) }
    ensures ends { IfOk result (λ p. (test : EndTest) → IfSome value.entry (λ v. ValuePasses test v.now) → IfSome p (λ q. ValuePasses test q.1)) }
{
    match value {
        Some(Value::Arm(number, part)) => {
            let number = *number;
            let part = part.get().copy()?;
            Ok(Some((number, part)))
        }
        _ => Ok(None),
    }
}

/// Binds the value and goes on at the arm with the number, where there is one.
fn pick(
    program: &Program,
    task: &mut Task,
    arms: &[Arm],
    number: u8,
    value: Value,
) -> Result<Act, Memory>
    requires leads { LeadWithin arms.now (length program.now.nodes) }
    requires fits { FitsTask program.now task.old }
    ensures kind { IfOk result (λ act. kind_as act ≡ kind_of (picks_arm program.now task.old (value_as value) (slice_get arms.now number))) }
    ensures goes { OnOk result (Attempts program.now task.old task.new (picks_arm program.now task.old (value_as value) (slice_get arms.now number))) }
    ensures ends { OnOk result ((test : EndTest) → ValuePasses test value → TaskPasses test task.old → TaskPasses test task.new) }
    ensures err { OnErr result (IsUnmoved task.old task.new) }
{
    match arms.get(usize::from(number)) {
        Some(arm) => {
            assign(program, task, &arm.pat.name, value, arm.next)?;
            Ok(Act::Silent)
        }
        None => Ok(Act::Stuck(StuckWhy::NotSum)),
    }
}

/// Binds the value of an arm, where there is one, and goes on at the arm with its number.
pub(crate) fn try_pick(
    program: &Program,
    task: &mut Task,
    arms: &[Arm],
    found: Option<(u8, Value)>,
) -> Result<Act, Memory>
    requires leads { LeadWithin arms.now (length program.now.nodes) }
    requires fits { FitsTask program.now task.old }
    ensures kind { IfOk result (λ act. kind_as act ≡ kind_of (picks program.now task.old arms.now found)) }
    ensures goes { OnOk result (Attempts program.now task.old task.new (picks program.now task.old arms.now found)) }
    ensures ends { OnOk result ((test : EndTest) → IfSome found (λ p. ValuePasses test p.1) → TaskPasses test task.old → TaskPasses test task.new) }
    ensures err { OnErr result (IsUnmoved task.old task.new) }
{
    match found {
        Some((number, value)) => pick(program, task, arms, number, value),
        None => Ok(Act::Stuck(StuckWhy::NotSum)),
    }
}

/// Calls the function from the top frame, which goes on at the node with the result.
pub(crate) fn try_call(
    alloc: Global,
    program: &Program,
    task: &mut Task,
    func: &Ident,
    values: Result<Values, Trouble>,
    next: u32,
) -> Result<Act, Memory>
    requires next { next < length program.now.nodes }
    requires some { 0 < length task.old.frames.items }
    requires fits { FitsTask program.now task.old }
    ensures kind { IfOk result (λ act. (callers : List Caller) → kind_as act ≡ kind_of (begins program.now func.now callers (all_made_of values))) }
    ensures goes { (front : List Frame) (f : Frame) → HasTop task.old front f → AtCall program.now.nodes f → OnOk result (Attempts program.now task.old task.new
        (begins program.now func.now (waiting program.now.nodes f next ∷ callers_of program.now.nodes front) (all_made_of values))) }
    ensures ends { OnOk result ((test : EndTest) → IfOk values (λ vs. ValuesPass test vs.items) → TaskPasses test task.old → TaskPasses test task.new) }
    ensures err { OnErr result (IsUnmoved task.old task.new) }
{
    match values {
        Ok(values) => {
            call(alloc, program, task, func, values, next)?;
            Ok(Act::Silent)
        }
        Err(Trouble::Stuck(why)) => Ok(Act::Stuck(why)),
        Err(Trouble::Halts(why)) => Ok(Act::Halts(why)),
    }
}

/// Calls the function in place of the top frame.
pub(crate) fn try_tail(
    alloc: Global,
    program: &Program,
    task: &mut Task,
    func: &Ident,
    values: Result<Values, Trouble>,
) -> Result<Act, Memory>
    requires fits { FitsTask program.now task.old }
    ensures kind { IfOk result (λ act. (callers : List Caller) → kind_as act ≡ kind_of (begins program.now func.now callers (all_made_of values))) }
    ensures goes { (front : List Frame) (f : Frame) → HasTop task.old front f → OnOk result (Attempts program.now task.old task.new
        (begins program.now func.now (callers_of program.now.nodes front) (all_made_of values))) }
    ensures ends { OnOk result ((test : EndTest) → IfOk values (λ vs. ValuesPass test vs.items) → TaskPasses test task.old → TaskPasses test task.new) }
    ensures err { OnErr result (IsUnmoved task.old task.new) }
{
    match values {
        Ok(values) => {
            tail(alloc, program, task, func, values)?;
            Ok(Act::Silent)
        }
        Err(Trouble::Stuck(why)) => Ok(Act::Stuck(why)),
        Err(Trouble::Halts(why)) => Ok(Act::Halts(why)),
    }
}

/// Ends the top frame with the value.
pub(crate) fn try_return(
    program: &Program,
    task: &mut Task,
    value: Result<Value, Trouble>,
) -> Result<Act, Memory>
    requires fits { FitsTask program.now task.old }
    ensures kind { IfOk result (λ act. (front : List Frame) (f : Frame) → HasTop task.old front f
        → kind_as act ≡ kind_of (with_result (made_of value) (returned (callers_of program.now.nodes front)))) }
    ensures goes { (front : List Frame) (f : Frame) → HasTop task.old front f
        → OnOk result (Attempts program.now task.old task.new (with_result (made_of value) (returned (callers_of program.now.nodes front)))) }
    ensures ends { OnOk result ((test : EndTest) → MadePasses test value → TaskPasses test task.old → TaskPasses test task.new) }
    ensures err { OnErr result (IsUnmoved task.old task.new) }
{
    match value {
        Ok(value) => give_back(program, task, value),
        Err(Trouble::Stuck(why)) => Ok(Act::Stuck(why)),
        Err(Trouble::Halts(why)) => Ok(Act::Halts(why)),
    }
}
