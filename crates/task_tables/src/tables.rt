//! A table of tasks.
ghost use Rattle.std.specs.Prelude.{◌≡◌, true, Some, None, IfOk, OnOk, OnErr, filter};
ghost use Rattle.std.specs.Option.{option_map};
ghost use Rattle.std.specs.List.{All, slice_get};
ghost use Rattle.std.specs.Ordering.{nat_cmp};
ghost use Rattle.std.specs.Cmp.Lexicographic.{slice_cmp};
ghost use Rattle.std.specs.BTreeMap as index;
ghost use Rattle.std.specs.FinMap.{empty, insert, keys, len};
ghost use Rattle.task_tables.specs.Numbered.{IsNumbered};
ghost use Rattle.task_tables.specs.Tables.{goes_on, going_in, looked_up};

use chan_base::{Memory, Name, Names};
use machine_tasks::Task;
use sqlite_items::Items;
use std::alloc::Global;
use std::collections::BTreeMap;
use std::marker::Model;

/// Tasks in the order in which they were put, each with a name of its own. Its place in that order is
/// its number, which it keeps. Who was told the number finds the task without a search: each call takes
/// a number to try first, and any other one does no harm.
#[derive(Drop)]
pub struct TaskTable {
    pub(crate) names: Vec<Name>,
    pub(crate) tasks: Vec<Task>,
    pub(crate) numbers: BTreeMap<Name, usize>,
}

impl Model for TaskTable {
    ghost use Rattle.std.specs.Coded.{coded_list, coded_ℕ};
    ghost use Rattle.std.specs.FinMap as map;
    ghost use Rattle.core_language.specs.Names.{NameMap};
    ghost use Rattle.machine_tasks.specs.declared.tasks.Task.{Task};
    ghost use Rattle.machine_tasks.specs.contracts.tasks.Task as task;
    ghost use Rattle.task_tables.specs.Numbered.{IsTable, rows_of};

    ghost Value = { NameMap Task };

    ghost coded = { map.code (coded_list coded_ℕ) task.the_row.coded };

    ghost view = { λ table. map.from_entries (rows_of table.names.items table.tasks.items) };

    ghost invariant = { λ table. IsTable table.names.items table.tasks.items table.numbers };
}

/// Whether the guess is the number of the name.
fn is_number(names: &[Name], name: &Name, guess: usize) -> bool
    ensures { result ≡ true → slice_get names.now guess ≡ Some name.now }
{
    match names.get(guess) {
        Some(there) => *there == *name,
        None => false,
    }
}

/// The number of the name. The guess is tried first.
pub(crate) fn number_of(
    names: &[Name],
    numbers: &BTreeMap<Name, usize>,
    name: &Name,
    guess: usize,
) -> Option<usize>
    requires { IsNumbered names.now numbers.now }
    ensures { result ≡ index.get (slice_cmp nat_cmp) numbers.now name.now }
{
    if is_number(names, name, guess) {
        return Some(guess);
    }
    match numbers.get(name) {
        Some(number) => Some(*number),
        None => None,
    }
}

/// Whether there is a task with this number that has not ended.
fn is_going(tasks: &[Task], number: usize) -> bool
    ensures { result ≡ goes_on (slice_get tasks.now number) }
{
    match tasks.get(number) {
        Some(task) => !task.frames().is_empty(),
        None => false,
    }
}

/// The names of an index, in order.
fn listed(alloc: Global, numbers: &BTreeMap<Name, usize>) -> Result<Names, Memory>
    ensures names { IfOk result (λ names. names ≡ index.keys numbers.now) }
    ensures ordered { index.IsOrdered (slice_cmp nat_cmp) numbers.now }
{
    let mut names = Items::new(alloc);
    'numbers: for (name, _) in numbers.iter() {
        names.push(name.copy()?)?;
    }
    Ok(names)
}

/// The names of the tasks that have not ended, in order.
fn going(alloc: Global, numbers: &BTreeMap<Name, usize>, tasks: &[Task]) -> Result<Names, Memory>
    ensures names { IfOk result (λ names. names ≡ going_in tasks.now numbers.now.entries) }
    ensures found { All (λ e. index.get (slice_cmp nat_cmp) numbers.now e.0 ≡ Some e.1) numbers.now.entries }
    ensures ordered { index.IsOrdered (slice_cmp nat_cmp) numbers.now }
{
    let mut names = Items::new(alloc);
    'numbers: for (name, number) in numbers.iter() {
        if is_going(tasks, *number) {
            names.push(name.copy()?)?;
        }
    }
    Ok(names)
}

impl TaskTable {
    pub fn new(alloc: Global) -> TaskTable
        ensures { result ≡ empty }
    {
        TaskTable {
            names: Vec::new(alloc),
            tasks: Vec::new(alloc),
            numbers: BTreeMap::new(alloc),
        }
    }

    /// How many tasks there are, which is the number of the next new one.
    pub fn len(&self) -> usize
        ensures { result ≡ len self.now }
    {
        self.names.len()
    }

    /// The task with this name.
    pub fn get(&self, name: &Name, guess: usize) -> Option<&Task>
        ensures { option_map (λ task. task.now) result ≡ looked_up (slice_cmp nat_cmp) self.now name.now }
    {
        match number_of(self.names.as_slice(), &self.numbers, name, guess) {
            Some(number) => Some(&self.tasks[number]),
            None => None,
        }
    }

    fn add(&mut self, task: Task) -> Result<(), Memory>
        requires { looked_up (slice_cmp nat_cmp) self.old task.name ≡ None }
        ensures ok { OnOk result (self.new ≡ insert self.old task.name task) }
        ensures err { OnErr result (self.new ≡ self.old) }
    {
        let name = task.name().copy()?;
        let key = task.name().copy()?;
        let number = self.names.len();
        self.names.reserve(1)?;
        self.tasks.reserve(1)?;
        self.numbers.insert(key, number)?;
        self.names.push_reserved(name);
        self.tasks.push_reserved(task);
        Ok(())
    }

    /// Puts the task under its name, in the place of the one that has it already.
    pub fn put(&mut self, task: Task) -> Result<(), Memory>
        ensures ok { OnOk result (self.new ≡ insert self.old task.name task) }
        ensures err { OnErr result (self.new ≡ self.old) }
    {
        match self.numbers.get(task.name()) {
            Some(number) => {
                let number = *number;
                self.tasks[number] = task;
                Ok(())
            }
            None => self.add(task),
        }
    }

    /// The names in order.
    pub fn names(&self, alloc: Global) -> Result<Names, Memory>
        ensures { IfOk result (λ names. names ≡ keys self.now) }
    {
        listed(alloc, &self.numbers)
    }

    /// The names of the tasks that have not ended, in order.
    pub fn unended(&self, alloc: Global) -> Result<Names, Memory>
        ensures { IfOk result (λ names. names ≡ filter (λ p. goes_on (looked_up (slice_cmp nat_cmp) self.now p)) (keys self.now)) }
    {
        going(alloc, &self.numbers, self.tasks.as_slice())
    }
}
