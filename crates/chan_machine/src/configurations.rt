//! Configurations: tasks, channels and prints.
ghost use Rattle.std.specs.Prelude.{◌≡◌, IfOk, OnOk};
ghost use Rattle.std.specs.Option.{option_map};
ghost use Rattle.std.specs.Ordering.{nat_cmp};
ghost use Rattle.std.specs.Cmp.Lexicographic.{slice_cmp};
ghost use Rattle.std.specs.BTreeMap.{get as looked_up};
ghost use Rattle.std.specs.FinMap.{keys, insert};
ghost use Rattle.core_programs.specs.declared.nodes.Parts.{Parts};
ghost use Rattle.machine_values.specs.Reading.{value_as};
ghost use Rattle.chan_machine.specs.Reading.{stored_in, config_of, channels_named, config_with, map_of, put_by_name};
ghost use Rattle.chan_machine.specs.Fits.{AllFit, Fits};

use chan_base::{Memory, Name, Names};
use machine_tasks::{Tasks, Value};
use sqlite_items::Items;
use std::alloc::Global;
use std::collections::BTreeMap;
use task_tables::TaskTable;

pub type Stores = Items<Store>;

pub type Puts = Items<Put>;

/// A channel: Empty, or Full with a value.
#[derive(Drop)]
pub struct Store {
    pub name: Name,
    pub value: Option<Value>,
}

/// A print: the task and the number.
#[derive(Debug, Drop)]
pub struct Put {
    pub name: Name,
    pub number: i128,
}

/// Tasks by their names, ended ones too; channels by theirs; and the prints in the order in which
/// they came.
#[derive(Drop)]
pub struct Config {
    pub(crate) tasks: TaskTable,
    pub(crate) channels: BTreeMap<Name, Option<Value>>,
    pub(crate) prints: Puts,
}

impl Config {
    /// The value on the channel, where it is there and is Full.
    pub fn stored(&self, channel: &Name) -> Option<&Value>
        ensures { option_map (λ value. value.now) result ≡ stored_in (looked_up (slice_cmp nat_cmp) self.now.channels channel.now) }
    {
        match self.channels.get(channel) {
            Some(Some(value)) => Some(value),
            _ => None,
        }
    }

    pub fn prints(&self) -> &Puts
        ensures { result.now ≡ self.now.prints }
    {
        &self.prints
    }
}

impl Config {
    /// The names of the channels in order.
    pub fn channels(&self, alloc: Global) -> Result<Names, Memory>
        ensures { IfOk result (λ names. (program : Parts) → names ≡ keys (config_of program self.now).channels) }
    {
        let mut names = Items::new(alloc);
        'channels: for (name, _) in self.channels.iter() {
            names.push(name.copy()?)?;
        }
        Ok(names)
    }
}

/// Puts the channel under its name.
fn put_channel(channels: &mut BTreeMap<Name, Option<Value>>, store: Store) -> Result<(), Memory>
    ensures { OnOk result (map_of (option_map value_as) channels.new
        ≡ insert (map_of (option_map value_as) channels.old) store.name (option_map value_as store.value)) }
{
    let Store { name, value } = store;
    channels.insert(name, value)?;
    Ok(())
}

/// The tasks under their names.
fn gather_tasks(alloc: Global, tasks: Tasks) -> Result<TaskTable, Memory>
    ensures { IfOk result (λ gathered. gathered ≡ put_by_name tasks) }
{
    let mut left = tasks;
    let mut gathered = TaskTable::new(alloc);
    'tasks: while let Some(task) = left.pop() {
        gathered.put(task)?;
    }
    Ok(gathered)
}

/// The channels under their names.
fn gather_channels(alloc: Global, stores: Stores) -> Result<BTreeMap<Name, Option<Value>>, Memory>
    ensures { IfOk result (λ gathered. map_of (option_map value_as) gathered ≡ channels_named stores) }
{
    let mut left = stores;
    let mut gathered = BTreeMap::new(alloc);
    'stores: while let Some(store) = left.pop() {
        put_channel(&mut gathered, store)?;
    }
    Ok(gathered)
}

impl Config {
    /// The configuration of these tasks, channels and prints: of two with one name the first.
    pub fn of(alloc: Global, tasks: Tasks, channels: Stores, prints: Puts) -> Result<Config, Memory>
        ensures value { IfOk result (λ config. (program : Parts) → config_of program config ≡ config_with program tasks channels prints) }
        ensures fits { IfOk result (λ config. (program : Parts) → AllFit program tasks → Fits program config) }
    {
        Ok(Config {
            tasks: gather_tasks(alloc, tasks)?,
            channels: gather_channels(alloc, channels)?,
            prints,
        })
    }
}
