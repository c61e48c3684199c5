//! The values of a run.
ghost use Rattle.std.specs.Prelude.{◌≡◌, ◌+◌, min, IfOk};
ghost use Rattle.core_language.specs.Values.{depth};
ghost use Rattle.machine_values.specs.Cells.{Pair, Arm, uncelled};
ghost use Rattle.machine_values.specs.Reading.{celled_of, value_as};

use chan_base::{Memory, Name, Number};
use std::alloc::Global;
use std::marker::Model;
use std::sync::Arc;

pub type Values = Vec<Value>;

/// No value of a run is nested this deep.
pub(crate) const TOO_DEEP: usize = 257;

/// An end of a channel. The definitions read its name alone.
#[derive(Debug, Drop)]
pub struct Channel {
    pub name: Name,
    pub cell: Number,
}

/// A value. An arm has its number, from 0. Copies share the parts.
#[cycle(value)]
#[derive(Drop)]
pub enum Value {
    Int(i128),
    Unit,
    Pair(Shared, Shared),
    Arm(u8, Shared),
    End(Channel),
}

/// A part of values, with its depth, so that this needn't be counted again.
#[cycle(value)]
#[derive(Drop)]
pub struct Shared {
    value: Arc<Value, Global>,
    depth: usize,
}

impl Model for Shared {
    ghost use Rattle.std.specs.Prelude.{◌≡◌, min};
    ghost use Rattle.core_language.specs.Values as core;
    ghost use Rattle.machine_values.specs.Cells as cells;
    ghost use Rattle.machine_values.specs.ValueCode.{value_code};

    ghost Value = { cells.Celled };

    ghost coded = { value_code };

    ghost use Rattle.machine_values.specs.Reading.{celled_of, value_as};

    ghost view = { λ part. celled_of part.value.value };

    ghost invariant = { λ part. part.depth ≡ min (core.depth (value_as part.value.value)) 257 };

    ghost size = { λ value. core.depth (cells.uncelled value) };

    ghost use Rattle.std.proofs.Common.{arith};

    ghost size_decreases = { λ part holds. Prim.grind arith };
}

impl Shared {
    fn new(alloc: Global, value: Value) -> Result<Shared, Memory>
        ensures { IfOk result (λ part. part ≡ celled_of value) }
    {
        let depth = value.depth();
        let value = Arc::new(alloc, value)?;
        Ok(Shared { value, depth })
    }

    /// The value that its copies share.
    pub fn get(&self) -> &Value
        ensures { celled_of result.now ≡ self.now }
    {
        &self.value
    }

    fn copy(&self) -> Result<Shared, Memory>
        ensures { IfOk result (λ copy. copy ≡ self.now) }
    {
        let value = Arc::try_clone(&self.value)?;
        Ok(Shared {
            value,
            depth: self.depth,
        })
    }

    fn depth(&self) -> usize
        ensures { result ≡ min (depth (uncelled self.now)) 257 }
    {
        self.depth
    }
}

impl Value {
    pub fn pair(alloc: Global, first: Value, second: Value) -> Result<Value, Memory>
        ensures { IfOk result (λ value. celled_of value ≡ Pair (celled_of first) (celled_of second)) }
    {
        let first = Shared::new(alloc, first)?;
        let second = Shared::new(alloc, second)?;
        Ok(Value::Pair(first, second))
    }

    pub fn arm(alloc: Global, number: u8, value: Value) -> Result<Value, Memory>
        ensures { IfOk result (λ made. celled_of made ≡ Arm number (celled_of value)) }
    {
        let value = Shared::new(alloc, value)?;
        Ok(Value::Arm(number, value))
    }

    /// A copy, which shares the parts and the names of channels. It takes no memory.
    pub fn copy(&self) -> Result<Value, Memory>
        ensures { IfOk result (λ copy. copy ≡ self.now) }
    {
        match self {
            Value::Int(number) => Ok(Value::Int(*number)),
            Value::Unit => Ok(Value::Unit),
            Value::Pair(first, second) => {
                let first = first.copy()?;
                let second = second.copy()?;
                Ok(Value::Pair(first, second))
            }
            Value::Arm(number, value) => {
                let value = value.copy()?;
                Ok(Value::Arm(*number, value))
            }
            Value::End(channel) => {
                let name = channel.name.copy()?;
                let cell = Number(channel.cell.0);
                Ok(Value::End(Channel { name, cell }))
            }
        }
    }

    /// How deep the value is nested, or `TOO_DEEP` where it is nested deeper than that.
    pub(crate) fn depth(&self) -> usize
        ensures { result ≡ min (depth (value_as self.now)) 257 }
    {
        match self {
            Value::Int(_) => 0,
            Value::Unit => 0,
            Value::Pair(first, second) => deeper(first.depth().max(second.depth())),
            Value::Arm(_, value) => deeper(value.depth()),
            Value::End(_) => 0,
        }
    }
}

/// The depth of a value whose deepest part has this depth.
fn deeper(depth: usize) -> usize
    ensures { result ≡ min (depth + 1) 257 }
{
    if depth < TOO_DEEP {
        depth + 1
    } else {
        TOO_DEEP
    }
}
