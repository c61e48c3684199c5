//! Cases of instances that stand for binders.
use crate::terms::form;
use chan_base::Memory;
use nameless_forms::{Form, FormFault, Forms, Var, at_most_row_with, form_with, less_row_with};
use sqlite_items::Items;
use std::alloc::Global;
use std::test::Fail;

/// Twice the first integer variable, and 5.
fn instances(alloc: Global) -> Result<Forms, FormFault> {
    let mut instances = Items::new(alloc);
    instances.push(form(alloc, &[(2, b'n')])?)?;
    instances.push(Form::constant(alloc, 5))?;
    Ok(instances)
}

/// The binder with this number, with the instances.
fn put(alloc: Global, depth: usize, number: u32) -> Result<Form, FormFault> {
    let instances = instances(alloc)?;
    let binder = Form::variable(alloc, Var::inside(number as usize))?;
    form_with(alloc, instances.as_slice(), depth, &binder)
}

fn is_instance(alloc: Global, depth: usize, number: u32, index: usize) -> Result<bool, FormFault> {
    let instances = instances(alloc)?;
    let put = put(alloc, depth, number)?;
    match instances.as_slice().get(index) {
        Some(instance) => Ok(put.is_same(instance)),
        None => Ok(false),
    }
}

fn stays(alloc: Global, depth: usize, number: u32) -> Result<bool, FormFault> {
    let binder = Form::variable(alloc, Var::inside(number as usize))?;
    let put = put(alloc, depth, number)?;
    Ok(put.is_same(&binder))
}

fn holds(answer: Result<bool, FormFault>) -> Result<bool, Memory> {
    match answer {
        Ok(answer) => Ok(answer),
        Err(FormFault::TooLarge) => Ok(false),
        Err(FormFault::Memory) => Err(Memory),
    }
}

#[test]
fn instances_stand_for_the_binders_around_a_depth(rt: HostRuntime) -> Result<(), Fail> {
    let alloc = rt.alloc();
    for (depth, number, index) in [(0, 0, 0), (0, 1, 1), (1, 1, 0), (1, 2, 1)] {
        assert!(rt; holds(is_instance(alloc, depth, number, index))?);
    }
    for (depth, number) in [(0, 2), (1, 0), (1, 3), (4, 3)] {
        assert!(rt; holds(stays(alloc, depth, number))?);
    }
    Ok(())
}

/// The rows of limits between the first binder and the second.
fn rows_are(alloc: Global) -> Result<bool, FormFault> {
    let instances = instances(alloc)?;
    let left = Form::variable(alloc, Var::inside(0))?;
    let right = Form::variable(alloc, Var::inside(1))?;
    let at_most = at_most_row_with(alloc, 3, instances.as_slice(), &left, &right)?;
    let less = less_row_with(alloc, 3, instances.as_slice(), &left, &right)?;
    Ok(
        at_most.coefficients.as_slice() == [2, 0, 0].as_slice()
            && at_most.constant == -5
            && less.coefficients.as_slice() == [2, 0, 0].as_slice()
            && less.constant == -4,
    )
}

#[test]
fn rows_are_those_of_the_instances(rt: HostRuntime) -> Result<(), Fail> {
    assert!(rt; holds(rows_are(rt.alloc()))?);
    Ok(())
}
