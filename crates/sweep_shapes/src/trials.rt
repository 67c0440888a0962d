//! Values that are tried for the variables of a constraint.
ghost use Rattle.std.specs.Prelude.{◌≡◌, ◌↔◌, ◌<◌, length, slice_set, IsTrue, IfOk, OnOk};
ghost use Rattle.sweep_shapes.specs.Trials.{AreApart, AreBelow, AreSameBut, Opens, SomeChosen};

use crate::choices::Choice;
use listed::Listed;
use set_meaning::{Constraint, Value, VarId, holds};
use std::alloc::{AllocError, Global};

/// Whether the constraint holds under some values of the choices, and elsewhere under these values. What stands in `values` for the
/// variables of the choices is lost. It tries all values one after another: the time is of the order of the product of their numbers.
/// The depth of the recursion is the number of choices. An `Err` is want of memory.
pub(crate) fn holds_for_some(
    alloc: Global,
    c: &Constraint,
    choices: &[Choice],
    values: &mut [Value],
) -> Result<bool, AllocError>
    requires below { AreBelow (length values.old) choices.now }
    requires apart { AreApart choices.now }
    ensures tried { IfOk result (λ found. IsTrue found ↔ SomeChosen values.old choices.now c.now) }
    ensures others { AreSameBut choices.now values.old values.new }
{
    match choices {
        [] => {
            let found = holds(alloc, c, values)?;
            Ok(found)
        }
        [first, others @ ..] => {
            let tried = first.values.items();
            for x in tried {
                let copy = x.copy(alloc)?;
                put(values, first.variable, copy);
                let found = holds_for_some(alloc, c, others, values)?;
                if found {
                    return Ok(true);
                }
            }
            Ok(false)
        }
    }
}

/// Gives the variable the value.
fn put(values: &mut [Value], v: VarId, x: Value)
    requires { v.0 < length values.old }
    ensures { values.new ≡ slice_set values.old v.0 x }
{
    values[v.0 as usize] = x;
}

/// Gives the variable its one value, or adds a choice where there is not just one.
pub(crate) fn open(
    values: &mut [Value],
    choices: &mut Vec<Choice>,
    v: VarId,
    mut own: Vec<Value>,
) -> Result<(), AllocError>
    requires { v.0 < length values.old }
    ensures { OnOk result (Opens values.old choices.old.items v own.items values.new choices.new.items) }
{
    if own.len() == 1 {
        if let Some(x) = own.pop() {
            put(values, v, x);
        }
        return Ok(());
    }
    choices.push(Choice {
        variable: v,
        values: Listed::of(own),
    })?;
    Ok(())
}
