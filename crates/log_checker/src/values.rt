//! The values that an answer lists.

ghost use Rattle.std.specs.Prelude.{◌≡◌, map, IfOk};
ghost use Rattle.std.specs.List.{AllByRecursion};
ghost use Rattle.log_text.specs.Spelling.{IsSet, IsValue};
ghost use Rattle.log_rules.specs.States.{value_in};

use log_text::{Ints, LogValue};
use set_meaning::{SetValue, Value};
use std::alloc::{AllocError, Global};

/// The values that are written so.
pub(crate) fn values_of(alloc: Global, written: &[LogValue]) -> Result<Vec<Value>, AllocError>
    requires { AllByRecursion IsValue written.now }
    ensures { IfOk result (λ values. values.items ≡ map value_in written.now) }
{
    let mut values = Vec::new(alloc);
    for value in written {
        values.push(value_of(alloc, value)?)?;
    }
    Ok(values)
}

/// The value that is written so.
fn value_of(alloc: Global, written: &LogValue) -> Result<Value, AllocError>
    requires { IsValue written.now }
    ensures { IfOk result (λ value. value ≡ value_in written.now) }
{
    match written {
        LogValue::Bool(truth) => Ok(Value::Bool(*truth)),
        LogValue::Int(x) => Ok(Value::Int(*x)),
        LogValue::Set(elements) => Ok(Value::Set(set_of(alloc, elements)?)),
    }
}

/// The set of these elements, which ascend.
fn set_of(alloc: Global, elements: &Ints) -> Result<SetValue, AllocError>
    requires { IsSet elements.now }
    ensures { IfOk result (λ set. set ≡ elements.now) }
{
    let set = SetValue::from_list(alloc, elements.items())?;
    Ok(set)
}
