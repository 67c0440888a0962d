ghost use Rattle.std.specs.Prelude.{◌≡◌, ◌↔◌, IsTrue, IfOk, Contains};
ghost use Rattle.set_meaning.specs.declared.kinds.Value.{Value as AnyValue};
ghost use Rattle.set_meaning.specs.Kinds.{initial_values, InKind, IsAssignment, IsSetWithin};

use crate::sets::SetValue;
use std::alloc::{AllocError, Global};

/// A value of a variable or a constant.
#[derive(Drop, Debug)]
pub enum Value {
    Bool(bool),
    Int(i64),
    Set(SetValue),
}

impl Value {
    /// An equal value, with memory of its own.
    pub fn copy(&self, alloc: Global) -> Result<Value, AllocError>
        ensures { IfOk result (λ copy. copy ≡ self.now) }
    {
        match self {
            Value::Bool(truth) => Ok(Value::Bool(*truth)),
            Value::Int(x) => Ok(Value::Int(*x)),
            Value::Set(set) => Ok(Value::Set(set.copy(alloc)?)),
        }
    }
}

/// What a variable may take: a Boolean, one of the listed integers, or a set of elements of the listed universe.
#[derive(Drop, Debug)]
pub enum Kind {
    Bool,
    Int(SetValue),
    Set(SetValue),
}

/// Whether the value is one of the initial values of the kind.
#[tactic(auto, unfolding(crate::specs::Kinds::InKind))]
pub fn in_kind(kind: &Kind, value: &Value) -> bool
    ensures { IsTrue result ↔ InKind kind.now value.now }
{
    match kind {
        Kind::Bool => matches!(value, Value::Bool(_)),
        Kind::Int(numbers) => match value {
            Value::Int(x) => numbers.has(*x),
            _ => false,
        },
        Kind::Set(universe) => match value {
            Value::Set(set) => is_set_within(universe, set),
            _ => false,
        },
    }
}

/// Does nothing. Its contract is the law that the initial values of a kind are just the values in it.
pub fn initial_values_are_in_kind(kind: &Kind)
    ensures { (v : AnyValue) → InKind kind.now v ↔ Contains (initial_values kind.now) v }
{
    match kind {
        Kind::Bool => {}
        Kind::Int(_) => {}
        Kind::Set(universe) => {
            let _ = universe.elements();
        }
    }
}

fn is_set_within(universe: &SetValue, set: &SetValue) -> bool
    ensures { IsTrue result ↔ IsSetWithin universe.now set.now }
{
    let _ = set.elements();
    set.is_subset(universe)
}

/// Whether there is one value a variable, each in its variable's kind.
pub fn is_assignment(kinds: &[Kind], values: &[Value]) -> bool
    ensures { IsTrue result ↔ IsAssignment kinds.now values.now }
{
    if kinds.len() != values.len() {
        return false;
    }
    for (kind, value) in kinds.iter().zip(values) {
        if !in_kind(kind, value) {
            return false;
        }
    }
    true
}
