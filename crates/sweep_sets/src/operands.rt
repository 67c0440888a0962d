//! The sets of a constraint.
ghost use Rattle.std.specs.Prelude.{◌≡◌, []};
ghost use Rattle.set_meaning.specs.Relations.{variable_of};
ghost use Rattle.bit_layout.specs.Words.{lists};
ghost use Rattle.sweep_sets.specs.Operands.{elements_of_value, IsOperand, is_variable, constant_marks, variable_marks};

use crate::marks::Marks;
use set_meaning::{SetValue, Term, Value, VarId};

/// One of the sets: what it has in any case, and the variable that it is.
#[derive(Clone, Copy)]
pub(crate) struct Operand<'a> {
    pub(crate) constant: &'a SetValue,
    pub(crate) variable: Option<VarId>,
}

/// The sets of which a constraint speaks. Where there are two, the third is the empty set.
#[derive(Clone, Copy)]
pub(crate) struct Operands<'a> {
    pub(crate) first: Operand<'a>,
    pub(crate) second: Operand<'a>,
    pub(crate) third: Operand<'a>,
}

/// The set of a term; `nothing` is an empty set, which a variable has in any case.
pub(crate) fn operand_of<'a>(term: &'a Term, nothing: &'a SetValue) -> Operand<'a>
    requires { nothing.now ≡ [] }
    ensures { IsOperand result term.now }
{
    match term {
        Term::Const(value) => Operand {
            constant: constant_of(value, nothing),
            variable: None,
        },
        Term::Var(v) => Operand {
            constant: nothing,
            variable: Some(*v),
        },
    }
}

/// The set of a constant; of another constant an empty one.
fn constant_of<'a>(value: &'a Value, nothing: &'a SetValue) -> &'a SetValue
    requires { nothing.now ≡ [] }
    ensures { result.now ≡ elements_of_value value.now }
{
    match value {
        Value::Bool(_) => nothing,
        Value::Int(_) => nothing,
        Value::Set(set) => set,
    }
}

impl Operands<'_> {
    /// Which of the sets have the element in any case.
    pub(crate) fn constant_marks(&self, element: i64) -> Marks
        ensures { result ≡ constant_marks self.now element }
    {
        Marks {
            first: lists(self.first.constant, element),
            second: lists(self.second.constant, element),
            third: lists(self.third.constant, element),
        }
    }

    /// Which of the sets are this variable.
    pub(crate) fn variable_marks(&self, variable: VarId) -> Marks
        ensures { result ≡ variable_marks self.now variable }
    {
        Marks {
            first: is_variable(&self.first, variable),
            second: is_variable(&self.second, variable),
            third: is_variable(&self.third, variable),
        }
    }
}

fn lists(set: &SetValue, x: i64) -> bool
    ensures { result ≡ lists set.now x }
{
    set.has(x)
}

fn is_variable(operand: &Operand, variable: VarId) -> bool
    ensures { result ≡ is_variable operand.now variable }
{
    match operand.variable {
        Some(own) => own.0 == variable.0,
        None => false,
    }
}
