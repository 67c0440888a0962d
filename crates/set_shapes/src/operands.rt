//! The two or three sets of a constraint.
ghost use Rattle.std.specs.Prelude.{◌≡◌, ◌++◌, IfOk, OnOk, filter_map, [], ◌∷◌};
ghost use Rattle.set_meaning.specs.declared.problems.Term.TheVariants.{Const};
ghost use Rattle.set_meaning.specs.Relations.{variable_of};
ghost use Rattle.bit_layout.specs.Words.{lists};
ghost use Rattle.set_shapes.specs.Operands.{term_of, operands_of, nothing, variables_of, universe_of, universe_of_kind, elements_of_value, constant_has, is_variable, constant_marks, variable_marks};

use element_machine::Marks;
use set_meaning::{Arg, Kind, SetValue, Term, Value, VarId};
use std::alloc::{AllocError, Global};

/// The sets of which a constraint speaks. Where there are two, the third is the empty set.
#[derive(Drop)]
pub(crate) struct Operands {
    pub(crate) first: Term,
    pub(crate) second: Term,
    pub(crate) third: Term,
}

pub(crate) fn operands_of(alloc: Global, args: &[Arg]) -> Result<Operands, AllocError>
    ensures { IfOk result (λ o. o ≡ operands_of args.now) }
{
    match args {
        [a, b] => Ok(Operands {
            first: term_of(alloc, a)?,
            second: term_of(alloc, b)?,
            third: nothing(alloc)?,
        }),
        [a, b, c] => Ok(Operands {
            first: term_of(alloc, a)?,
            second: term_of(alloc, b)?,
            third: term_of(alloc, c)?,
        }),
        _ => Ok(Operands {
            first: nothing(alloc)?,
            second: nothing(alloc)?,
            third: nothing(alloc)?,
        }),
    }
}

/// Two sets that are to be compared.
pub(crate) fn pair_of(alloc: Global, first: &Term, second: &Term) -> Result<Operands, AllocError>
    ensures { IfOk result (λ o. o ≡ record { first = first.now; second = second.now; third = nothing }) }
{
    Ok(Operands {
        first: copy(alloc, first)?,
        second: copy(alloc, second)?,
        third: nothing(alloc)?,
    })
}

/// The empty set.
fn nothing(alloc: Global) -> Result<Term, AllocError>
    ensures { IfOk result (λ t. t ≡ nothing) }
{
    Ok(Term::Const(Value::Set(SetValue::from_list(alloc, &[])?)))
}

/// An equal term, with memory of its own.
fn term_of(alloc: Global, arg: &Arg) -> Result<Term, AllocError>
    ensures { IfOk result (λ t. t ≡ term_of arg.now) }
{
    match arg {
        Arg::One(term) => copy(alloc, term),
        Arg::Many(_) => nothing(alloc),
    }
}

fn copy(alloc: Global, term: &Term) -> Result<Term, AllocError>
    ensures { IfOk result (λ t. t ≡ term.now) }
{
    match term {
        Term::Const(value) => Ok(Term::Const(value.copy(alloc)?)),
        Term::Var(v) => Ok(Term::Var(*v)),
    }
}

impl Operands {
    /// The variables among the sets, as often as they stand there.
    pub(crate) fn variables(&self, alloc: Global) -> Result<Vec<VarId>, AllocError>
        ensures { IfOk result (λ vs. vs.items ≡ variables_of self.now) }
    {
        let mut variables = Vec::new(alloc);
        push_variable(&mut variables, &self.first)?;
        push_variable(&mut variables, &self.second)?;
        push_variable(&mut variables, &self.third)?;
        Ok(variables)
    }

    /// Which of the sets are constants that have the element.
    pub(crate) fn constant_marks(&self, element: i64) -> Marks
        ensures { result ≡ constant_marks self.now element }
    {
        Marks {
            first: constant_has(&self.first, element),
            second: constant_has(&self.second, element),
            third: constant_has(&self.third, element),
        }
    }

    /// Which of the sets are this variable.
    pub(crate) fn variable_marks(&self, variable: VarId) -> Marks
        ensures { result ≡ variable_marks self.now variable }
    {
        Marks {
            first: is_variable(&self.first, variable),
            second: is_variable(&self.second, variable),
            third: is_variable(&self.third, variable),
        }
    }
}

fn push_variable(variables: &mut Vec<VarId>, term: &Term) -> Result<(), AllocError>
    ensures { OnOk result (variables.new.items ≡ variables.old.items ++ filter_map variable_of (term.now ∷ [])) }
{
    match term {
        Term::Const(_) => Ok(()),
        Term::Var(v) => {
            variables.push(*v)?;
            Ok(())
        }
    }
}

/// The elements that the set may have: those of a constant, or the universe of a variable.
pub(crate) fn universe_of<'a>(kinds: &'a [Kind], term: &'a Term) -> &'a [i64]
    ensures { result.now ≡ universe_of kinds.now term.now }
{
    match term {
        Term::Const(value) => elements_of_value(value),
        Term::Var(v) => match kinds.get(v.0 as usize) {
            Some(kind) => universe_of_kind(kind),
            None => &[],
        },
    }
}

fn elements_of_value(value: &Value) -> &[i64]
    ensures { result.now ≡ elements_of_value value.now }
{
    match value {
        Value::Set(set) => set.elements(),
        _ => &[],
    }
}

fn universe_of_kind(kind: &Kind) -> &[i64]
    ensures { result.now ≡ universe_of_kind kind.now }
{
    match kind {
        Kind::Set(universe) => universe.elements(),
        _ => &[],
    }
}

/// Whether the term is a constant set that has the element.
fn constant_has(term: &Term, element: i64) -> bool
    ensures { result ≡ constant_has term.now element }
{
    match term {
        Term::Const(value) => value_has(value, element),
        Term::Var(_) => false,
    }
}

fn value_has(value: &Value, element: i64) -> bool
    ensures { result ≡ constant_has (Const value.now) element }
{
    match value {
        Value::Set(set) => lists(set, element),
        _ => false,
    }
}

fn lists(set: &SetValue, x: i64) -> bool
    ensures { result ≡ lists set.now x }
{
    set.has(x)
}

fn is_variable(term: &Term, variable: VarId) -> bool
    ensures { result ≡ is_variable term.now variable }
{
    match term {
        Term::Const(_) => false,
        Term::Var(v) => v.0 == variable.0,
    }
}
