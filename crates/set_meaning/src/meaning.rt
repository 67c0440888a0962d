ghost use Rattle.std.specs.Prelude.{◌≡◌, ◌↔◌, ◌++◌, IsTrue, IfOk, OnOk, filter_map};
ghost use Rattle.set_meaning.specs.Relations.{Holds, IsScope, terms_of, variable_of, variables_of};
ghost use Rattle.set_meaning.specs.Solutions.{IsSolution};

mod booleans;
mod comparison;
mod elements;
mod integers;
mod linear_sums;
mod relations;
mod sets;
mod terms;

use crate::kinds::{Value, is_assignment};
use crate::meaning::relations::relation_holds;
use crate::meaning::terms::bool_of_term;
use crate::problems::{Arg, Constraint, Problem, Term, VarId};
use std::alloc::{AllocError, Global};
use std::slice;

impl Arg {
    /// The terms of the argument, in order.
    pub fn terms(&self) -> &[Term]
        ensures { result.now ≡ terms_of self.now }
    {
        match self {
            Arg::One(term) => slice::from_ref(term),
            Arg::Many(terms) => terms.items(),
        }
    }
}

/// The variables that the constraint has, the one that names its truth value too, ascending, each once. An `Err` is
/// want of memory.
pub fn scope(alloc: Global, c: &Constraint) -> Result<Vec<VarId>, AllocError>
    ensures { IfOk result (λ vs. IsScope c.now vs.items) }
{
    let mut variables = variables_of(alloc, c)?;
    variables.sort_unstable();
    variables.dedup();
    Ok(variables)
}

/// Whether the constraint holds under the values, one a variable. An `Err` is want of memory.
///
/// The relations are this project's profile of the FlatZinc builtins (MiniZinc Handbook), and `Relation` says what
/// each means. Sums and products are those of plain integers: none overflows, whatever the constants and values.
///
/// Arguments that are not those of the relation, or a variable among them without a value of the right sort, make the
/// relation false: the constraint then does not hold, and a reified one holds where its Boolean is false. A reified one
/// whose Boolean has no value does not hold.
#[tactic(auto, unfolding(crate::specs::Relations::Holds))]
pub fn holds(alloc: Global, c: &Constraint, values: &[Value]) -> Result<bool, AllocError>
    ensures { IfOk result (λ holds. IsTrue holds ↔ Holds c.now values.now) }
{
    let truth = relation_holds(alloc, c.relation, c.args.items(), values)?;
    match &c.reif {
        None => Ok(truth),
        Some(term) => match bool_of_term(term, values) {
            Some(named) => Ok(named == truth),
            None => Ok(false),
        },
    }
}

/// Whether the values are a solution: one value a variable, each in its variable's kind, and every constraint holds.
/// An `Err` is want of memory.
pub fn is_solution(alloc: Global, p: &Problem, values: &[Value]) -> Result<bool, AllocError>
    ensures { IfOk result (λ solves. IsTrue solves ↔ IsSolution p.now values.now) }
{
    if !is_assignment(p.kinds.items(), values) {
        return Ok(false);
    }
    for c in p.constraints.items() {
        if !holds(alloc, c, values)? {
            return Ok(false);
        }
    }
    Ok(true)
}

/// The variables that stand in the constraint, in order.
fn variables_of(alloc: Global, c: &Constraint) -> Result<Vec<VarId>, AllocError>
    ensures { IfOk result (λ vs. vs.items ≡ variables_of c.now) }
{
    let mut variables = Vec::new(alloc);
    for arg in c.args.items() {
        push_variables(&mut variables, arg.terms())?;
    }
    push_variables(&mut variables, c.reif.as_slice())?;
    Ok(variables)
}

fn push_variables(variables: &mut Vec<VarId>, terms: &[Term]) -> Result<(), AllocError>
    ensures { OnOk result (variables.new.items ≡ variables.old.items ++ filter_map variable_of terms.now) }
{
    for term in terms {
        if let Term::Var(variable) = term {
            variables.push(*variable)?;
        }
    }
    Ok(())
}
