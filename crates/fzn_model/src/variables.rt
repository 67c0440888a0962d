//! The variables of a constraint, which are gathered without making it.

ghost use Rattle.std.specs.Prelude.{◌≡◌, ◌++◌, IfOk, OnOk, option_to_list};
ghost use Rattle.std.specs.List.{flat_map};
ghost use Rattle.set_meaning.specs.Relations.{IsScope, variables_of};
ghost use Rattle.fzn_model.specs.Shared.{constraint_in, variables_in, variables_in_arg};

use crate::shared::{SharedArg, SharedConstraint, SharedTerm};
use set_meaning::VarId;
use std::alloc::{AllocError, Global};

/// The variables that the constraint has, ascending, each once. An `Err` is want of memory.
pub(crate) fn scope(alloc: Global, c: &SharedConstraint) -> Result<Vec<VarId>, AllocError>
    ensures { IfOk result (λ vs. IsScope (constraint_in c.now) vs.items) }
{
    let mut variables = variables_of(alloc, c)?;
    variables.sort_unstable();
    variables.dedup();
    Ok(variables)
}

/// The variables that stand in the constraint, in order.
#[tactic(auto, using(crate::proofs::SharedScopes::of_parts))]
fn variables_of(alloc: Global, c: &SharedConstraint) -> Result<Vec<VarId>, AllocError>
    ensures { IfOk result (λ vs. vs.items ≡ variables_of (constraint_in c.now)) }
{
    let mut variables = Vec::new(alloc);
    push_from_args(&mut variables, c.args.as_slice())?;
    push_from_truth(&mut variables, &c.reif)?;
    Ok(variables)
}

fn push_from_truth(variables: &mut Vec<VarId>, truth: &Option<SharedTerm>) -> Result<(), AllocError>
    ensures { OnOk result (variables.new.items ≡ variables.old.items ++ flat_map variables_in (option_to_list truth.now)) }
{
    match truth {
        Some(term) => {
            push_variable(variables, term)?;
            Ok(())
        }
        None => Ok(()),
    }
}

fn push_from_args(variables: &mut Vec<VarId>, args: &[SharedArg]) -> Result<(), AllocError>
    ensures { OnOk result (variables.new.items ≡ variables.old.items ++ flat_map variables_in_arg args.now) }
{
    for arg in args {
        push_from_arg(variables, arg)?;
    }
    Ok(())
}

fn push_from_arg(variables: &mut Vec<VarId>, arg: &SharedArg) -> Result<(), AllocError>
    ensures { OnOk result (variables.new.items ≡ variables.old.items ++ variables_in_arg arg.now) }
{
    match arg {
        SharedArg::One(term) => {
            push_variable(variables, term)?;
            Ok(())
        }
        SharedArg::Many(terms) => {
            push_from_terms(variables, terms.as_slice())?;
            Ok(())
        }
    }
}

fn push_from_terms(variables: &mut Vec<VarId>, terms: &[SharedTerm]) -> Result<(), AllocError>
    ensures { OnOk result (variables.new.items ≡ variables.old.items ++ flat_map variables_in terms.now) }
{
    for term in terms {
        push_variable(variables, term)?;
    }
    Ok(())
}

fn push_variable(variables: &mut Vec<VarId>, term: &SharedTerm) -> Result<(), AllocError>
    ensures { OnOk result (variables.new.items ≡ variables.old.items ++ variables_in term.now) }
{
    match term {
        SharedTerm::Bool(_) => Ok(()),
        SharedTerm::Int(_) => Ok(()),
        SharedTerm::Set(_) => Ok(()),
        SharedTerm::Var(variable) => {
            variables.push(*variable)?;
            Ok(())
        }
    }
}
