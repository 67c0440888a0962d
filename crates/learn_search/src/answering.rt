//! From single values to the answer: it is read, kept, and handed out.
ghost use Rattle.std.specs.Prelude.{◌≡◌, [], ◌∷◌, ◌++◌, IfOk, OnOk, OnErr};
ghost use Rattle.set_meaning.specs.Solutions.{IsAnswer};
ghost use Rattle.learn_search.specs.Standings.{StandsLegally};
ghost use Rattle.learn_search.specs.Stages.{IsReached, IsAtAnswer, values_in_all};

use crate::beginning::Begun;
use branching::single_values;
use diagram_ops::Ops;
use problem_rules::{answers_cover_as_in_the_rules, solutions_are_those_of_the_rules};
use search_state::answers_keep_states_legal;
use search_turns::single_states_are_answers;
use set_meaning::{Problem, Value};
use std::alloc::{AllocError, Global};

/// The values of the domains, each of which has one: the next answer. It is kept with those given before, and a copy is
/// handed out; room for it comes first.
pub(crate) fn answer(
    alloc: Global,
    p: &Problem,
    ops: &Ops,
    begun: &Begun,
    answers: &mut Vec<Vec<Value>>,
) -> Result<Vec<Value>, AllocError>
    requires reached { IsReached p.now ops.now begun.now (values_in_all answers.old.items) }
    ensures means { IfOk result (λ values.
        IsAnswer p.now (values_in_all answers.old.items) values.items) }
    ensures stands { IfOk result (λ values.
        IsAtAnswer p.now ops.now begun.now (values_in_all answers.old.items ++ values.items ∷ [])) }
    ensures kept { IfOk result (λ values.
        values_in_all answers.new.items ≡ values_in_all answers.old.items ++ values.items ∷ []) }
    ensures legal { IfOk result (λ values.
        StandsLegally p.now ops.now (values_in_all answers.old.items ++ values.items ∷ []) values.items) }
    ensures same { OnErr result (answers.new.items ≡ answers.old.items) }
{
    // What the rules say of solutions and answers, and of a state of single values.
    answers_keep_states_legal(p);
    single_states_are_answers(p);
    solutions_are_those_of_the_rules();
    answers_cover_as_in_the_rules();
    let values = single_values(alloc, ops, &begun.layout, begun.trail.domains())?;
    let copy = copies(alloc, values.as_slice())?;
    keep(answers, copy)?;
    Ok(values)
}

/// A copy of the values.
fn copies(alloc: Global, values: &[Value]) -> Result<Vec<Value>, AllocError>
    ensures { IfOk result (λ copies. copies.items ≡ values.now) }
{
    let mut copies = Vec::new(alloc);
    for value in values {
        copies.push(value.copy(alloc)?)?;
    }
    Ok(copies)
}

/// Keeps the values of an answer.
fn keep(answers: &mut Vec<Vec<Value>>, values: Vec<Value>) -> Result<(), AllocError>
    ensures kept { OnOk result
        (values_in_all answers.new.items ≡ values_in_all answers.old.items ++ values.items ∷ []) }
    ensures same { OnErr result (answers.new.items ≡ answers.old.items) }
{
    answers.push(values)?;
    Ok(())
}
