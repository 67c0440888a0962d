//! From the tree of a model to its problem, or to its first fault.

ghost use Rattle.std.specs.Prelude.{◌≡◌, ◌⊎◌, ◌++◌, ◌∷◌, [], map, IfOk, IfErr, OnOk, IsSome, Some};
ghost use Rattle.fzn_parser.specs.declared.tree.Item.{Item as AnyItem};
ghost use Rattle.fzn_model.specs.ProblemOf.{the_goal};
ghost use Rattle.fzn_model.specs.FaultsOf.{IsFaultAfter, IsFirstFault};
ghost use Rattle.fzn_model.specs.FirstFault.{AreNone, IsFirst, IsFirstOf};
ghost use Rattle.fzn_model.specs.State.{AreSoFar};
ghost use Rattle.fzn_model.specs.Drafts.{IsDraft};
ghost use Rattle.fzn_model.specs.Builds.{IsBuilt, IsFirstFaulty, problem_from};
ghost use Rattle.fzn_model.specs.Files.{IsProblemOfTree, IsSpelled};

use crate::constraints::fault_at_constraint;
use crate::declarations::fault_in_declaration;
use crate::drafts::Draft;
use crate::earlier::earlier;
use crate::expressions::fault_in_expressions;
use crate::faults::ModelFault;
use crate::objectives::fault_in_objective;
use crate::pieces::pieces_of;
use crate::so_far::SoFar;
use fzn_parser::{Item, Tree, trees_are_in_order};
use listed::Listed;
use set_meaning::{Goal, Kind, Problem, Text};
use std::alloc::{AllocError, Global};

/// The problem of a tree, or its first fault: that with the least place, and of those at one place the one whose
/// variant stands first. `Memory` is want of memory. Each use of a name is looked up in a hash table.
///
/// Source: FlatZinc in the MiniZinc Handbook, in the profile that docs/FORMATS.md gives, which lists the faults.
pub fn build(alloc: Global, tree: &Tree) -> Result<Problem, ModelFault>
    requires { IsSpelled tree.now }
    ensures problem { IfOk result (IsProblemOfTree tree.now) }
    ensures fault { IfErr result (λ e. (e ≡ ModelFault.Memory) ⊎ IsFirstFault tree.now e) }
{
    trees_are_in_order();
    match drafted(alloc, tree.items.items()) {
        Ok(draft) => {
            let problem = finished(alloc, draft)?;
            Ok(problem)
        }
        Err(fault) => Err(fault),
    }
}

/// The draft of all items, or the first fault of the first of them that has one.
fn drafted(alloc: Global, items: &[Item]) -> Result<Draft, ModelFault>
    ensures draft { IfOk result (IsBuilt items.now) }
    ensures fault { IfErr result (λ e. (e ≡ ModelFault.Memory) ⊎ IsFirstFaulty items.now e) }
{
    let mut draft = Draft::new(alloc);
    for (i, item) in items.iter().enumerate() {
        match add(alloc, &mut draft, &items[..i], item) {
            Ok(()) => {}
            Err(fault) => return Err(fault),
        }
    }
    Ok(draft)
}

/// Adds an item to the draft of those before it, or tells its first fault.
fn add(alloc: Global, draft: &mut Draft, before: &[Item], item: &Item) -> Result<(), ModelFault>
    requires { IsBuilt before.now draft.old }
    ensures built { OnOk result (IsBuilt (before.now ++ item.now ∷ []) draft.new) }
    ensures fault { IfErr result (λ e. (e ≡ ModelFault.Memory) ⊎ IsFirst (IsFaultAfter before.now item.now) e) }
{
    let found = first_fault(alloc, &draft.so_far, before, item)?;
    match found {
        Some(fault) => Err(fault),
        None => {
            put_item(alloc, draft, before, item)?;
            Ok(())
        }
    }
}

/// The first fault of an item behind others that have none.
fn first_fault(
    alloc: Global,
    so_far: &SoFar,
    before: &[Item],
    item: &Item,
) -> Result<Option<ModelFault>, AllocError>
    requires { AreSoFar before.now so_far.now }
    ensures { IfOk result (IsFirstOf (IsFaultAfter before.now item.now)) }
{
    let in_expressions = fault_in_expressions(alloc, so_far, before, item)?;
    let is_good = in_expressions.is_none();
    let in_declaration = fault_in_declaration(alloc, so_far, before, item)?;
    let at_constraint = fault_at_constraint(alloc, so_far, before, item, is_good)?;
    let in_objective = fault_in_objective(so_far, before, item);
    let behind = earlier(at_constraint, in_objective);
    Ok(earlier(in_expressions, earlier(in_declaration, behind)))
}

/// Puts an item without faults behind those before it.
fn put_item(
    alloc: Global,
    draft: &mut Draft,
    before: &[Item],
    item: &Item,
) -> Result<(), AllocError>
    requires draft { IsDraft before.now draft.old }
    requires faultless { AreNone (IsFaultAfter before.now item.now) }
    ensures { OnOk result (IsDraft (before.now ++ item.now ∷ []) draft.new) }
{
    let _ = before;
    let number = draft.so_far.kinds.len() as u32;
    let pieces = pieces_of(alloc, &draft.so_far.declared, number, &item.form)?;
    draft.put(alloc, &item.form, pieces)?;
    Ok(())
}

/// The problem of a draft with one goal.
fn finished(alloc: Global, draft: Draft) -> Result<Problem, AllocError>
    requires { IsSome (the_goal draft.goals.items) }
    ensures { IfOk result (λ p. problem_from draft ≡ Some p) }
{
    let Draft {
        so_far,
        mut names,
        constraints,
        shown,
        goals,
    } = draft;
    let SoFar { mut kinds, .. } = so_far;
    let (goal, more) = the_goal(alloc, goals);
    push_kinds(alloc, &mut kinds, more.items())?;
    push_unnamed(alloc, &mut names, more.items())?;
    Ok(Problem {
        kinds: Listed::of(kinds),
        names: Listed::of(names),
        constraints: Listed::of(constraints),
        goal,
        shown: Listed::of(shown),
    })
}

fn the_goal(alloc: Global, mut goals: Vec<(Goal, Listed<Kind>)>) -> (Goal, Listed<Kind>)
    requires { IsSome (the_goal goals.items) }
    ensures { the_goal goals.items ≡ Some result }
{
    match goals.pop() {
        Some(goal) => goal,
        None => (Goal::Satisfy, Listed::of(Vec::new(alloc))),
    }
}

fn push_kinds(alloc: Global, kinds: &mut Vec<Kind>, more: &[Kind]) -> Result<(), AllocError>
    ensures { OnOk result (kinds.new.items ≡ kinds.old.items ++ more.now) }
{
    for kind in more {
        kinds.push(copy_kind(alloc, kind)?)?;
    }
    Ok(())
}

fn copy_kind(alloc: Global, kind: &Kind) -> Result<Kind, AllocError>
    ensures { IfOk result (λ copy. copy ≡ kind.now) }
{
    match kind {
        Kind::Bool => Ok(Kind::Bool),
        Kind::Int(numbers) => Ok(Kind::Int(numbers.copy(alloc)?)),
        Kind::Set(universe) => Ok(Kind::Set(universe.copy(alloc)?)),
    }
}

/// Pushes the empty name for each of these kinds.
fn push_unnamed(alloc: Global, names: &mut Vec<Text>, more: &[Kind]) -> Result<(), AllocError>
    ensures { OnOk result (names.new.items ≡ names.old.items ++ map (λ k. []) more.now) }
{
    for _ in more {
        names.push(Listed::of(Vec::new(alloc)))?;
    }
    Ok(())
}
