//! What an item adds to the problem.

ghost use Rattle.std.specs.Prelude.{◌≡◌, length, map, option_to_list, IfOk, All};
ghost use Rattle.std.specs.Option.{option_map};
ghost use Rattle.fzn_model.specs.Items.{objective_in};
ghost use Rattle.fzn_model.specs.Entities.{array_of, elements_of, entity, entity_of};
ghost use Rattle.fzn_model.specs.ProblemOf.{constraint_named, constraint_of, constraints_in, equality_of, goal_of, goals_in, kind_of, kinds_in, names_in, objective_of, objective_var, shown_array, shown_in, shown_scalar, terms_in};
ghost use Rattle.fzn_model.specs.Outputs.{output_in};
ghost use Rattle.fzn_model.specs.State.{naming_of};
ghost use Rattle.fzn_model.specs.Meanings.{Gives, IsShort, IsShortIfAny, IsShortItem, IsShortKind, IsShortPart, IsShortSet, IsShortType};
ghost use Rattle.fzn_model.specs.Drafts.{ArePieces};
ghost use Rattle.fzn_model.specs.Shared.{arg_in, constraint_in, entity_in, term_in};

use crate::declared::Declared;
use crate::entities::{SharedEntity, sort_of};
use crate::kinds::equality;
use crate::meanings::{arg_of, args_of, array_of};
use crate::names::{ConstraintName, named};
use crate::outputs::{dims_by, output_in, shows_scalar};
use crate::sets::{Measure, measured};
use crate::shared::{SharedArg, SharedConstraint, SharedTerm, made_terms};
use fzn_parser::{Ann, Basic, Expr, Form, GoalForm, SetForm, TypeForm};
use listed::Listed;
use set_meaning::{Arg, Constraint, Goal, Kind, SetValue, Shown, Term, Text, VarId};
use std::alloc::{AllocError, Global};

/// The most elements of a constant set, and of what bounds a variable.
const LITERAL_LIMIT: u64 = 65_536;

/// What an item adds to the problem, so far as it adds anything.
#[derive(Drop)]
pub(crate) struct Pieces {
    /// What the name that it declares stands for.
    pub entity: Option<SharedEntity>,
    pub kind: Option<Kind>,
    /// The name of the variable that it declares.
    pub name: Option<Text>,
    pub constraint: Option<Constraint>,
    pub shown: Option<Shown>,
    /// The goal, with the kind of one more variable where its objective is a constant.
    pub goal: Option<(Goal, Listed<Kind>)>,
}

/// What an item adds. `number` is that of the next variable.
pub(crate) fn pieces_of(
    alloc: Global,
    declared: &Declared,
    number: u32,
    form: &Form,
) -> Result<Pieces, AllocError>
    requires expressions { IsShortItem form.now }
    requires kinds { IsShortKind form.now }
    ensures { IfOk result (ArePieces (naming_of declared.now) number form.now) }
{
    Ok(Pieces {
        entity: entity_of(alloc, declared, number, form)?,
        kind: kind_in(alloc, form)?,
        name: name_in(alloc, form)?,
        constraint: constraint_in(alloc, declared, number, form)?,
        shown: shown_in(alloc, declared, number, form)?,
        goal: goal_in(alloc, declared, number, form)?,
    })
}

fn kind_in(alloc: Global, form: &Form) -> Result<Option<Kind>, AllocError>
    requires { IsShortKind form.now }
    ensures { IfOk result (Gives (kinds_in form.now)) }
{
    match form {
        Form::Variable { sort, .. } => kind_of(alloc, &sort.form),
        _ => Ok(None),
    }
}

fn name_in(alloc: Global, form: &Form) -> Result<Option<Text>, AllocError>
    ensures { IfOk result (λ name. names_in form.now ≡ option_to_list name) }
{
    match form {
        Form::Variable { name, .. } => { Ok(Some(Listed::of(name.name.items().to_vec(alloc)?))) }
        _ => Ok(None),
    }
}

/// What the name that an item declares stands for; None where it stands for nothing. `number` is that of the next
/// variable.
fn entity_of(
    alloc: Global,
    declared: &Declared,
    number: u32,
    form: &Form,
) -> Result<Option<SharedEntity>, AllocError>
    requires { IsShortItem form.now }
    ensures { IfOk result (λ found. option_map entity_in found ≡ entity_of (naming_of declared.now) number form.now) }
{
    match form {
        Form::Param { sort, value, .. } => {
            let arg = arg_of(alloc, declared, value)?;
            Ok(entity(&sort.form, arg))
        }
        Form::Variable { sort, .. } => {
            Ok(entity(
                &sort.form,
                Some(SharedArg::One(SharedTerm::Var(VarId(number)))),
            ))
        }
        Form::Array { sort, items, .. } => {
            entity_of_array(alloc, declared, &sort.form, items.items())
        }
        _ => Ok(None),
    }
}

fn entity_of_array(
    alloc: Global,
    declared: &Declared,
    form: &TypeForm,
    items: &[Basic],
) -> Result<Option<SharedEntity>, AllocError>
    requires { All IsShortPart items.now }
    ensures { IfOk result (λ found. option_map entity_in found ≡ entity form.now (array_of (naming_of declared.now) items.now)) }
{
    let array = array_of(alloc, declared, items)?;
    Ok(entity(form, array))
}

fn entity(form: &TypeForm, arg: Option<SharedArg>) -> Option<SharedEntity>
    ensures { option_map entity_in result ≡ entity form.now (option_map arg_in arg) }
{
    match sort_of(form) {
        Some(sort) => match arg {
            Some(arg) => Some(SharedEntity { sort, arg }),
            None => None,
        },
        None => None,
    }
}

/// What a variable of the type may take; None where the type bounds no variable.
fn kind_of(alloc: Global, form: &TypeForm) -> Result<Option<Kind>, AllocError>
    requires { IsShortType form.now }
    ensures { IfOk result (λ kind. kind ≡ kind_of form.now) }
{
    match form {
        TypeForm::Bool => Ok(Some(Kind::Bool)),
        TypeForm::Within(literal) => match elements_of(alloc, literal)? {
            Some(numbers) => Ok(Some(Kind::Int(numbers))),
            None => Ok(None),
        },
        TypeForm::SetWithin(literal) => match elements_of(alloc, literal)? {
            Some(universe) => Ok(Some(Kind::Set(universe))),
            None => Ok(None),
        },
        _ => Ok(None),
    }
}

fn elements_of(alloc: Global, literal: &SetForm) -> Result<Option<SetValue>, AllocError>
    requires { IsShortSet literal.now }
    ensures { IfOk result (λ set. set ≡ elements_of literal.now) }
{
    match measured(alloc, literal, LITERAL_LIMIT)? {
        Measure::Unknown => Ok(None),
        Measure::Wide => Ok(None),
        Measure::Set(set) => Ok(Some(set.made(alloc)?)),
    }
}

/// The constraint that an item adds; None where it adds none.
fn constraint_in(
    alloc: Global,
    declared: &Declared,
    number: u32,
    form: &Form,
) -> Result<Option<Constraint>, AllocError>
    requires { IsShortItem form.now }
    ensures { IfOk result (Gives (constraints_in (naming_of declared.now) number form.now)) }
{
    match form {
        Form::Constraint { name, args, .. } => {
            made_constraint(alloc, declared, name.name.items(), args.items())
        }
        Form::Variable {
            sort,
            value: Some(value),
            ..
        } => equality_of(alloc, declared, number, &sort.form, value),
        _ => Ok(None),
    }
}

/// The constraint of the name over what the expressions stand for; None where there is none.
fn made_constraint(
    alloc: Global,
    declared: &Declared,
    name: &[u8],
    expressions: &[Expr],
) -> Result<Option<Constraint>, AllocError>
    requires { All IsShort expressions.now }
    ensures { IfOk result (λ c. c ≡ constraint_named (naming_of declared.now) name.now expressions.now) }
{
    match constraint_named(alloc, declared, name, expressions)? {
        Some(constraint) => Ok(Some(made(alloc, &constraint)?)),
        None => Ok(None),
    }
}

/// The same, in which nothing is copied that a name stands for.
pub(crate) fn constraint_named(
    alloc: Global,
    declared: &Declared,
    name: &[u8],
    expressions: &[Expr],
) -> Result<Option<SharedConstraint>, AllocError>
    requires { All IsShort expressions.now }
    ensures { IfOk result (λ c. option_map constraint_in c ≡ constraint_named (naming_of declared.now) name.now expressions.now) }
{
    match named(name) {
        Some(name) => match args_of(alloc, declared, expressions)? {
            Some(args) => Ok(constraint_of(name, args)),
            None => Ok(None),
        },
        None => Ok(None),
    }
}

/// The constraint of the name over these arguments; the last of them is the truth value where the name is reified.
fn constraint_of(name: ConstraintName, mut args: Vec<SharedArg>) -> Option<SharedConstraint>
    ensures { option_map constraint_in result ≡ constraint_of name (map arg_in args.items) }
{
    if !name.is_reified {
        return Some(SharedConstraint {
            relation: name.relation,
            args,
            reif: None,
        });
    }
    match args.pop() {
        Some(SharedArg::One(truth)) => Some(SharedConstraint {
            relation: name.relation,
            args,
            reif: Some(truth),
        }),
        _ => None,
    }
}

/// The constraint, with memory of its own.
fn made(alloc: Global, constraint: &SharedConstraint) -> Result<Constraint, AllocError>
    ensures { IfOk result (λ c. c ≡ constraint_in constraint.now) }
{
    Ok(Constraint {
        relation: constraint.relation,
        args: Listed::of(made_args(alloc, constraint.args.as_slice())?),
        reif: made_truth(alloc, &constraint.reif)?,
    })
}

fn made_truth(alloc: Global, truth: &Option<SharedTerm>) -> Result<Option<Term>, AllocError>
    ensures { IfOk result (λ made. made ≡ option_map term_in truth.now) }
{
    match truth {
        Some(term) => Ok(Some(term.made(alloc)?)),
        None => Ok(None),
    }
}

fn made_args(alloc: Global, args: &[SharedArg]) -> Result<Vec<Arg>, AllocError>
    ensures { IfOk result (λ made. made.items ≡ map arg_in args.now) }
{
    let mut made = Vec::new(alloc);
    for arg in args {
        made.push(arg.made(alloc)?)?;
    }
    Ok(made)
}

/// The constraint that the variable of this number is equal to the expression.
fn equality_of(
    alloc: Global,
    declared: &Declared,
    number: u32,
    form: &TypeForm,
    value: &Expr,
) -> Result<Option<Constraint>, AllocError>
    requires { IsShort value.now }
    ensures { IfOk result (λ c. c ≡ equality_of (naming_of declared.now) number form.now value.now) }
{
    match sort_of(form) {
        Some(sort) => match arg_of(alloc, declared, value)? {
            Some(arg) => {
                let variable = Arg::One(Term::Var(VarId(number)));
                let args = vec![in alloc; variable, arg.made(alloc)?]?;
                Ok(Some(Constraint {
                    relation: equality(sort),
                    args: Listed::of(args),
                    reif: None,
                }))
            }
            None => Ok(None),
        },
        None => Ok(None),
    }
}

/// What an item shows; None where it shows nothing.
fn shown_in(
    alloc: Global,
    declared: &Declared,
    number: u32,
    form: &Form,
) -> Result<Option<Shown>, AllocError>
    requires { IsShortItem form.now }
    ensures { IfOk result (Gives (shown_in (naming_of declared.now) number form.now)) }
{
    match form {
        Form::Variable { name, anns, .. } => {
            shown_scalar(alloc, name.name.items(), number, anns.items())
        }
        Form::Array {
            is_var: true,
            name,
            anns,
            items,
            ..
        } => shown_array(
            alloc,
            declared,
            name.name.items(),
            anns.items(),
            items.items(),
        ),
        _ => Ok(None),
    }
}

fn shown_scalar(
    alloc: Global,
    name: &[u8],
    number: u32,
    anns: &[Ann],
) -> Result<Option<Shown>, AllocError>
    ensures { IfOk result (Gives (shown_scalar name.now number (output_in anns.now))) }
{
    match output_in(anns) {
        Some(ann) => {
            if shows_scalar(ann) {
                let terms = vec![in alloc; Term::Var(VarId(number))]?;
                Ok(Some(Shown {
                    name: Listed::of(name.to_vec(alloc)?),
                    terms: Listed::of(terms),
                    dims: Listed::of(Vec::new(alloc)),
                }))
            } else {
                Ok(None)
            }
        }
        None => Ok(None),
    }
}

fn shown_array(
    alloc: Global,
    declared: &Declared,
    name: &[u8],
    anns: &[Ann],
    items: &[Basic],
) -> Result<Option<Shown>, AllocError>
    requires { All IsShortPart items.now }
    ensures { IfOk result (Gives (shown_array name.now (length items.now) (array_of (naming_of declared.now) items.now) (output_in anns.now))) }
{
    match output_in(anns) {
        Some(ann) => match dims_by(alloc, items.len(), ann)? {
            Some(dims) => match array_of(alloc, declared, items)? {
                Some(array) => Ok(Some(Shown {
                    name: Listed::of(name.to_vec(alloc)?),
                    terms: terms_in(alloc, &array)?,
                    dims: Listed::of(dims),
                })),
                None => Ok(None),
            },
            None => Ok(None),
        },
        None => Ok(None),
    }
}

fn terms_in(alloc: Global, arg: &SharedArg) -> Result<Listed<Term>, AllocError>
    ensures { IfOk result (λ terms. terms ≡ terms_in (arg_in arg.now)) }
{
    match arg {
        SharedArg::One(term) => Ok(Listed::of(vec![in alloc; term.made(alloc)?]?)),
        SharedArg::Many(terms) => Ok(Listed::of(made_terms(alloc, terms.as_slice())?)),
    }
}

/// The goal of an item, with the kind of one more variable where its objective is a constant; None where it has no
/// goal.
fn goal_in(
    alloc: Global,
    declared: &Declared,
    number: u32,
    form: &Form,
) -> Result<Option<(Goal, Listed<Kind>)>, AllocError>
    requires { IsShortItem form.now }
    ensures { IfOk result (Gives (goals_in (naming_of declared.now) number form.now)) }
{
    match form {
        Form::Solve { goal, .. } => goal_of(alloc, declared, number, goal),
        _ => Ok(None),
    }
}

fn goal_of(
    alloc: Global,
    declared: &Declared,
    number: u32,
    goal: &GoalForm,
) -> Result<Option<(Goal, Listed<Kind>)>, AllocError>
    requires { IsShortIfAny (objective_in goal.now) }
    ensures { IfOk result (λ made. made ≡ goal_of (naming_of declared.now) number goal.now) }
{
    match goal {
        GoalForm::Satisfy => Ok(Some((Goal::Satisfy, Listed::of(Vec::new(alloc))))),
        GoalForm::Minimize(e) => match objective_of(alloc, declared, number, e)? {
            Some((variable, kinds)) => Ok(Some((Goal::Minimize(variable), kinds))),
            None => Ok(None),
        },
        GoalForm::Maximize(e) => match objective_of(alloc, declared, number, e)? {
            Some((variable, kinds)) => Ok(Some((Goal::Maximize(variable), kinds))),
            None => Ok(None),
        },
    }
}

fn objective_of(
    alloc: Global,
    declared: &Declared,
    number: u32,
    expression: &Expr,
) -> Result<Option<(VarId, Listed<Kind>)>, AllocError>
    requires { IsShort expression.now }
    ensures { IfOk result (λ made. made ≡ objective_of (naming_of declared.now) number expression.now) }
{
    match arg_of(alloc, declared, expression)? {
        Some(arg) => objective_var(alloc, number, arg),
        None => Ok(None),
    }
}

/// The variable of an objective, with the kind of one more variable, whose number is given, where it is a constant.
fn objective_var(
    alloc: Global,
    number: u32,
    arg: SharedArg,
) -> Result<Option<(VarId, Listed<Kind>)>, AllocError>
    ensures { IfOk result (λ made. made ≡ objective_var number (arg_in arg)) }
{
    match arg {
        SharedArg::One(SharedTerm::Var(variable)) => {
            Ok(Some((variable, Listed::of(Vec::new(alloc)))))
        }
        SharedArg::One(SharedTerm::Int(x)) => {
            let numbers = SetValue::from_list(alloc, [x].as_slice())?;
            let kinds = vec![in alloc; Kind::Int(numbers)]?;
            Ok(Some((VarId(number), Listed::of(kinds))))
        }
        _ => Ok(None),
    }
}
