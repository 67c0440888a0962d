//! The rules on the objective.

ghost use Rattle.std.specs.Prelude.{◌≡◌, ◌↔◌, ◌⊎◌, ◌+◌, ◌<◌, Some, None, IsTrue};
ghost use Rattle.std.specs.Option.{option_map};
ghost use Rattle.fzn_parser.specs.declared.tree.BasicForm.TheVariants as basics;
ghost use Rattle.set_meaning.specs.declared.rows.Shape.TheVariants.{OneOf};
ghost use Rattle.set_meaning.specs.declared.rows.Sort.TheVariants.{Integer};
ghost use Rattle.fzn_model.specs.Limits.{bit_limit, value_limit};
ghost use Rattle.fzn_model.specs.Items.{objective_in, place_of};
ghost use Rattle.fzn_model.specs.Entities.{arg_named, arg_of, arg_of_part};
ghost use Rattle.fzn_model.specs.Shapes.{Suits};
ghost use Rattle.fzn_model.specs.FaultsOf.{InObjective, IsIntegerPart};
ghost use Rattle.fzn_model.specs.FirstFault.{IsFirstOf};
ghost use Rattle.fzn_model.specs.State.{AreSoFar, naming_of};
ghost use Rattle.fzn_model.specs.Shared.{arg_in};
ghost use Rattle.fzn_model.specs.Objectives.{IsIntegerConstant, objective_of_item};

use crate::declarations::fault_if;
use crate::declared::Declared;
use crate::earlier::earlier;
use crate::faults::ModelFault;
use crate::shared::{SharedArg, SharedTerm};
use crate::so_far::SoFar;
use crate::typing::has_typing;
use crate::weights::{Weight, is_too_much};
use fzn_parser::{BasicForm, Expr, Form, GoalForm, Item, Num};
use set_meaning::{Shape, Sort};

/// What the unnamed variable of a constant objective counts: it has one value.
const ONE_VALUE: Weight = Weight { bits: 1, values: 1 };

/// The first fault of the item's objective: that it is no integer, or that the unnamed variable of a constant one is
/// too much. An item without an objective has none.
pub(crate) fn fault_in_objective(so_far: &SoFar, before: &[Item], item: &Item) -> Option<ModelFault>
    requires { AreSoFar before.now so_far.now }
    ensures { IsFirstOf (InObjective before.now item.now) result }
{
    match objective_of_item(&item.form) {
        Some(objective) => {
            let at = place_of(objective);
            earlier(
                fault_if(
                    is_no_integer(&so_far.declared, objective),
                    ModelFault::ObjectiveNotInt { at },
                ),
                fault_if(
                    is_one_too_many(so_far, objective),
                    ModelFault::TooManyBits { at },
                ),
            )
        }
        None => None,
    }
}

fn objective_of_item(form: &Form) -> Option<&Expr>
    ensures { option_map (λ e. e.now) result ≡ objective_of_item form.now }
{
    match form {
        Form::Solve { goal, .. } => objective_in(goal),
        _ => None,
    }
}

fn objective_in(goal: &GoalForm) -> Option<&Expr>
    ensures { option_map (λ e. e.now) result ≡ objective_in goal.now }
{
    match goal {
        GoalForm::Satisfy => None,
        GoalForm::Minimize(objective) => Some(objective),
        GoalForm::Maximize(objective) => Some(objective),
    }
}

fn place_of(expression: &Expr) -> usize
    ensures { result ≡ place_of expression.now }
{
    match expression {
        Expr::One(basic) => basic.at,
        Expr::List { at, .. } => *at,
    }
}

fn is_no_integer(declared: &Declared, objective: &Expr) -> bool
    ensures { IsTrue result ↔ (IsIntegerPart (naming_of declared.now) objective.now → ⊥) }
{
    !is_integer(declared, objective)
}

/// Whether it is a constant, and one more variable of one value is too much.
fn is_one_too_many(so_far: &SoFar, objective: &Expr) -> bool
    ensures { IsTrue result ↔ (IsIntegerConstant (arg_of (naming_of so_far.now.declared) objective.now) × ((bit_limit < so_far.now.counts.bits + 1) ⊎ (value_limit < so_far.now.counts.integer_values + 1))) }
{
    is_integer_constant(&so_far.declared, objective) && is_too_much(so_far.counts, ONE_VALUE)
}

// ---- what an expression is

/// Whether it is an integer variable or an integer constant.
fn is_integer(declared: &Declared, expression: &Expr) -> bool
    ensures { IsTrue result ↔ IsIntegerPart (naming_of declared.now) expression.now }
{
    match expression {
        Expr::One(basic) => is_integer_part(declared, &basic.form),
        Expr::List { .. } => false,
    }
}

fn is_integer_part(declared: &Declared, part: &BasicForm) -> bool
    ensures { IsTrue result ↔ Suits (naming_of declared.now) (OneOf Integer) part.now }
{
    match part {
        BasicForm::Bool(_) => false,
        BasicForm::Num(num) => is_integer_number(*num),
        BasicForm::Set(_) => false,
        BasicForm::Name(name) => is_integer_name(declared, name.items()),
    }
}

fn is_integer_number(num: Num) -> bool
    ensures { IsTrue result ↔ Suits (λ name. None) (OneOf Integer) (basics.Num num) }
{
    match num {
        Num::Int(_) => true,
        Num::Large => true,
        Num::Float => false,
    }
}

fn is_integer_name(declared: &Declared, name: &[u8]) -> bool
    ensures { IsTrue result ↔ Suits (naming_of declared.now) (OneOf Integer) (basics.Name name.now) }
{
    match declared.known(name) {
        Some(known) => has_typing(Shape::OneOf(Sort::Integer), known.typing),
        None => false,
    }
}

/// Whether it stands for an integer constant.
fn is_integer_constant(declared: &Declared, expression: &Expr) -> bool
    ensures { IsTrue result ↔ IsIntegerConstant (arg_of (naming_of declared.now) expression.now) }
{
    match expression {
        Expr::One(basic) => is_constant_part(declared, &basic.form),
        Expr::List { .. } => false,
    }
}

fn is_constant_part(declared: &Declared, part: &BasicForm) -> bool
    ensures { IsTrue result ↔ IsIntegerConstant (arg_of_part (naming_of declared.now) part.now) }
{
    match part {
        BasicForm::Bool(_) => false,
        BasicForm::Num(num) => is_told(*num),
        BasicForm::Set(_) => false,
        BasicForm::Name(name) => is_constant_name(declared, name.items()),
    }
}

fn is_told(num: Num) -> bool
    ensures { IsTrue result ↔ IsIntegerConstant (arg_of_part (λ name. None) (basics.Num num)) }
{
    match num {
        Num::Int(_) => true,
        Num::Large => false,
        Num::Float => false,
    }
}

fn is_constant_name(declared: &Declared, name: &[u8]) -> bool
    ensures { IsTrue result ↔ IsIntegerConstant (arg_named (naming_of declared.now) name.now) }
{
    match declared.known(name) {
        Some(known) => is_constant_argument(&known.entity.arg),
        None => false,
    }
}

fn is_constant_argument(arg: &SharedArg) -> bool
    ensures { IsTrue result ↔ IsIntegerConstant (Some (arg_in arg.now)) }
{
    match arg {
        SharedArg::One(SharedTerm::Int(_)) => true,
        _ => false,
    }
}
