//! How many terms an expression stands for, which is told without making them.

ghost use Rattle.std.specs.Prelude.{◌≡◌, ℕ, List, length, is_some, option_and_then};
ghost use Rattle.std.specs.Option.{option_map};
ghost use Rattle.fzn_model.specs.Lists.{each_of};
ghost use Rattle.fzn_model.specs.Entities.{Naming, arg_named, arg_of_part, array_of, elements_of, integer_in, integer_of, one_term, term_of_part};
ghost use Rattle.fzn_model.specs.FaultsOf.{terms_of};
ghost use Rattle.fzn_model.specs.ConstraintFaults.{term_count};
ghost use Rattle.fzn_model.specs.State.{naming_of};
ghost use Rattle.fzn_model.specs.Shared.{arg_in, entity_in};

use crate::declared::Declared;
use crate::known::Known;
use crate::shared::SharedArg;
use fzn_parser::{Basic, BasicForm, Expr, Num, Number, SetForm};

/// How many terms the expression stands for; 0 where it stands for nothing.
pub(crate) fn term_count(declared: &Declared, expression: &Expr) -> u128
    ensures { result ≡ term_count (naming_of declared.now) expression.now }
{
    match expression {
        Expr::One(part) => count_in_part(declared, &part.form),
        Expr::List { items, .. } => count_in_array(declared, items.items()),
    }
}

fn count_in_part(declared: &Declared, form: &BasicForm) -> u128
    ensures { result ≡ length (terms_of (arg_of_part (naming_of declared.now) form.now)) }
{
    match form {
        BasicForm::Bool(_) => 1,
        BasicForm::Num(num) => u128::from(is_integer(*num)),
        BasicForm::Set(literal) => u128::from(is_known(literal)),
        BasicForm::Name(name) => count_named(declared.known(name.items())),
    }
}

fn count_named(known: Option<&Known>) -> u128
    ensures { (naming : Naming) (name : List ℕ) → naming name ≡ option_map (λ k. entity_in k.now.entity) known.entry
        → result ≡ length (terms_of (arg_named naming name)) }
{
    match known {
        Some(known) => known.entity.arg.count() as u128,
        None => 0,
    }
}

/// An array has as many terms as items, where each of these is a single term.
fn count_in_array(declared: &Declared, items: &[Basic]) -> u128
    ensures { result ≡ length (terms_of (array_of (naming_of declared.now) items.now)) }
{
    if !are_single(declared, items) {
        return 0;
    }
    items.len() as u128
}

fn are_single(declared: &Declared, items: &[Basic]) -> bool
    ensures { result ≡ is_some (each_of (term_of_part (naming_of declared.now)) items.now) }
{
    for item in items {
        if !is_single(declared, &item.form) {
            return false;
        }
    }
    true
}

/// Whether the part stands for a single term.
fn is_single(declared: &Declared, form: &BasicForm) -> bool
    ensures { result ≡ is_some (option_and_then one_term (arg_of_part (naming_of declared.now) form.now)) }
{
    match form {
        BasicForm::Bool(_) => true,
        BasicForm::Num(num) => is_integer(*num),
        BasicForm::Set(literal) => is_known(literal),
        BasicForm::Name(name) => names_single(declared.known(name.items())),
    }
}

fn names_single(known: Option<&Known>) -> bool
    ensures { (naming : Naming) (name : List ℕ) → naming name ≡ option_map (λ k. entity_in k.now.entity) known.entry
        → result ≡ is_some (option_and_then one_term (arg_named naming name)) }
{
    match known {
        Some(known) => is_one(&known.entity.arg),
        None => false,
    }
}

fn is_one(arg: &SharedArg) -> bool
    ensures { result ≡ is_some (one_term (arg_in arg.now)) }
{
    match arg {
        SharedArg::One(_) => true,
        SharedArg::Many(_) => false,
    }
}

/// Whether the elements of the literal are known: it has neither a float nor an integer that is too large.
fn is_known(literal: &SetForm) -> bool
    ensures { result ≡ is_some (elements_of literal.now) }
{
    match literal {
        SetForm::Range(low, high) => is_integer(low.num) && is_integer(high.num),
        SetForm::List(numbers) => are_integers(numbers.items()),
    }
}

fn are_integers(numbers: &[Number]) -> bool
    ensures { result ≡ is_some (each_of integer_of numbers.now) }
{
    for number in numbers {
        if !is_integer(number.num) {
            return false;
        }
    }
    true
}

fn is_integer(num: Num) -> bool
    ensures { result ≡ is_some (integer_in num) }
{
    match num {
        Num::Int(_) => true,
        Num::Large => false,
        Num::Float => false,
    }
}
