//! What expressions are, and whether that is what is asked.

ghost use Rattle.std.specs.Prelude.{◌≡◌, ◌↔◌, IsTrue, map};
ghost use Rattle.std.specs.List.{list_all};
ghost use Rattle.fzn_model.specs.Shapes.{HasTyping, constant, is_constant, typing_of_arg};
ghost use Rattle.fzn_model.specs.Shared.{arg_in, term_in};

use crate::shared::{SharedArg, SharedTerm};
use set_meaning::{Shape, Sort};

/// What an expression is: its sort, whether it is an array, and whether it is made of constants alone.
#[derive(Clone, Copy, Debug, PartialEq, Eq)]
pub(crate) struct Typing {
    pub sort: Sort,
    pub is_array: bool,
    pub is_constant: bool,
}

/// A constant of the sort.
pub(crate) fn constant(sort: Sort) -> Typing
    ensures { result ≡ constant sort }
{
    Typing {
        sort,
        is_array: false,
        is_constant: true,
    }
}

/// What an argument of the sort is. Linear in the length of an array.
pub(crate) fn typing_of_arg(sort: Sort, arg: &SharedArg) -> Typing
    ensures { result ≡ typing_of_arg sort (arg_in arg.now) }
{
    match arg {
        SharedArg::One(term) => Typing {
            sort,
            is_array: false,
            is_constant: is_constant(term),
        },
        SharedArg::Many(terms) => Typing {
            sort,
            is_array: true,
            is_constant: are_constant(terms.as_slice()),
        },
    }
}

fn are_constant(terms: &[SharedTerm]) -> bool
    ensures { result ≡ list_all is_constant (map term_in terms.now) }
{
    for term in terms {
        if !is_constant(term) {
            return false;
        }
    }
    true
}

fn is_constant(term: &SharedTerm) -> bool
    ensures { result ≡ is_constant (term_in term.now) }
{
    match term {
        SharedTerm::Bool(_) => true,
        SharedTerm::Int(_) => true,
        SharedTerm::Set(_) => true,
        SharedTerm::Var(_) => false,
    }
}

/// Whether that is what the shape asks.
pub(crate) fn has_typing(shape: Shape, typing: Typing) -> bool
    ensures { IsTrue result ↔ HasTyping shape typing }
{
    match shape {
        Shape::OneOf(sort) => typing.sort == sort && !typing.is_array,
        Shape::ManyOf(sort) => typing.sort == sort && typing.is_array,
        Shape::ConstantOf(sort) => typing.sort == sort && !typing.is_array && typing.is_constant,
        Shape::ConstantsOf(sort) => typing.sort == sort && typing.is_array && typing.is_constant,
    }
}
