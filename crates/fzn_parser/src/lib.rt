//! The syntax tree of a FlatZinc model, and the parser that makes it from tokens, or finds the first syntax fault.
//!
//! Source: the FlatZinc grammar of the MiniZinc Handbook, in the profile that docs/FORMATS.md gives.
#![tactic(auto)]

mod annotations;
mod basics;
mod expressions;
mod faults;
mod front;
mod items;
mod laws;
mod model;
mod numbers;
mod parsing;
mod tree;
mod types;

pub use faults::{SyntaxFault, What};
pub use laws::{tokens_tell_the_tree, trees_are_in_order, what_is_to_come};
pub use parsing::parse;
pub use tree::{
    Ann, AnnArg, AnnForm, Basic, BasicForm, Expr, Form, GoalForm, Ident, Item, Num, Number,
    SetForm, Text, Tree, TypeExpr, TypeForm,
};
