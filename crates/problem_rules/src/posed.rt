//! A problem as one that the laws of the search speak of.

ghost use Rattle.problem_rules.specs.Posed.{problem_of};

use search_rules::Rules;
use set_meaning::{Problem, Value};

/// A problem, for the calls of the laws.
#[derive(Drop)]
pub struct Posed<'a> {
    pub problem: &'a Problem,
}

impl<'a> Rules for Posed<'a> {
    type Value = Value;

    ghost problem = { λ posed. problem_of posed.problem.now };
}
