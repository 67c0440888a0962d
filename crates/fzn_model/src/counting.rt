//! What kinds and constraints count against the limits.

ghost use Rattle.std.specs.Prelude.{◌≡◌, ◌≤◌, ◌+◌, length, sum_by, option_to_list, Some, None};
ghost use Rattle.set_meaning.specs.Problems.{IsKind};
ghost use Rattle.bit_layout.specs.Limits.{IsNarrow, counted_bits};
ghost use Rattle.fzn_model.specs.Limits.{all_constant_sets_limit, bit_limit, term_limit};
ghost use Rattle.fzn_model.specs.FaultsOf.{integer_values, set_size};
ghost use Rattle.fzn_model.specs.ProblemOf.{terms_in};
ghost use Rattle.fzn_model.specs.Meanings.{elements_in};
ghost use Rattle.fzn_model.specs.Drafts.{AreCounted, CanBeCounted, IsCountable, elements_of_constraint, terms_of_constraint};

use crate::so_far::Counts;
use bit_layout::width;
use set_meaning::{Arg, Constraint, Kind, Term, Value};

impl Counts {
    /// Counts a variable of the kind.
    pub(crate) fn add_kind(&mut self, kind: &Kind)
        requires { IsCountable self.old kind.now }
        ensures { AreCounted self.old (Some kind.now) None self.new }
    {
        self.bits += u64::from(width(kind).max(1));
        self.integer_values += integer_values(kind);
    }

    /// Counts a constraint.
    pub(crate) fn add_constraint(&mut self, constraint: &Constraint)
        requires { CanBeCounted self.old constraint.now }
        ensures { AreCounted self.old None (Some constraint.now) self.new }
    {
        self.elements += elements_of_constraint(constraint);
        self.terms += terms_of_constraint(constraint);
        self.constraints += 1;
    }
}

/// How many initial values an integer variable of the kind has; 0 for another kind.
fn integer_values(kind: &Kind) -> u64
    ensures { result ≡ integer_values kind.now }
{
    match kind {
        Kind::Int(numbers) => numbers.elements().len() as u64,
        _ => 0,
    }
}

/// How many elements the constant sets of the constraint have.
fn elements_of_constraint(constraint: &Constraint) -> u64
    requires { elements_of_constraint constraint.now ≤ all_constant_sets_limit }
    ensures { result ≡ elements_of_constraint constraint.now }
{
    elements_of_args(constraint.args.items()) + elements_of_truth(&constraint.reif)
}

fn elements_of_args(args: &[Arg]) -> u64
    requires { sum_by elements_in args.now ≤ all_constant_sets_limit }
    ensures { result ≡ sum_by elements_in args.now }
{
    let all: u128 = args.iter().map(|arg| elements_in(arg)).sum();
    all as u64
}

/// How many elements the constant sets of the argument have together.
fn elements_in(arg: &Arg) -> u128
    ensures { result ≡ elements_in arg.now }
{
    match arg {
        Arg::One(term) => u128::from(set_size(term)),
        Arg::Many(terms) => set_sizes(terms.items()),
    }
}

fn set_sizes(terms: &[Term]) -> u128
    ensures { result ≡ sum_by set_size terms.now }
{
    let mut total = 0u128;
    for term in terms {
        total += u128::from(set_size(term));
    }
    total
}

/// How many elements the term has, where it is a constant set.
fn set_size(term: &Term) -> u64
    ensures { result ≡ set_size term.now }
{
    match term {
        Term::Const(Value::Set(set)) => set.elements().len() as u64,
        _ => 0,
    }
}

fn elements_of_truth(truth: &Option<Term>) -> u64
    ensures { result ≡ sum_by set_size (option_to_list truth.now) }
{
    match truth {
        Some(term) => set_size(term),
        None => 0,
    }
}

/// How many terms the constraint has.
fn terms_of_constraint(constraint: &Constraint) -> u64
    requires { terms_of_constraint constraint.now ≤ term_limit }
    ensures { result ≡ terms_of_constraint constraint.now }
{
    let truth = if constraint.reif.is_some() { 1 } else { 0 };
    terms_of_args(constraint.args.items()) + truth
}

fn terms_of_args(args: &[Arg]) -> u64
    requires { sum_by (λ arg. length (terms_in arg)) args.now ≤ term_limit }
    ensures { result ≡ sum_by (λ arg. length (terms_in arg)) args.now }
{
    args.iter().map(|arg| terms_in(arg)).sum()
}

fn terms_in(arg: &Arg) -> u64
    ensures { result ≡ length (terms_in arg.now) }
{
    match arg {
        Arg::One(_) => 1,
        Arg::Many(terms) => terms.items().len() as u64,
    }
}
