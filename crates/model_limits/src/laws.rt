//! What holds of the problem of every text.

ghost use Rattle.std.specs.Prelude.{ℕ, List};
ghost use Rattle.set_meaning.specs.declared.problems.Problem.{Problem as AnyProblem};
ghost use Rattle.problem_limits.specs.Limits.{KeepsLimits};
ghost use Rattle.fzn_model.specs.Files.{IsProblemOf};
ghost use Rattle.model_limits.specs.Sizes.{KeepsSizes};
ghost use Rattle.model_limits.specs.SetLimits.{KeepsSetLimits};

use bit_layout::widths_are_least;
use fzn_parser::trees_are_in_order;
use model_legality::problems_of_texts_are_problems;
use set_meaning::Problem;

/// Does nothing. Its contract is the law that the problem of a text keeps the limits that diagrams need, for callers
/// that read one.
pub fn problems_of_texts_keep_limits(text: &[u8], p: &Problem)
    ensures { IsProblemOf text.now p.now → KeepsLimits p.now }
{
    problems_of_texts_are_problems(text, p);
    problems_of_texts_keep_sizes();
}

/// Does nothing. Its contract is the law that the problem of a text has universes of at most 512 elements, each at most
/// 1,000,000 in size, and keeps the limits on all values, all terms and all elements of constant sets together.
pub fn problems_of_texts_have_small_sets(text: &[u8], p: &Problem)
    ensures { IsProblemOf text.now p.now → KeepsSetLimits p.now }
{
    trees_are_in_order();
}

/// The limits on sizes alone.
fn problems_of_texts_keep_sizes()
    ensures { (text : List ℕ) (p : AnyProblem) → IsProblemOf text p → KeepsSizes p }
{
    widths_are_least();
    trees_are_in_order();
}
