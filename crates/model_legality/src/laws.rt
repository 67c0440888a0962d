//! What holds of the problem of every text.

ghost use Rattle.set_meaning.specs.Problems.{IsProblem};
ghost use Rattle.fzn_model.specs.Files.{IsProblemOf};

use fzn_parser::trees_are_in_order;
use set_meaning::Problem;

/// Does nothing. Its contract is the law that the problem of a text is a problem, for callers that read one.
pub fn problems_of_texts_are_problems(text: &[u8], p: &Problem)
    ensures { IsProblemOf text.now p.now → IsProblem p.now }
{
    trees_are_in_order();
}
