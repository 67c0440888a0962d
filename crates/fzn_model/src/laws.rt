//! What the definitions say of every tree.

ghost use Rattle.std.specs.Prelude.{◌≡◌, ℕ, List, Result};
ghost use Rattle.fzn_parser.specs.declared.tree.Tree.{Tree};
ghost use Rattle.set_meaning.specs.declared.problems.Problem.{Problem};
ghost use Rattle.fzn_model.specs.declared.faults.ModelFault.{ModelFault};
ghost use Rattle.fzn_model.specs.declared.faults.FileFault.{FileFault};
ghost use Rattle.fzn_model.specs.FaultsOf.{HasFault, HasNoFault, IsFirstFault};
ghost use Rattle.fzn_model.specs.Files.{ComesTo, EndsIn};

use fzn_parser::tokens_tell_the_tree;
use fzn_reader::tokens_are_told_by_the_text;

/// Does nothing. Its contract is the law that a tree has one first fault at most, and that a tree which has a first
/// fault is not without faults.
pub fn first_faults_are_one()
    ensures one { (tree : Tree) (f g : ModelFault) → IsFirstFault tree f → IsFirstFault tree g → f ≡ g }
    ensures apart { (tree : Tree) (f : ModelFault) → IsFirstFault tree f → HasNoFault tree → ⊥ }
{}

/// A law: a text ends in one problem or first fault at most, and a tree comes to one at most.
pub fn texts_have_one_end()
    ensures one_end { (text : List ℕ) (a b : Result Problem FileFault) → EndsIn text a → EndsIn text b → a ≡ b }
    ensures of_trees { (tree : Tree) (a b : Result Problem ModelFault) → ComesTo tree a → ComesTo tree b → a ≡ b }
{
    tokens_are_told_by_the_text();
    tokens_tell_the_tree();
}
