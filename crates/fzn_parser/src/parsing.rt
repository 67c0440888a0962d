//! The parser of a whole model.

ghost use Rattle.std.specs.Prelude.{◌≡◌, ◌⊎◌, length, IfOk, IfErr};
ghost use Rattle.fzn_parser.specs.declared.tree.Tree.{Tree as AnyTree};
ghost use Rattle.fzn_parser.specs.Grammar.{signs, Spells};
ghost use Rattle.fzn_parser.specs.Faults.{IsTreeOf, IsFirstSyntaxFault};

use crate::faults::SyntaxFault;
use crate::model::items_of;
use crate::tree::Tree;
use fzn_reader::Token;
use listed::Listed;
use std::alloc::Global;

/// The syntax tree that `tokens` spell, or their first fault. The tokens are those of `text`, in order, without white
/// space and comments; of the text only the bytes of names are read, and its length, where the tokens end too early.
///
/// The answer is a tree exactly where the tokens are a model and no more than 100 brackets of annotations are ever
/// open; then it is their only one. What a fault expects is named by the rules of docs/FORMATS.md.
pub fn parse(alloc: Global, text: &[u8], tokens: &[Token]) -> Result<Tree, SyntaxFault>
    ensures tree { IfOk result (IsTreeOf (signs text.now tokens.now)) }
    ensures only { IfOk result (λ tree. (other : AnyTree) → Spells (signs text.now tokens.now) other → other ≡ tree) }
    ensures fault { IfErr result (λ e. (e ≡ SyntaxFault.Memory) ⊎ IsFirstSyntaxFault (length text.now) (signs text.now tokens.now) e) }
{
    match items_of(alloc, text, tokens) {
        Ok(items) => Ok(Tree {
            items: Listed::of(items),
        }),
        Err(fault) => Err(fault),
    }
}
