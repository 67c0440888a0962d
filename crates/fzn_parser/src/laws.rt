//! What holds of every list of tokens.

ghost use Rattle.std.specs.Prelude.{◌≡◌, ◌↔◌, ℕ, ◌<◌, List, length, All, Contains, Result, Some, []};
ghost use Rattle.std.specs.Option.{IsSome};
ghost use Rattle.fzn_reader.specs.declared.tokens.Token.{Token as AnyToken};
ghost use Rattle.fzn_reader.specs.Scan.{AreTokensOf};
ghost use Rattle.fzn_parser.specs.declared.tree.Item.{Item as AnyItem};
ghost use Rattle.fzn_parser.specs.declared.tree.Tree.{Tree as AnyTree};
ghost use Rattle.fzn_parser.specs.declared.faults.SyntaxFault.{SyntaxFault as AnyFault};
ghost use Rattle.fzn_parser.specs.Grammar.{Sign, Spells, signs};
ghost use Rattle.fzn_parser.specs.ToCome.{to_come};
ghost use Rattle.fzn_parser.specs.Faults.{IsModel, BeginsModel, IsFirstSyntaxFault, ParseEndsIn};
ghost use Rattle.fzn_parser.specs.Places.{places_in, numbers_in, IsSmall, AreInOrder, EndsInSolve, LiesWithin};

use fzn_reader::tokens_are_told_by_the_text;

/// A law: tokens spell one tree at most, and a parse of them ends in just one tree or fault. `n` is where the text
/// ends.
pub fn tokens_tell_the_tree()
    ensures unambiguous { (xs : List Sign) (a b : AnyTree) → Spells xs a → Spells xs b → a ≡ b }
    ensures one_end { (n : ℕ) (xs : List Sign) (a b : Result AnyTree AnyFault)
        → ParseEndsIn n xs a → ParseEndsIn n xs b → a ≡ b }
    ensures some_end { (n : ℕ) (xs : List Sign) → (r : Result AnyTree AnyFault) × ParseEndsIn n xs r }
{}

/// A law: the two forms of the grammar are one language. Tokens are a model exactly where nothing more is to come, and
/// begin one exactly where it is told what is to come.
pub fn what_is_to_come()
    ensures models { (xs : List Sign) → IsModel xs ↔ (to_come xs ≡ Some []) }
    ensures begun { (xs : List Sign) → BeginsModel xs ↔ IsSome (to_come xs) }
{}

/// A law: the parts of a text's tree lie within the text, in the order of its items, and a first fault lies within it
/// too, or at its end. The last item is the solve item, and no other is. An integer of an item is at most
/// 1,000,000,000 in size.
pub fn trees_are_in_order()
    ensures in_order { (text : List ℕ) (tokens : List AnyToken) (tree : AnyTree)
        → AreTokensOf text tokens → Spells (signs text tokens) tree → AreInOrder tree }
    ensures within { (text : List ℕ) (tokens : List AnyToken) (tree : AnyTree)
        → AreTokensOf text tokens → Spells (signs text tokens) tree
        → (item : AnyItem) → Contains tree.items item → All (λ p. p < length text) (places_in item.form) }
    ensures fault_within { (text : List ℕ) (tokens : List AnyToken) (fault : AnyFault)
        → AreTokensOf text tokens → IsFirstSyntaxFault (length text) (signs text tokens) fault
        → LiesWithin (length text) fault }
    ensures solves_last { (xs : List Sign) (tree : AnyTree) → Spells xs tree → EndsInSolve tree }
    ensures small { (text : List ℕ) (tokens : List AnyToken) (tree : AnyTree)
        → AreTokensOf text tokens → Spells (signs text tokens) tree
        → (item : AnyItem) → Contains tree.items item → All (λ n. IsSmall n.num) (numbers_in item.form) }
{
    tokens_are_told_by_the_text();
}
