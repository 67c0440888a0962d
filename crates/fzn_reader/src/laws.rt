//! What holds of the tokens of every text.

ghost use Rattle.std.specs.Prelude.{◌≡◌, ℕ, List, Result, length};
ghost use Rattle.fzn_reader.specs.declared.tokens.Token.{Token as AnyToken};
ghost use Rattle.fzn_reader.specs.declared.lexer.LexFault.{LexFault as AnyFault};
ghost use Rattle.fzn_reader.specs.Scan.{AreTokensOf, EndsIn, LieBetween, HaveTheirForms};

/// A law: a text has one list of tokens or one first fault, and no two of these; its tokens lie one after another
/// within it, none of them empty, and the bytes of each are a token of its kind.
pub fn tokens_are_told_by_the_text()
    ensures some_end { (text : List ℕ) → (end : Result (List AnyToken) AnyFault) × EndsIn text end }
    ensures one_end { (text : List ℕ) (a b : Result (List AnyToken) AnyFault)
        → EndsIn text a → EndsIn text b → a ≡ b }
    ensures in_order { (text : List ℕ) (tokens : List AnyToken)
        → AreTokensOf text tokens → LieBetween 0 tokens (length text) }
    ensures forms { (text : List ℕ) (tokens : List AnyToken)
        → AreTokensOf text tokens → HaveTheirForms text tokens }
{}
