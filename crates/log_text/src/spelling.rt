//! What holds of all spellings.

ghost use Rattle.std.specs.Prelude.{◌≡◌, ◌≢◌, ℕ, List};
ghost use Rattle.std.specs.List.{AllByRecursion};
ghost use Rattle.log_text.specs.Spelling.{HasSpelling, IsLog, spelling};
ghost use Rattle.log_text.specs.declared.line.Line.{Line as AnyLine};

/// A law: a spelling holds no newline, no two lines share one, and a text is the log of one list of lines at most.
pub fn spellings_are_apart()
    ensures one_line { (line : AnyLine) → HasSpelling line → AllByRecursion (λ b. b ≢ 10) (spelling line) }
    ensures lines { (a b : AnyLine) → HasSpelling a → HasSpelling b → spelling a ≡ spelling b → a ≡ b }
    ensures logs { (text : List ℕ) (first second : List AnyLine) → IsLog text first → IsLog text second → first ≡ second }
{}
