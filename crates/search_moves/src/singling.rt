//! Laws of answers: of families of single values, and of their boxes.

ghost use Rattle.std.specs.Prelude.{◌≡◌, ℕ, ◌<◌, Bool, true, List, ◌∷◌, ◌⊎◌};
ghost use Rattle.search_rules.specs.Family.{AllLie, IsWithin};
ghost use Rattle.search_rules.specs.Problem.{IsSingle, IsLeft, IsSolution, IsCovered};
ghost use Rattle.search_rules.specs.Box.{IsBoxSame};
ghost use Rattle.search_rules.specs.Trail.{Entry, Stored, IsStored, IsTrail};
ghost use Rattle.search_rules.specs.State.{IsSafe};
ghost use Rattle.search_moves.specs.Answers.{HasBox, HaveBoxes, SpeaksOfVariables};

use search_rules::{Rules, single_values_are_a_solution, trails_stay_within};

/// Single values are not in a box that leaves their family as it is.
pub fn single_values_stand_in_no_box<P: Rules>(problem: &P)
    ensures { let p = P.problem problem.now in
        (b f : ℕ → P.Value → Bool) (a : ℕ → P.Value) → AllLie f p.initial → IsSingle p f a → SpeaksOfVariables p b
        → IsBoxSame b f → IsWithin b a → ⊥ }
{}

/// A trail of single values that every constraint's step and every stored box's step leave as they are gives a new
/// answer: a solution that no answer covers, where each answer has its box stored and no constraint without variables
/// is false.
pub fn single_values_are_a_new_answer<P: Rules>(problem: &P)
    // a solution in no stored box is not covered
    ensures outside { let p = P.problem problem.now in
        (answers : List (ℕ → P.Value)) (boxes : List (Stored P.Value)) (a : ℕ → P.Value)
        → IsSolution p a → HaveBoxes p boxes answers → ((b : ℕ → P.Value → Bool) → IsStored boxes b → IsWithin b a → ⊥)
        → IsCovered p answers a → ⊥ }
    ensures solution { let p = P.problem problem.now in
        (boxes : List (Stored P.Value)) (es : List (Entry P.Value)) (f : ℕ → P.Value → Bool) (a : ℕ → P.Value)
        → IsTrail p boxes es f → IsSingle p f a → ((c : ℕ) → c < p.constraints → IsLeft p c f)
        → ((c : ℕ) → c < p.constraints → ((v : ℕ) × (p.scope c v ≡ true)) ⊎ p.holds c a)
        → IsSolution p a }
    ensures uncovered { let p = P.problem problem.now in
        (answers : List (ℕ → P.Value)) (boxes : List (Stored P.Value)) (es : List (Entry P.Value))
        (f : ℕ → P.Value → Bool) (a : ℕ → P.Value)
        → IsTrail p boxes es f → IsSingle p f a → IsSolution p a → HaveBoxes p boxes answers
        → ((b : ℕ → P.Value → Bool) → IsStored boxes b → SpeaksOfVariables p b × IsBoxSame b f)
        → IsCovered p answers a → ⊥ }
{
    trails_stay_within(problem);
    single_values_are_a_solution(problem);
}

/// The box of an answer may be stored with it, and the answers keep their boxes as boxes are stored.
pub fn answers_have_boxes<P: Rules>(problem: &P)
    // a box of solutions that the answer covers
    ensures safe { let p = P.problem problem.now in
        (answers : List (ℕ → P.Value)) (answer : ℕ → P.Value) (b : ℕ → P.Value → Bool)
        → ((a : ℕ → P.Value) → IsSolution p a → IsWithin b a → p.covers answer a) → IsSafe p (answer ∷ answers) b }
    ensures stored { let p = P.problem problem.now in
        (answers : List (ℕ → P.Value)) (boxes : List (Stored P.Value)) (s : Stored P.Value)
        → HaveBoxes p boxes answers → HaveBoxes p (s ∷ boxes) answers }
    ensures answered { let p = P.problem problem.now in
        (answers : List (ℕ → P.Value)) (boxes : List (Stored P.Value)) (answer : ℕ → P.Value)
        → HasBox p boxes answer → HaveBoxes p boxes answers → HaveBoxes p boxes (answer ∷ answers) }
{}
