//! Laws of the moves of the search.

ghost use Rattle.std.specs.Prelude.{ℕ, ◌<◌, ◌≤◌, Bool, List, ◌∷◌};
ghost use Rattle.search_rules.specs.Family.{put};
ghost use Rattle.search_rules.specs.Problem.{IsNarrowed};
ghost use Rattle.search_rules.specs.Box.{IsBoxNarrowed};
ghost use Rattle.search_rules.specs.Trail.{Entry, Stored, IsPart, undo};
ghost use Rattle.search_rules.specs.State.{IsLegal};
ghost use Rattle.search_rules.specs.Measure.{measure};
ghost use Rattle.search_moves.specs.Moves.{SearchState, Advance, Move};

use search_rules::{
    Rules, answer_keeps_the_state_legal, conflict_turn, decision_keeps_the_state_legal,
    exact_step_goes_by_variables, narrowing_keeps_the_state_legal, safe_box_keeps_the_state_legal,
};

/// Every move keeps the state legal. No move makes the measure greater, and one towards the end makes it smaller.
pub fn moves_keep_the_state_legal<P: Rules>(problem: &P)
    ensures legal { let p = P.problem problem.now in
        (s t : SearchState P.Value) → Move p s t
        → IsLegal p s.answers s.boxes s.entries s.family → IsLegal p t.answers t.boxes t.entries t.family }
    ensures falls { let p = P.problem problem.now in
        (s t : SearchState P.Value) → Advance p s t
        → IsLegal p s.answers s.boxes s.entries s.family
        → measure p t.entries t.family < measure p s.entries s.family }
    ensures never_rises { let p = P.problem problem.now in
        (s t : SearchState P.Value) → Move p s t
        → IsLegal p s.answers s.boxes s.entries s.family
        → measure p t.entries t.family ≤ measure p s.entries s.family }
{
    narrowing_keeps_the_state_legal(problem);
    decision_keeps_the_state_legal(problem);
    conflict_turn(problem);
    answer_keeps_the_state_legal(problem);
    safe_box_keeps_the_state_legal(problem);
}

/// Undoing the newest entry keeps the state legal.
pub fn undoing_keeps_the_state_legal<P: Rules>(problem: &P)
    ensures { let p = P.problem problem.now in
        (answers : List (ℕ → P.Value)) (boxes : List (Stored P.Value)) (e : Entry P.Value) (es : List (Entry P.Value))
        (f : ℕ → P.Value → Bool)
        → IsLegal p answers boxes (e ∷ es) f → IsLegal p answers boxes es (undo f e) }
{}

/// What a box's step leaves of a variable's set is a non-empty proper part of it.
pub fn box_narrowing_is_a_part<X>()
    ensures { (b f : ℕ → X → Bool) (v : ℕ) (s : X → Bool) → IsBoxNarrowed b f v s → IsPart s (f v) }
{}

/// The narrowings of one step may be taken one after another: after that of one variable, that of another is still the
/// exact step at its variable.
pub fn narrowings_of_one_step<P: Rules>(problem: &P)
    ensures { let p = P.problem problem.now in
        (c : ℕ) (f : ℕ → P.Value → Bool) (v u : ℕ) (s t : P.Value → Bool)
        → IsNarrowed p c f v s → IsNarrowed p c f u t → IsNarrowed p c (put f v s) u t }
{
    exact_step_goes_by_variables(problem);
}
