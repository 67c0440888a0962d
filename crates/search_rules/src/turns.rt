//! Laws of the legal state: what each move of the search leaves of it, and that the measure falls.

ghost use Rattle.std.specs.Prelude.{◌≡◌, ℕ, ◌<◌, ◌≤◌, Bool, true, false, List, [], ◌∷◌, length};
ghost use Rattle.search_rules.specs.Family.{HasValue, AllLie, put, without};
ghost use Rattle.search_rules.specs.Trail.{Reason, Decision, ByBox, Entry, Stored, IsTrail, IsPart, IsReason, IsQuiet, top, back, cut, narrowing_entry, decision_entry};
ghost use Rattle.search_rules.specs.Walk.{Derives, IsBackLevel};
ghost use Rattle.search_rules.specs.State.{IsLegal, IsSafe};
ghost use Rattle.search_rules.specs.Measure.{measure};

use crate::Rules;

/// A narrowing by a constraint's step or a box's step keeps the state legal, and the measure falls.
pub fn narrowing_keeps_the_state_legal<P: Rules>(problem: &P)
    ensures legal { let p = P.problem problem.now in
        (answers : List (ℕ → P.Value)) (boxes : List (Stored P.Value)) (es : List (Entry P.Value)) (f : ℕ → P.Value → Bool)
        (v : ℕ) (s : P.Value → Bool) (r : Reason P.Value)
        → IsLegal p answers boxes es f → v < p.variables → IsPart s (f v) → (r ≡ Decision → ⊥) → IsReason p boxes r f v s
        → IsLegal p answers boxes (narrowing_entry es f v r ∷ es) (put f v s) }
    ensures falls { let p = P.problem problem.now in
        (answers : List (ℕ → P.Value)) (boxes : List (Stored P.Value)) (es : List (Entry P.Value)) (f : ℕ → P.Value → Bool)
        (v : ℕ) (s : P.Value → Bool) (r : Reason P.Value)
        → IsLegal p answers boxes es f → v < p.variables → IsPart s (f v) → (r ≡ Decision → ⊥) → IsReason p boxes r f v s
        → measure p (narrowing_entry es f v r ∷ es) (put f v s) < measure p es f }
{}

/// A decision by the branching rule, in a family that every constraint's step and every learned box's step leave as it is,
/// keeps the state legal, and the measure falls.
pub fn decision_keeps_the_state_legal<P: Rules>(problem: &P)
    ensures legal { let p = P.problem problem.now in
        (answers : List (ℕ → P.Value)) (boxes : List (Stored P.Value)) (es : List (Entry P.Value)) (f : ℕ → P.Value → Bool)
        (v : ℕ) (s : P.Value → Bool)
        → IsLegal p answers boxes es f → v < p.variables → IsPart s (f v) → p.decides f v s → IsQuiet p boxes f
        → IsLegal p answers boxes (decision_entry es f v ∷ es) (put f v s) }
    ensures falls { let p = P.problem problem.now in
        (answers : List (ℕ → P.Value)) (boxes : List (Stored P.Value)) (es : List (Entry P.Value)) (f : ℕ → P.Value → Bool)
        (v : ℕ) (s : P.Value → Bool)
        → IsLegal p answers boxes es f → v < p.variables → IsPart s (f v) → p.decides f v s → IsQuiet p boxes f
        → measure p (decision_entry es f v ∷ es) (put f v s) < measure p es f }
{}

/// Going back to the end of a level keeps the state legal.
pub fn going_back_keeps_the_state_legal<P: Rules>(problem: &P)
    ensures { let p = P.problem problem.now in
        (answers : List (ℕ → P.Value)) (boxes : List (Stored P.Value)) (es : List (Entry P.Value)) (f : ℕ → P.Value → Bool) (k : ℕ)
        → IsLegal p answers boxes es f → IsLegal p answers boxes (cut k es) (back k es f) }
{}

/// The search begins in a legal state: no entries, no boxes, the initial family.
pub fn the_first_state_is_legal<P: Rules>(problem: &P)
    ensures { let p = P.problem problem.now in IsLegal p [] [] [] p.initial }
{}

/// On each trail the sets lie in the initial ones, a variable has a value where each has an initial one, and there are no
/// more levels above 0 than entries.
pub fn trails_stay_within<P: Rules>(problem: &P)
    ensures initial { let p = P.problem problem.now in
        (boxes : List (Stored P.Value)) (es : List (Entry P.Value)) (f : ℕ → P.Value → Bool)
        → IsTrail p boxes es f → AllLie f p.initial }
    ensures values { let p = P.problem problem.now in
        (boxes : List (Stored P.Value)) (es : List (Entry P.Value)) (f : ℕ → P.Value → Bool)
        → IsTrail p boxes es f → ((v : ℕ) → HasValue (p.initial v)) → (v : ℕ) → HasValue (f v) }
    ensures levels { let p = P.problem problem.now in
        (boxes : List (Stored P.Value)) (es : List (Entry P.Value)) (f : ℕ → P.Value → Bool)
        → IsTrail p boxes es f → top es ≤ length es }
{}

/// A further answer keeps the state legal.
pub fn answer_keeps_the_state_legal<P: Rules>(problem: &P)
    ensures { let p = P.problem problem.now in
        (answers : List (ℕ → P.Value)) (boxes : List (Stored P.Value)) (es : List (Entry P.Value)) (f : ℕ → P.Value → Bool)
        (answer : ℕ → P.Value)
        → IsLegal p answers boxes es f → IsLegal p (answer ∷ answers) boxes es f }
{}

/// A box that holds no solution which the answers do not cover may be stored, unmarked: an answer's box, or the running box
/// of a walk.
pub fn safe_box_keeps_the_state_legal<P: Rules>(problem: &P)
    ensures { let p = P.problem problem.now in
        (answers : List (ℕ → P.Value)) (boxes : List (Stored P.Value)) (es : List (Entry P.Value)) (f : ℕ → P.Value → Bool)
        (b : ℕ → P.Value → Bool)
        → IsLegal p answers boxes es f → IsSafe p answers b
        → IsLegal p answers (record { sides = b; learned = false } ∷ boxes) es f }
{}

/// One turn of a conflict: the walk derives a box and stops above level 0, the box is learned, the search goes back and the
/// box narrows there. The state is legal after the learning and after the narrowing, and the measure falls.
pub fn conflict_turn<P: Rules>(problem: &P)
    ensures learned { let p = P.problem problem.now in
        (answers : List (ℕ → P.Value)) (boxes : List (Stored P.Value)) (es : List (Entry P.Value)) (f b : ℕ → P.Value → Bool)
        (l v k : ℕ)
        → IsLegal p answers boxes es f → Derives p boxes es f b l v → IsBackLevel es f b v k
        → IsLegal p answers (record { sides = b; learned = true } ∷ boxes) (cut k es) (back k es f) }
    ensures narrowed { let p = P.problem problem.now in
        (answers : List (ℕ → P.Value)) (boxes : List (Stored P.Value)) (es : List (Entry P.Value)) (f b : ℕ → P.Value → Bool)
        (l v k : ℕ)
        → IsLegal p answers boxes es f → Derives p boxes es f b l v → IsBackLevel es f b v k
        → IsLegal p answers (record { sides = b; learned = true } ∷ boxes)
        (narrowing_entry (cut k es) (back k es f) v (ByBox b) ∷ cut k es)
        (put (back k es f) v (without (back k es f v) (b v))) }
    ensures falls { let p = P.problem problem.now in
        (answers : List (ℕ → P.Value)) (boxes : List (Stored P.Value)) (es : List (Entry P.Value)) (f b : ℕ → P.Value → Bool)
        (l v k : ℕ)
        → IsLegal p answers boxes es f → Derives p boxes es f b l v → IsBackLevel es f b v k
        → measure p (narrowing_entry (cut k es) (back k es f) v (ByBox b) ∷ cut k es)
        (put (back k es f) v (without (back k es f v) (b v)))
        < measure p es f }
{}
