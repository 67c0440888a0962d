//! Laws of the boxes of conflicts and of reasons.

ghost use Rattle.std.specs.Prelude.{◌≡◌, ℕ, Bool, List};
ghost use Rattle.search_rules.specs.Family.{IsWithin};
ghost use Rattle.search_rules.specs.Problem.{IsViolated, IsNarrowed};
ghost use Rattle.search_rules.specs.Trail.{Reason, Decision, Stored, IsReason};
ghost use Rattle.search_rules.specs.Walk.{conflict_box, narrowing_box, reason_box, IsConflictBox};
ghost use Rattle.search_rules.specs.State.{IsExcluded};

use search_rules::Rules;

/// The box of a violated constraint and that of a narrowing by a constraint hold only what violates the constraint. So
/// the box of each conflict and of each reason but a decision holds only what a stored box holds or what violates a
/// constraint.
pub fn reasons_exclude_what_violates<P: Rules>(problem: &P)
    ensures conflict { let p = P.problem problem.now in
        (c : ℕ) (f : ℕ → P.Value → Bool) (a : ℕ → P.Value)
        → IsViolated p c f → IsWithin (conflict_box p c f) a → p.holds c a → ⊥ }
    ensures narrowing { let p = P.problem problem.now in
        (c : ℕ) (f : ℕ → P.Value → Bool) (v : ℕ) (s : P.Value → Bool) (a : ℕ → P.Value)
        → IsNarrowed p c f v s → IsWithin (narrowing_box p c f v s) a → p.holds c a → ⊥ }
    ensures conflicts { let p = P.problem problem.now in
        (boxes : List (Stored P.Value)) (f b : ℕ → P.Value → Bool) (a : ℕ → P.Value)
        → IsConflictBox p boxes f b → IsWithin b a → IsExcluded p boxes a }
    ensures reasons { let p = P.problem problem.now in
        (boxes : List (Stored P.Value)) (r : Reason P.Value) (f : ℕ → P.Value → Bool) (v : ℕ) (s : P.Value → Bool)
        (a : ℕ → P.Value)
        → IsReason p boxes r f v s → (r ≡ Decision → ⊥) → IsWithin (reason_box p r f v s) a
        → IsExcluded p boxes a }
{}
