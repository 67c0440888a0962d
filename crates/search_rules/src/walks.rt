//! Laws of the walk from a conflict.

ghost use Rattle.std.specs.Prelude.{◌≡◌, ℕ, Bool, List, ◌∷◌};
ghost use Rattle.search_rules.specs.Family.{AllLie, IsWithin};
ghost use Rattle.search_rules.specs.Problem.{IsSolution, IsCovered};
ghost use Rattle.search_rules.specs.Trail.{Decision, Entry, Stored, IsTrail};
ghost use Rattle.search_rules.specs.Walk.{IsConflictBox, Matters, GoesOn, Stops, Walk, DerivesAtRoot};
ghost use Rattle.search_rules.specs.State.{IsExcluded, IsLegal, IsSafe};

use crate::Rules;

/// At every moment of a walk each assignment in the running box lies in a stored box or violates a constraint, and the family
/// of the entries that are left lies in the running box.
pub fn walk_holds_what_is_excluded<P: Rules>(problem: &P)
    ensures excluded { let p = P.problem problem.now in
        (boxes : List (Stored P.Value)) (es rest : List (Entry P.Value)) (f b g c : ℕ → P.Value → Bool)
        → IsTrail p boxes es f → IsConflictBox p boxes f b → Walk p es f b rest g c
        → (a : ℕ → P.Value) → IsWithin c a → IsExcluded p boxes a }
    // the entries that are left are a trail to the family that is left
    ensures trail { let p = P.problem problem.now in
        (boxes : List (Stored P.Value)) (es rest : List (Entry P.Value)) (f b g c : ℕ → P.Value → Bool)
        → IsTrail p boxes es f → Walk p es f b rest g c → IsTrail p boxes rest g }

    // in a legal state the running box holds no solution that the answers do not cover
    ensures safe { let p = P.problem problem.now in
        (answers : List (ℕ → P.Value)) (boxes : List (Stored P.Value)) (es rest : List (Entry P.Value)) (f b g c : ℕ → P.Value → Bool)
        → IsLegal p answers boxes es f → IsConflictBox p boxes f b → Walk p es f b rest g c → IsSafe p answers c }
    ensures holds { let p = P.problem problem.now in
        (boxes : List (Stored P.Value)) (es rest : List (Entry P.Value)) (f b g c : ℕ → P.Value → Bool)
        → IsTrail p boxes es f → IsConflictBox p boxes f b → Walk p es f b rest g c → AllLie g c }
{}

/// Where the walk passes the first entry, its box holds every assignment, so in a legal state the answers cover every
/// solution.
pub fn walk_past_the_first_entry<P: Rules>(problem: &P)
    ensures everything { let p = P.problem problem.now in
        (boxes : List (Stored P.Value)) (es : List (Entry P.Value)) (f b : ℕ → P.Value → Bool)
        → IsTrail p boxes es f → DerivesAtRoot p boxes es f b → (a : ℕ → P.Value) → IsWithin p.initial a → IsWithin b a }
    ensures covered { let p = P.problem problem.now in
        (answers : List (ℕ → P.Value)) (boxes : List (Stored P.Value)) (es : List (Entry P.Value)) (f b : ℕ → P.Value → Bool)
        → IsLegal p answers boxes es f → DerivesAtRoot p boxes es f b
        → (a : ℕ → P.Value) → IsSolution p a → IsCovered p answers a }
{}

/// The walk never resolves a decision: where one matters, the walk stops.
pub fn walk_resolves_no_decision<P: Rules>(problem: &P)
    ensures { let p = P.problem problem.now in
        (boxes : List (Stored P.Value)) (e : Entry P.Value) (es rest : List (Entry P.Value)) (f b g c : ℕ → P.Value → Bool)
        → IsTrail p boxes es f → Walk p es f b (e ∷ rest) g c → GoesOn (e ∷ rest) c → Matters e c
        → e.reason ≡ Decision → ⊥ }
{}

/// Where the walk stops, the level and the variable are determined.
pub fn walk_stops_for_one_variable<X>()
    ensures { (es : List (Entry X)) (b : ℕ → X → Bool) (l v m w : ℕ) → Stops es b l v → Stops es b m w → (l ≡ m) × (v ≡ w) }
{}
