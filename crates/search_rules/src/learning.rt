//! Laws of the box that a walk derives above level 0.

ghost use Rattle.std.specs.Prelude.{◌≡◌, ℕ, ◌<◌, Bool, List};
ghost use Rattle.search_rules.specs.Family.{HasValue, IsWithin, Leaves, without};
ghost use Rattle.search_rules.specs.Box.{IsBoxNarrowed};
ghost use Rattle.search_rules.specs.Trail.{Entry, Stored, IsLearned, IsTrail, back, cut};
ghost use Rattle.search_rules.specs.Walk.{Derives, IsBackLevel, IsNewestOther};

use crate::Rules;

/// The level to go back to is that of the newest entry of another variable that matters, among those that the walk has not
/// passed, or 0.
pub fn level_to_go_back_to<P: Rules>(problem: &P)
    ensures { let p = P.problem problem.now in
        (boxes : List (Stored P.Value)) (es : List (Entry P.Value)) (f b : ℕ → P.Value → Bool) (l v k : ℕ)
        → IsTrail p boxes es f → (d : Derives p boxes es f b l v) → IsNewestOther d.rest b v k → IsBackLevel es f b v k }
{}

/// The level to go back to is below that at which the walk stopped. There the box step narrows the variable: its set is the
/// only one outside its side, and it has a value inside.
pub fn derived_box_narrows<P: Rules>(problem: &P)
    ensures known { let p = P.problem problem.now in
        (boxes : List (Stored P.Value)) (es : List (Entry P.Value)) (f b : ℕ → P.Value → Bool) (l v : ℕ)
        → IsTrail p boxes es f → Derives p boxes es f b l v → v < p.variables }
    ensures below { let p = P.problem problem.now in
        (boxes : List (Stored P.Value)) (es : List (Entry P.Value)) (f b : ℕ → P.Value → Bool) (l v k : ℕ)
        → IsTrail p boxes es f → Derives p boxes es f b l v → IsBackLevel es f b v k → k < l }
    ensures narrows { let p = P.problem problem.now in
        (boxes : List (Stored P.Value)) (es : List (Entry P.Value)) (f b : ℕ → P.Value → Bool) (l v k : ℕ)
        → IsTrail p boxes es f → Derives p boxes es f b l v → IsBackLevel es f b v k
        → IsBoxNarrowed b (back k es f) v (without (back k es f v) (b v)) }
{}

/// To a level below that at which the walk stopped, going back from where it stopped leads where going back from the conflict
/// leads.
pub fn stop_goes_back_as_the_trail<P: Rules>(problem: &P)
    ensures family { let p = P.problem problem.now in
        (boxes : List (Stored P.Value)) (es : List (Entry P.Value)) (f b : ℕ → P.Value → Bool) (l v k : ℕ)
        → IsTrail p boxes es f → (d : Derives p boxes es f b l v) → k < l → back k d.rest d.reached ≡ back k es f }
    ensures entries { let p = P.problem problem.now in
        (boxes : List (Stored P.Value)) (es : List (Entry P.Value)) (f b : ℕ → P.Value → Bool) (l v k : ℕ)
        → IsTrail p boxes es f → (d : Derives p boxes es f b l v) → k < l → cut k d.rest ≡ cut k es }
{}

/// The derived box lies in no learned box.
pub fn derived_box_is_new<P: Rules>(problem: &P)
    // some side does not lie in that of the learned box
    ensures sides { let p = P.problem problem.now in
        (boxes : List (Stored P.Value)) (es : List (Entry P.Value)) (f b : ℕ → P.Value → Bool) (l v : ℕ)
        → IsTrail p boxes es f → Derives p boxes es f b l v
        → (c : ℕ → P.Value → Bool) → IsLearned boxes c → (u : ℕ) × Leaves (b u) (c u) }

    // some assignment of initial values is in the derived box and not in the learned one
    ensures assignments { let p = P.problem problem.now in
        (boxes : List (Stored P.Value)) (es : List (Entry P.Value)) (f b : ℕ → P.Value → Bool) (l v : ℕ)
        → IsTrail p boxes es f → Derives p boxes es f b l v → ((v : ℕ) → HasValue (p.initial v))
        → (c : ℕ → P.Value → Bool) → IsLearned boxes c
        → (a : ℕ → P.Value) × IsWithin p.initial a × IsWithin b a × (IsWithin c a → ⊥) }
{}
