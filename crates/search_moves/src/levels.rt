//! Laws of the levels of a trail.

ghost use Rattle.std.specs.Prelude.{◌≡◌, ℕ, ◌<◌, Bool, List, []};
ghost use Rattle.search_rules.specs.Problem.{Steps};
ghost use Rattle.search_rules.specs.Trail.{Entry, Stored, IsTrail, IsQuiet, top, back};
ghost use Rattle.search_moves.specs.Scans.{NoneByBox};

use search_rules::{Rules, parts_of_steps};

/// At the end of each level below the newest, every constraint's step and every learned box's step leave the family as
/// it is.
pub fn levels_below_are_quiet<P: Rules>(problem: &P)
    ensures { let p = P.problem problem.now in
        (boxes : List (Stored P.Value)) (es : List (Entry P.Value)) (f : ℕ → P.Value → Bool) (k : ℕ)
        → IsTrail p boxes es f → k < top es → IsQuiet p boxes (back k es f) }
{}

/// A trail of level 0 on which no box narrowed is steps of constraints, one after another, from the initial family.
pub fn level_0_is_steps<P: Rules>(problem: &P)
    ensures constraints { let p = P.problem problem.now in
        (boxes : List (Stored P.Value)) (es : List (Entry P.Value)) (f : ℕ → P.Value → Bool)
        → IsTrail p boxes es f → top es ≡ 0 → NoneByBox es → (cs : List ℕ) × Steps p p.initial cs f }

    // so is one over no stored boxes
    ensures no_boxes { let p = P.problem problem.now in
        (es : List (Entry P.Value)) (f : ℕ → P.Value → Bool)
        → IsTrail p [] es f → top es ≡ 0 → (cs : List ℕ) × Steps p p.initial cs f }
{
    parts_of_steps(problem);
}
