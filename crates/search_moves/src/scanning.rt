//! Laws on where the walk from a conflict goes on and where it stops, for one who looks through the entries.

ghost use Rattle.std.specs.Prelude.{◌≡◌, ◌≢◌, ◌↔◌, ℕ, ◌<◌, ◌≤◌, Bool, List, ◌∷◌, ◌++◌};
ghost use Rattle.search_rules.specs.Family.{Lies};
ghost use Rattle.search_rules.specs.Trail.{Entry, Stored, IsTrail, top};
ghost use Rattle.search_rules.specs.Walk.{Matters, SomeMatters, Stops, GoesOn, IsNewestOther};
ghost use Rattle.search_moves.specs.Scans.{NoneMatters, NoOtherMatters, OnlyOneMatters};

use search_rules::Rules;

/// Newest entries that do not matter change neither that the walk goes on nor where it stops.
pub fn passing_changes_nothing<X>()
    ensures one { (e : Entry X) (rest : List (Entry X)) (b : ℕ → X → Bool) → Lies e.before (b e.var)
        → GoesOn (e ∷ rest) b ↔ GoesOn rest b }
    ensures on { (passed rest : List (Entry X)) (b : ℕ → X → Bool) → NoneMatters passed b
        → GoesOn (passed ++ rest) b ↔ GoesOn rest b }
    ensures stops { (passed rest : List (Entry X)) (b : ℕ → X → Bool) (l v : ℕ) → NoneMatters passed b
        → Stops (passed ++ rest) b l v ↔ Stops rest b l v }

    // where no entry matters the walk goes on
    ensures none { (es : List (Entry X)) (b : ℕ → X → Bool) → NoneMatters es b → GoesOn es b }
{}

/// The walk goes on where the newest entry that matters has another variable's beside it at its level, and on level 0.
pub fn walk_goes_on<P: Rules>(problem: &P)
    ensures two { let p = P.problem problem.now in
        (boxes : List (Stored P.Value)) (e : Entry P.Value) (passed rest : List (Entry P.Value))
        (f b : ℕ → P.Value → Bool) (v : ℕ)
        → IsTrail p boxes (passed ++ e ∷ rest) f → NoneMatters passed b → Matters e b
        → SomeMatters rest b e.level v → v ≢ e.var → GoesOn (passed ++ e ∷ rest) b }
    ensures root { let p = P.problem problem.now in
        (boxes : List (Stored P.Value)) (e : Entry P.Value) (passed rest : List (Entry P.Value))
        (f b : ℕ → P.Value → Bool)
        → IsTrail p boxes (passed ++ e ∷ rest) f → NoneMatters passed b → e.level ≡ 0
        → GoesOn (passed ++ e ∷ rest) b }
{}

/// The walk stops for the variable of the newest entry that matters, at its level, where that is above 0 and no entry
/// of another variable matters there.
pub fn walk_stops<P: Rules>(problem: &P)
    ensures here { let p = P.problem problem.now in
        (boxes : List (Stored P.Value)) (e : Entry P.Value) (passed rest : List (Entry P.Value))
        (f b : ℕ → P.Value → Bool)
        → IsTrail p boxes (passed ++ e ∷ rest) f → NoneMatters passed b → Matters e b → 0 < e.level
        → NoOtherMatters rest b e.level e.var → Stops (passed ++ e ∷ rest) b e.level e.var }

    // it stops at one of the trail's levels
    ensures level { let p = P.problem problem.now in
        (boxes : List (Stored P.Value)) (es : List (Entry P.Value)) (f b : ℕ → P.Value → Bool) (l v : ℕ)
        → IsTrail p boxes es f → Stops es b l v → l ≤ top es }
{}

/// What is seen of one level on the way down the entries: an entry that matters, or that older entries are all below
/// it.
pub fn scans_find_what_matters<P: Rules>(problem: &P)
    ensures found { (seen rest : List (Entry P.Value)) (e : Entry P.Value) (b : ℕ → P.Value → Bool)
        → Matters e b → SomeMatters (seen ++ e ∷ rest) b e.level e.var }
    ensures below { let p = P.problem problem.now in
        (boxes : List (Stored P.Value)) (seen rest : List (Entry P.Value)) (f b : ℕ → P.Value → Bool) (l v : ℕ)
        → IsTrail p boxes (seen ++ rest) f → top rest < l → NoOtherMatters seen b l v
        → NoOtherMatters (seen ++ rest) b l v }
{}

/// The level of the newest entry of another variable that matters, for one who looks through the entries.
pub fn newest_other_by_scan<X>()
    ensures found { (seen rest : List (Entry X)) (e : Entry X) (b : ℕ → X → Bool) (v : ℕ) → OnlyOneMatters seen b v
        → e.var ≢ v → Matters e b → IsNewestOther (seen ++ e ∷ rest) b v e.level }
    ensures none { (es : List (Entry X)) (b : ℕ → X → Bool) (v : ℕ) → OnlyOneMatters es b v → IsNewestOther es b v 0 }
{}
