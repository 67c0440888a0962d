//! The stop test of the walk.

ghost use Rattle.std.specs.Prelude.{◌≡◌, ℕ, ◌<◌, Bool, List, ◌∷◌, length, MatchBool, MatchOption};
ghost use Rattle.std.specs.List.{All};
ghost use Rattle.search_rules.specs.Family.{Lies};
ghost use Rattle.search_rules.specs.Trail.{Entry};
ghost use Rattle.search_rules.specs.Walk.{Matters, Stops, GoesOn};
ghost use Rattle.plain_steps.specs.Sets.{family as family_of};
ghost use Rattle.plain_search.specs.State.{entry_of, entries_of, Fits};
ghost use Rattle.plain_search.specs.Moves.{IsStanding};

use crate::trail::Change;
use plain_steps::{Set, lies, set_of};

/// Where the entries that matter to a box stand.
#[derive(Drop)]
pub enum Standing {
    /// None matters.
    Nowhere,
    /// Those at the highest level that has one are of this variable: the level, and the variable.
    One(usize, usize),
    /// Those at the highest level that has one are of several variables.
    Several(usize),
}

/// Whether the set of the change from before does not lie in its side.
pub fn matters(change: &Change, sides: &[Set]) -> bool
    requires { change.now.var < length sides.now }
    ensures { MatchBool result
        (Matters (entry_of change.now) (family_of sides.now))
        (Lies (entry_of change.now).before (family_of sides.now (entry_of change.now).var)) }
{
    !lies(change.before.items(), set_of(sides, change.var))
}

/// The same with one more entry, which matters.
fn with_entry(found: Standing, level: usize, var: usize) -> Standing
    ensures { (es : List (Entry ℕ)) (b : ℕ → ℕ → Bool) (e : Entry ℕ) → e.level ≡ level → e.var ≡ var → Matters e b
        → IsStanding es b found → IsStanding (e ∷ es) b result }
{
    match found {
        Standing::Nowhere => Standing::One(level, var),
        Standing::One(highest, one) => {
            if level > highest {
                Standing::One(level, var)
            } else if level < highest || var == one {
                Standing::One(highest, one)
            } else {
                Standing::Several(highest)
            }
        }
        Standing::Several(highest) => {
            if level > highest {
                Standing::One(level, var)
            } else {
                Standing::Several(highest)
            }
        }
    }
}

/// Where the changes that matter to the box stand.
fn where_they_stand(changes: &[Change], sides: &[Set]) -> Standing
    requires { All (Fits (length sides.now)) changes.now }
    ensures { IsStanding (entries_of changes.now) (family_of sides.now) result }
{
    let mut found = Standing::Nowhere;
    for change in changes {
        if matters(change, sides) {
            found = with_entry(found, change.level, change.var);
        }
    }
    found
}

/// The variable for which the walk stops here, if it does.
pub fn stop(changes: &[Change], sides: &[Set]) -> Option<usize>
    requires { All (Fits (length sides.now)) changes.now }
    ensures { MatchOption result
        (GoesOn (entries_of changes.now) (family_of sides.now))
        (λ v. (l : ℕ) × Stops (entries_of changes.now) (family_of sides.now) l v) }
{
    match where_they_stand(changes, sides) {
        Standing::One(level, var) => {
            if level == 0 {
                return None;
            }
            Some(var)
        }
        Standing::Nowhere => None,
        Standing::Several(_) => None,
    }
}
