//! The level to go back to with a derived box.

ghost use Rattle.std.specs.Prelude.{length};
ghost use Rattle.std.specs.List.{All};
ghost use Rattle.search_rules.specs.Walk.{IsNewestOther};
ghost use Rattle.plain_steps.specs.Sets.{family as family_of};
ghost use Rattle.plain_search.specs.State.{entries_of, Fits};

use crate::standing::matters;
use crate::trail::Change;
use plain_steps::Set;

/// The level of the newest change of another variable that matters, 0 where there is none.
pub fn level_back(changes: &[Change], sides: &[Set], var: usize) -> usize
    requires { All (Fits (length sides.now)) changes.now }
    ensures { IsNewestOther (entries_of changes.now) (family_of sides.now) var result }
{
    let mut level = 0;
    for change in changes {
        if change.var != var {
            if matters(change, sides) {
                level = change.level;
            }
        }
    }
    level
}
