//! Lists of states, each once.
ghost use Rattle.std.specs.Prelude.{◌≡◌, ◌↔◌, true, Contains};

/// Leaves each state once.
pub(crate) fn make_distinct<X: Copy + Ord>(states: &mut Vec<X>)
    requires identical { (p q : X) → X.eq p q ≡ true → p ≡ q }
    ensures same { (p : X) → Contains states.new.items p ↔ Contains states.old.items p }
{
    states.sort_unstable();
    states.dedup();
}
