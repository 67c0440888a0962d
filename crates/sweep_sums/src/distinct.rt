//! Lists of numbers, each once.
ghost use Rattle.std.specs.Prelude.{◌≡◌, ◌↔◌, true, ℤ, Contains};

/// Leaves each number once.
pub(crate) fn make_distinct(numbers: &mut Vec<i128>)
    ensures { (p : ℤ) → Contains numbers.new.items p ↔ Contains numbers.old.items p }
{
    numbers.sort_unstable();
    numbers.dedup();
}
