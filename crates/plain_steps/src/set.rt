//! Sets as lists of values.

ghost use Rattle.std.specs.Prelude.{◌≡◌, ℕ, true, false, not, ◌++◌, MatchBool, IfOk};
ghost use Rattle.std.specs.List.{filter};
ghost use Rattle.search_rules.specs.Family.{Lies, Leaves, Meets};
ghost use Rattle.plain_steps.specs.Sets.{has};

use listed::Listed;
use std::alloc::{AllocError, Global};

/// A set of values, as a list.
pub type Set = Listed<u32>;

/// Whether the value is in the set.
pub fn has(set: &[u32], value: u32) -> bool
    ensures { result ≡ has set.now value }
{
    for x in set {
        if *x == value {
            return true;
        }
    }
    false
}

/// Whether each value of `a` is in `b`.
pub fn lies(a: &[u32], b: &[u32]) -> bool
    ensures { MatchBool result (Lies (has a.now) (has b.now)) (Leaves (has a.now) (has b.now)) }
{
    for x in a {
        if !has(b, *x) {
            return false;
        }
    }
    true
}

/// Whether some value of `a` is in `b`.
pub fn meets(a: &[u32], b: &[u32]) -> bool
    ensures { MatchBool result (Meets (has a.now) (has b.now)) ((x : ℕ) → has a.now x ≡ true → has b.now x ≡ false) }
{
    for x in a {
        if has(b, *x) {
            return true;
        }
    }
    false
}

/// The values of `a` that are not in `b`.
pub fn without(alloc: Global, a: &[u32], b: &[u32]) -> Result<Set, AllocError>
    ensures { IfOk result (λ s. s ≡ filter (λ x. not (has b.now x)) a.now) }
{
    let kept: Vec<u32> = a.iter().copied().filter(|x| !has(b, *x)).collect(alloc)?;
    Ok(Listed::of(kept))
}

/// The values of both sets.
pub fn both(alloc: Global, a: &[u32], b: &[u32]) -> Result<Set, AllocError>
    ensures { IfOk result (λ s. s ≡ filter (λ x. has b.now x) a.now) }
{
    let kept: Vec<u32> = a.iter().copied().filter(|x| has(b, *x)).collect(alloc)?;
    Ok(Listed::of(kept))
}

/// The values of either set: those of `a`, and then those of `b` that are not in it.
pub fn either(alloc: Global, a: &[u32], b: &[u32]) -> Result<Set, AllocError>
    ensures { IfOk result (λ s. s ≡ a.now ++ filter (λ x. not (has a.now x)) b.now) }
{
    let mut values = Vec::from_slice(alloc, a)?;
    let more = without(alloc, b, a)?;
    values.extend_from_slice(more.items())?;
    Ok(Listed::of(values))
}

/// The same values.
pub fn copied(alloc: Global, a: &[u32]) -> Result<Set, AllocError>
    ensures { IfOk result (λ s. s ≡ a.now) }
{
    Ok(Listed::of(Vec::from_slice(alloc, a)?))
}
