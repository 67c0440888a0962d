//! Bounds of the words of a diagram.
ghost use Rattle.std.specs.Prelude.{◌≡◌, ◌≢◌, ◌↔◌, IfSome, IfNone, IfOk, IsNone};
ghost use Rattle.std.specs.List.Sorted.{IsStrictlyIncreasing};
ghost use Rattle.diagram_arena.specs.Table.{IsLive};
ghost use Rattle.diagram_arena.specs.Reach.{among, ReachesOnly};
ghost use Rattle.diagram_arena.specs.Arena.{table};
ghost use Rattle.diagram_view.specs.Words.{words_over, HasNoWord};
ghost use Rattle.diagram_view.specs.Bounds.{AreInEvery, AreInSome, IsLeast, IsGreatest};
ghost use Rattle.diagram_view.specs.Levels.{IsFirst, IsPreferred};

use crate::levels::{goes_on, next_level};
use crate::steps::{is_zero, laws, side};
use diagram_arena::{Arena, Ref};
use std::alloc::{AllocError, Global};

/// Bounds of a set of words over a list of bits. Each is the list of the values of these bits, in their
/// order.
#[derive(Drop)]
pub struct WordBounds {
    /// True at the bits that are true in every word: the lower bound of a set variable.
    pub every: Vec<bool>,
    /// True at the bits that are true in some word: the upper bound of a set variable.
    pub some: Vec<bool>,
    /// The least word. False comes before true, and the first bit at which two words differ decides.
    pub least: Vec<bool>,
    /// The greatest word, in the same order.
    pub greatest: Vec<bool>,
}

/// The bounds of the words of `f` (Hawkins, Lagoon and Stuckey, JAIR 2005); None exactly where it has
/// none. `f` must be live, and `bits` ascends and holds every bit under it. The error is want of memory
/// alone. For each bit every node under `f` is looked at once at most, so the cost is at worst the number
/// of nodes times the number of bits.
pub fn bounds(
    alloc: Global,
    arena: &Arena,
    f: Ref,
    bits: &[u32],
) -> Result<Option<WordBounds>, AllocError>
    requires live { IsLive (table arena.now) f }
    requires ascends { IsStrictlyIncreasing bits.now }
    requires holds { ReachesOnly (table arena.now) (among bits.now) f }
    ensures zero { IfOk result (λ o. IsNone o ↔ (f ≡ Ref.Zero)) }
    ensures none { IfOk result (λ o. IfNone o (HasNoWord (words_over (table arena.now) f bits.now))) }
    ensures every { IfOk result (λ o. IfSome o (λ b. AreInEvery (words_over (table arena.now) f bits.now) b.every.items)) }
    ensures some { IfOk result (λ o. IfSome o (λ b. AreInSome (words_over (table arena.now) f bits.now) b.some.items)) }
    ensures least { IfOk result (λ o. IfSome o (λ b. IsLeast (words_over (table arena.now) f bits.now) b.least.items)) }
    ensures greatest { IfOk result (λ o. IfSome o (λ b. IsGreatest (words_over (table arena.now) f bits.now) b.greatest.items)) }
{
    laws(arena);
    if is_zero(f) {
        return Ok(None);
    }
    let (every, some) = marks(alloc, arena, f, bits)?;
    let least = first_word(alloc, arena, f, bits, false)?;
    let greatest = first_word(alloc, arena, f, bits, true)?;
    Ok(Some(WordBounds {
        every,
        some,
        least,
        greatest,
    }))
}

/// The word of `f` that has `value` as early as can be: the least word where it is false, and the
/// greatest where it is true.
fn first_word(
    alloc: Global,
    arena: &Arena,
    f: Ref,
    bits: &[u32],
    value: bool,
) -> Result<Vec<bool>, AllocError>
    requires live { IsLive (table arena.now) f }
    requires ascends { IsStrictlyIncreasing bits.now }
    requires holds { ReachesOnly (table arena.now) (among bits.now) f }
    requires some { f ≢ Ref.Zero }
    ensures { IfOk result (λ word. IsFirst value (words_over (table arena.now) f bits.now) word.items) }
{
    laws(arena);
    let mut word = Vec::new(alloc);
    let mut at = f;
    for bit in bits {
        let taken = preferred(arena, at, *bit, value);
        word.push(taken)?;
        at = side(arena, at, *bit, taken);
    }
    Ok(word)
}

/// `value`, if `r` has a word with this value at `bit`, else the other one.
fn preferred(arena: &Arena, r: Ref, bit: u32, value: bool) -> bool
    requires { IsLive (table arena.now) r }
    ensures { IsPreferred (table arena.now) r bit value result }
{
    if is_zero(side(arena, r, bit, value)) {
        return !value;
    }
    value
}

/// The bits that are true in every word of `f`, and those that are true in some word.
fn marks(
    alloc: Global,
    arena: &Arena,
    f: Ref,
    bits: &[u32],
) -> Result<(Vec<bool>, Vec<bool>), AllocError>
    requires live { IsLive (table arena.now) f }
    requires ascends { IsStrictlyIncreasing bits.now }
    requires holds { ReachesOnly (table arena.now) (among bits.now) f }
    requires some { f ≢ Ref.Zero }
    ensures every { IfOk result (λ m. AreInEvery (words_over (table arena.now) f bits.now) m.0.items) }
    ensures some { IfOk result (λ m. AreInSome (words_over (table arena.now) f bits.now) m.1.items) }
{
    laws(arena);
    let mut every = Vec::new(alloc);
    let mut some = Vec::new(alloc);
    let mut level = Vec::new(alloc);
    level.push(f)?;
    for bit in bits {
        every.push(!goes_on(arena, &level, *bit, false))?;
        some.push(goes_on(arena, &level, *bit, true))?;
        level = next_level(alloc, arena, &level, *bit)?;
    }
    Ok((every, some))
}
