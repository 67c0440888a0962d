//! Walks down a diagram, from the first bit to the last (Bryant, IEEE Transactions on Computers, 1986).
ghost use Rattle.std.specs.Prelude.{◌≡◌, ◌⊎◌, length, map, IfSome, IfNone, IfOk};
ghost use Rattle.std.specs.List.Sorted.{IsStrictlyIncreasing};
ghost use Rattle.diagram_arena.specs.Table.{Word, has as has_word, IsLive};
ghost use Rattle.diagram_arena.specs.Reach.{among, ReachesOnly};
ghost use Rattle.diagram_arena.specs.Arena.{table};
ghost use Rattle.diagram_view.specs.Words.{word_over, words_over, IsFirstOpen, AreSettled, IsOnlyWord, HasNoWord, HasTwoWords};

use crate::steps::{forced, is_one, is_zero, laws, side};
use diagram_arena::{Arena, Ref};
use std::alloc::{AllocError, Global};

/// Whether `word` is a word of `f`, which must be live. `bits` ascends and holds every bit under `f`, and
/// `word` gives the value of each, in their order; the values of other bits change nothing. One step a
/// bit, and no memory.
pub fn has(arena: &Arena, f: Ref, bits: &[u32], word: &[bool]) -> bool
    requires live { IsLive (table arena.now) f }
    requires ascends { IsStrictlyIncreasing bits.now }
    requires holds { ReachesOnly (table arena.now) (among bits.now) f }
    requires long { length word.now ≡ length bits.now }
    ensures value { result ≡ has_word (table arena.now) f (word_over bits.now word.now) }
    ensures any { (w : Word) → map w bits.now ≡ word.now → result ≡ has_word (table arena.now) f w }
{
    laws(arena);
    let mut at = f;
    for (i, bit) in bits.iter().enumerate() {
        at = side(arena, at, *bit, word[i]);
    }
    is_one(at)
}

/// The first position in `bits`, counted from 0, at which words of `f` have both values; None exactly
/// where each position has one value in all words, as where `f` has one word or none. `f` must be live,
/// and `bits` ascends and holds every bit under it. One step a bit, and no memory.
pub fn first_open(arena: &Arena, f: Ref, bits: &[u32]) -> Option<u32>
    requires live { IsLive (table arena.now) f }
    requires ascends { IsStrictlyIncreasing bits.now }
    requires holds { ReachesOnly (table arena.now) (among bits.now) f }
    ensures open { IfSome result (IsFirstOpen (words_over (table arena.now) f bits.now)) }
    ensures none { IfNone result (AreSettled (words_over (table arena.now) f bits.now)) }
{
    laws(arena);
    let mut at = f;
    for (i, bit) in bits.iter().enumerate() {
        match forced(arena, at, *bit) {
            Some((_, rest)) => at = rest,
            None => return Some(i as u32),
        }
    }
    None
}

/// The word of `f`, if it has just one: the value of each bit, in the order of `bits`. None where `f` has
/// no word, and where it has two; the error is want of memory alone. `f` must be live, and `bits` ascends
/// and holds every bit under it. One step a bit.
pub fn single(
    alloc: Global,
    arena: &Arena,
    f: Ref,
    bits: &[u32],
) -> Result<Option<Vec<bool>>, AllocError>
    requires live { IsLive (table arena.now) f }
    requires ascends { IsStrictlyIncreasing bits.now }
    requires holds { ReachesOnly (table arena.now) (among bits.now) f }
    ensures one { IfOk result (λ o. IfSome o (λ word. IsOnlyWord (words_over (table arena.now) f bits.now) word.items)) }
    ensures other { IfOk result (λ o. IfNone o (HasNoWord (words_over (table arena.now) f bits.now) ⊎ HasTwoWords (words_over (table arena.now) f bits.now))) }
{
    laws(arena);
    let mut word = Vec::new(alloc);
    let mut at = f;
    for bit in bits {
        match forced(arena, at, *bit) {
            Some((value, rest)) => {
                word.push(value)?;
                at = rest;
            }
            None => return Ok(None),
        }
    }
    if is_zero(at) {
        return Ok(None);
    }
    Ok(Some(word))
}
