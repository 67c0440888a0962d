//! Whether the kinds of a problem keep the limits.
ghost use Rattle.std.specs.Prelude.{◌≡◌, ◌↔◌, ◌≢◌, ◌<◌, ◌≤◌, ◌^◌, [], IsTrue, All, sum_by};
ghost use Rattle.set_meaning.specs.Problems.{IsKind};
ghost use Rattle.set_meaning.specs.Sets.{IsAscending};
ghost use Rattle.bit_layout.specs.Words.{greatest, least, span};
ghost use Rattle.bit_layout.specs.Limits.{AreWithinLimits, IsNarrow, counted_bits};
ghost use Rattle.problem_limits.specs.Limits.{HasSmallNumbers, IsSmallNumber};

use bit_layout::{width, widths_are_least};
use set_meaning::Kind;

/// How far the greatest value of an integer variable may be above the least.
const SPAN_LIMIT: u64 = 65_535;

/// The most bits of all variables, each counted as at least one.
const BIT_LIMIT: u128 = 1_048_576;

/// The largest size of an integer.
const NUMBER_LIMIT: u64 = 1_000_000_000;

/// Whether a layout can be made of the kinds: each integer variable has a value, and at most 65,535 between its least
/// and its greatest, and there are at most 1,048,576 bits in all, each variable counted as at least one. Takes no
/// memory, and time for each kind once.
pub fn are_within_limits(kinds: &[Kind]) -> bool
    ensures { IsTrue result ↔ AreWithinLimits kinds.now }
{
    if !are_kinds(kinds) {
        return false;
    }
    if !are_narrow(kinds) {
        return false;
    }
    have_few_bits(kinds)
}

pub(crate) fn are_kinds(kinds: &[Kind]) -> bool
    ensures { IsTrue result ↔ All IsKind kinds.now }
{
    kinds.iter().all(|kind| is_kind(kind))
}

fn is_kind(kind: &Kind) -> bool
    ensures { IsTrue result ↔ IsKind kind.now }
{
    match kind {
        Kind::Bool => true,
        Kind::Int(numbers) => is_domain(numbers.elements()),
        Kind::Set(universe) => is_universe(universe.elements()),
    }
}

/// Whether there is a number.
fn is_domain(numbers: &[i64]) -> bool
    requires { IsAscending numbers.now }
    ensures { IsTrue result ↔ (IsAscending numbers.now × (numbers.now ≢ [])) }
{
    !numbers.is_empty()
}

/// Nothing more is asked of a universe.
fn is_universe(elements: &[i64]) -> bool
    requires { IsAscending elements.now }
    ensures { IsTrue result ↔ IsAscending elements.now }
{
    let _ = elements;
    true
}

fn are_narrow(kinds: &[Kind]) -> bool
    ensures { IsTrue result ↔ All IsNarrow kinds.now }
{
    kinds.iter().all(|kind| is_narrow(kind))
}

fn is_narrow(kind: &Kind) -> bool
    ensures { IsTrue result ↔ IsNarrow kind.now }
{
    match kind {
        Kind::Bool => true,
        Kind::Int(numbers) => are_near(numbers.elements()),
        Kind::Set(_) => true,
    }
}

/// Whether the last number is at most 65,535 from the first.
fn are_near(numbers: &[i64]) -> bool
    ensures { IsTrue result ↔ (span numbers.now ≤ 65535) }
{
    greatest(numbers).abs_diff(least(numbers)) <= SPAN_LIMIT
}

/// The first number; 0 where there is none.
fn least(numbers: &[i64]) -> i64
    ensures { result ≡ least numbers.now }
{
    numbers.first().copied().unwrap_or(0)
}

/// The last number; 0 where there is none.
fn greatest(numbers: &[i64]) -> i64
    ensures { result ≡ greatest numbers.now }
{
    numbers.last().copied().unwrap_or(0)
}

/// Whether the variables have few bits in all, each counted as at least one.
fn have_few_bits(kinds: &[Kind]) -> bool
    requires legal { All IsKind kinds.now }
    requires narrow { All IsNarrow kinds.now }
    ensures { IsTrue result ↔ (sum_by counted_bits kinds.now ≤ 1048576) }
{
    let mut bits = 0u128;
    for kind in kinds {
        bits += counted_bits(kind);
        if bits > BIT_LIMIT {
            return false;
        }
    }
    true
}

/// The bits of a variable, counted as at least one.
fn counted_bits(kind: &Kind) -> u128
    requires legal { IsKind kind.now }
    requires narrow { IsNarrow kind.now }
    ensures bits { result ≡ counted_bits kind.now }
    ensures within { result < 2 ^ 64 }
{
    widths_are_least();
    match kind {
        Kind::Bool => 1,
        Kind::Int(_) => integer_bits(kind),
        Kind::Set(universe) => (universe.elements().len() as u128).max(1),
    }
}

/// The same of an integer variable.
fn integer_bits(kind: &Kind) -> u128
    requires legal { IsKind kind.now }
    requires narrow { IsNarrow kind.now }
    requires few { counted_bits kind.now ≤ 16 }
    ensures bits { result ≡ counted_bits kind.now }
    ensures within { result ≤ 16 }
{
    u128::from(width(kind).max(1))
}

/// Whether each integer that a variable may be is small. Takes no memory, and time for each integer once.
pub(crate) fn have_small_numbers(kinds: &[Kind]) -> bool
    ensures { IsTrue result ↔ All HasSmallNumbers kinds.now }
{
    kinds.iter().all(|kind| has_small_numbers(kind))
}

fn has_small_numbers(kind: &Kind) -> bool
    ensures { IsTrue result ↔ HasSmallNumbers kind.now }
{
    match kind {
        Kind::Bool => true,
        Kind::Int(numbers) => are_small(numbers.elements()),
        Kind::Set(_) => true,
    }
}

fn are_small(numbers: &[i64]) -> bool
    ensures { IsTrue result ↔ All IsSmallNumber numbers.now }
{
    numbers.iter().all(|x| is_small(*x))
}

/// Whether the integer is from -1,000,000,000 to 1,000,000,000.
pub(crate) fn is_small(x: i64) -> bool
    ensures { IsTrue result ↔ IsSmallNumber x }
{
    x.unsigned_abs() <= NUMBER_LIMIT
}
