//! Facts of one or two terms.
ghost use Rattle.std.specs.Prelude.{◌≡◌, ◌≤◌, ◌≤ℤ◌, ◌*ℤ◌, ◌∷◌, [], unsigned_abs, IfOk};
ghost use Rattle.problem_limits.specs.Limits.{IsSmallTerm};
ghost use Rattle.int_channel.specs.Choices.{IsAtomWhere, number_of_term};

use crate::choices::amounts::{one, two};
use crate::forms::Atom;
use linear_machine::Comparison;
use set_meaning::Term;
use std::alloc::{AllocError, Global};

/// `a` is at most `b`.
pub(super) fn at_most(alloc: Global, a: &Term, b: &Term) -> Result<Atom, AllocError>
    requires a { IsSmallTerm a.now }
    requires b { IsSmallTerm b.now }
    ensures { IfOk result (IsAtomWhere (a.now ∷ b.now ∷ []) (λ values. number_of_term values a.now ≤ℤ number_of_term values b.now)) }
{
    two(alloc, Comparison::AtMost, 0, 1, a, -1, b)
}

/// `a` is `b`.
pub(super) fn equal(alloc: Global, a: &Term, b: &Term) -> Result<Atom, AllocError>
    requires a { IsSmallTerm a.now }
    requires b { IsSmallTerm b.now }
    ensures { IfOk result (IsAtomWhere (a.now ∷ b.now ∷ []) (λ values. number_of_term values a.now ≡ number_of_term values b.now)) }
{
    two(alloc, Comparison::Equal, 0, 1, a, -1, b)
}

/// `a` is this number.
pub(super) fn is_number(alloc: Global, a: &Term, number: i64) -> Result<Atom, AllocError>
    requires a { IsSmallTerm a.now }
    requires number { unsigned_abs number ≤ 1000000000 }
    ensures { IfOk result (IsAtomWhere (a.now ∷ []) (λ values. number_of_term values a.now ≡ number)) }
{
    one(alloc, Comparison::Equal, number, -1, a)
}

/// This number times `a` is `b`.
pub(super) fn is_product(alloc: Global, number: i64, a: &Term, b: &Term) -> Result<Atom, AllocError>
    requires number { unsigned_abs number ≤ 1000000000 }
    requires a { IsSmallTerm a.now }
    requires b { IsSmallTerm b.now }
    ensures { IfOk result (IsAtomWhere (a.now ∷ b.now ∷ []) (λ values. (number *ℤ number_of_term values a.now) ≡ number_of_term values b.now)) }
{
    two(alloc, Comparison::Equal, 0, number, a, -1, b)
}
