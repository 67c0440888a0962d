ghost use Rattle.std.specs.Prelude.{◌≡◌, ◌↔◌, ◌∷◌, ℤ, pos, ◌-ℤ◌, ◌<ℤ◌, ◌≤ℤ◌, IsTrue, IfOk, All};
ghost use Rattle.set_meaning.specs.Operations.{AgreesAt, IsSetResult, ResultHas};
ghost use Rattle.set_meaning.specs.Sets.{IsAscending, IsSetOf, Has, IsSubset, IsBefore, ascending_set, count_between, integers_between};

use std::alloc::{AllocError, Global};
use std::marker::Model;

/// A finite set of integers. Contracts see it as the ascending list of its elements.
#[derive(Drop, Debug)]
pub struct SetValue {
    elements: Vec<i64>,
}

impl Model for SetValue {
    ghost use Rattle.std.specs.Prelude.{List, ℤ};
    ghost use Rattle.set_meaning.specs.Sets.{IsAscending};

    ghost Value = { List ℤ };

    ghost view = { λ set. set.elements.items };

    ghost invariant = { λ set. IsAscending set.elements.items };
}

impl SetValue {
    /// The set of the listed integers, which may stand in any order and more than once.
    pub fn from_list(alloc: Global, items: &[i64]) -> Result<SetValue, AllocError>
        ensures set { IfOk result (IsSetOf items.now) }
        ensures exact { IfOk result (λ set. set ≡ ascending_set items.now) }
    {
        let mut elements = Vec::from_slice(alloc, items)?;
        elements.sort_unstable();
        elements.dedup();
        Ok(SetValue { elements })
    }

    /// The set of all integers from `lo` to `hi`, both included. It is empty where `lo` is above `hi`.
    pub fn from_range(alloc: Global, lo: i64, hi: i64) -> Result<SetValue, AllocError>
        requires { (hi -ℤ lo) <ℤ pos 65536 }
        ensures ascending { IfOk result IsAscending }
        ensures members { IfOk result (λ set. (x : ℤ) → Has set x ↔ ((lo ≤ℤ x) × (x ≤ℤ hi))) }
        ensures exact { IfOk result (λ set. set ≡ integers_between lo hi) }
    {
        let mut elements = Vec::new(alloc);
        let count = count_between(lo, hi);
        for offset in 0..count {
            elements.push(lo + i64::from(offset))?;
        }
        Ok(SetValue { elements })
    }

    /// An equal set, with memory of its own.
    pub fn copy(&self, alloc: Global) -> Result<SetValue, AllocError>
        ensures { IfOk result (λ copy. copy ≡ self.now) }
    {
        let elements = Vec::from_slice(alloc, self.elements.as_slice())?;
        Ok(SetValue { elements })
    }

    /// The set with one more element, which is below all others.
    pub(crate) fn with_least(&self, alloc: Global, least: i64) -> Result<SetValue, AllocError>
        requires { IsAscending (least ∷ self.now) }
        ensures { IfOk result (λ set. set ≡ least ∷ self.now) }
    {
        let mut elements = Vec::new(alloc);
        elements.push(least)?;
        elements.extend_from_slice(self.elements.as_slice())?;
        Ok(SetValue { elements })
    }

    /// The elements, ascending.
    pub fn elements(&self) -> &[i64]
        ensures same { result.now ≡ self.now }
        ensures ascending { IsAscending result.now }
    {
        self.elements.as_slice()
    }

    /// Whether `x` is an element, by binary search.
    pub fn has(&self, x: i64) -> bool
        ensures { IsTrue result ↔ Has self.now x }
    {
        match self.elements.binary_search(&x) {
            Ok(_) => true,
            Err(_) => false,
        }
    }

    /// Whether both have the same elements.
    pub(crate) fn is_equal(&self, other: &SetValue) -> bool
        ensures { IsTrue result ↔ (self.now ≡ other.now) }
    {
        self.elements() == other.elements()
    }

    /// Whether this comes before `other` in the lexicographic order of their ascending lists. A proper prefix comes
    /// before.
    pub(crate) fn is_before(&self, other: &SetValue) -> bool
        ensures { IsTrue result ↔ IsBefore self.now other.now }
    {
        self.elements() < other.elements()
    }

    /// Whether each element is one of `other`.
    pub fn is_subset(&self, other: &SetValue) -> bool
        ensures { IsTrue result ↔ IsSubset self.now other.now }
    {
        all_in(self.elements(), other)
    }

    /// Whether the elements are just those that the operation gives on `a` and `b`.
    pub(crate) fn is_result_of(&self, operation: SetOperation, a: &SetValue, b: &SetValue) -> bool
        ensures { IsTrue result ↔ IsSetResult operation a.now b.now self.now }
    {
        if !all_agree(a.elements(), self, operation, a, b) {
            return false;
        }
        if !all_agree(b.elements(), self, operation, a, b) {
            return false;
        }
        all_agree(self.elements(), self, operation, a, b)
    }
}

/// An operation on two sets.
#[derive(Clone, Copy)]
pub(crate) enum SetOperation {
    /// What is in either.
    Union,
    /// What is in both.
    Intersection,
    /// What is in the first and not in the second.
    Difference,
    /// What is in just one.
    SymmetricDifference,
}

impl SetOperation {
    /// Whether the operation gives `x` on `a` and `b`.
    #[tactic(auto, unfolding(crate::specs::Sets::EitherHas, crate::specs::Sets::BothHave, crate::specs::Sets::OnlyFirstHas, crate::specs::Sets::JustOneHas))]
    fn gives(self, a: &SetValue, b: &SetValue, x: i64) -> bool
        ensures { IsTrue result ↔ ResultHas self a.now b.now x }
    {
        match self {
            SetOperation::Union => a.has(x) || b.has(x),
            SetOperation::Intersection => a.has(x) && b.has(x),
            SetOperation::Difference => a.has(x) && !b.has(x),
            SetOperation::SymmetricDifference => a.has(x) != b.has(x),
        }
    }
}

fn all_in(items: &[i64], set: &SetValue) -> bool
    ensures { IsTrue result ↔ All (Has set.now) items.now }
{
    items.iter().all(|x| set.has(*x))
}

fn all_agree(
    items: &[i64],
    set: &SetValue,
    operation: SetOperation,
    a: &SetValue,
    b: &SetValue,
) -> bool
    ensures { IsTrue result ↔ All (AgreesAt operation a.now b.now set.now) items.now }
{
    items.iter().all(|x| agrees(*x, set, operation, a, b))
}

#[tactic(auto, unfolding(crate::specs::Operations::AgreesAt))]
/// Whether the set has `x` just where the operation gives it on `a` and `b`.
fn agrees(x: i64, set: &SetValue, operation: SetOperation, a: &SetValue, b: &SetValue) -> bool
    ensures { IsTrue result ↔ AgreesAt operation a.now b.now set.now x }
{
    set.has(x) == operation.gives(a, b, x)
}

/// How many integers there are from `lo` to `hi`, both included.
fn count_between(lo: i64, hi: i64) -> u32
    requires { (hi -ℤ lo) <ℤ pos 65536 }
    ensures { result ≡ count_between lo hi }
{
    if hi < lo { 0 } else { (hi - lo + 1) as u32 }
}
