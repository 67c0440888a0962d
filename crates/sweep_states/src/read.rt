//! Bits that are read in every way that a filter lets through.
ghost use Rattle.std.specs.Prelude.{◌≡◌, ◌↔◌, ◌⊎◌, ◌+◌, ◌<◌, ◌≤◌, ◌^◌, true, false, Bool, List, [], ◌∷◌, ◌++◌, IfOk, OnOk, Contains};
ghost use Rattle.sweep_states.specs.Sweeps.{Each, Filtered, IsDeadPair, LeadsTo, SomeEnds, SomePasses, step_both};

use crate::states::make_distinct;
use std::alloc::{AllocError, Global};
use sweep_rules::Shape;

/// A state of a shape beside a state of a filter.
type Pair<S, T> = (<S as Shape>::State, <T as Shape>::State);

/// The states to which a shape comes from some of the states by any bits that the filter lets through, each once; states that can no
/// longer accept may be left out. The shape reads from place `from` on, the filter all of its `count` bits. Time is of the order of the
/// bits times the pairs of states that occur beside each other, and their logarithm. An `Err` is want of memory.
pub fn read_through<S: Shape, T: Shape>(
    alloc: Global,
    shape: &S,
    from: usize,
    filter: &T,
    count: usize,
    states: &[S::State],
) -> Result<Vec<S::State>, AllocError>
    requires shape { S.valid shape.now }
    requires filter { T.valid filter.now }
    requires count { T.places filter.now ≡ count }
    requires within { from + count ≤ S.places shape.now }
    requires small { from + count < 2 ^ 63 }
    requires occur { Each (S.occurs shape.now from) states.now }
    ensures occur { IfOk result (λ ends. Each (S.occurs shape.now (from + count)) ends.items) }
    ensures leads { IfOk result (λ ends. (rest : List Bool) → SomePasses (record { rules = S.rules shape.now; from = from; filter = T.rules filter.now }) count rest states.now
        ↔ SomeEnds (S.rules shape.now) (from + count) rest ends.items) }
{
    let mut pairs = begin(alloc, shape, from, filter, states)?;
    for i in 0..count {
        pairs = advance(alloc, shape, from, filter, i, pairs.as_slice())?;
    }
    let ends = finish(alloc, shape, from, filter, count, pairs.as_slice())?;
    Ok(ends)
}

/// Each state beside the filter's start.
fn begin<S: Shape, T: Shape>(
    alloc: Global,
    shape: &S,
    from: usize,
    filter: &T,
    states: &[S::State],
) -> Result<Vec<Pair<S, T>>, AllocError>
    requires filter { T.valid filter.now }
    requires occur { Each (S.occurs shape.now from) states.now }
    ensures occur { IfOk result (λ pairs. Each (λ s. S.occurs shape.now from s.0 × T.occurs filter.now 0 s.1) pairs.items) }
    ensures only { IfOk result (λ pairs. Each (λ s. Contains states.now s.0 × (s.1 ≡ (T.rules filter.now).start)) pairs.items) }
    ensures every { IfOk result (λ pairs. Each (λ q. Contains pairs.items (q, (T.rules filter.now).start)) states.now) }
{
    let first = filter.start();
    let mut pairs = Vec::new(alloc);
    for state in states {
        pairs.push((*state, first))?;
    }
    Ok(pairs)
}

/// The pairs of states after one more bit, each once.
fn advance<S: Shape, T: Shape>(
    alloc: Global,
    shape: &S,
    from: usize,
    filter: &T,
    i: usize,
    pairs: &[Pair<S, T>],
) -> Result<Vec<Pair<S, T>>, AllocError>
    requires shape { S.valid shape.now }
    requires filter { T.valid filter.now }
    requires within { from + i < S.places shape.now }
    requires small { from + i < 2 ^ 63 }
    requires within_filter { i < T.places filter.now }
    requires occur { Each (λ s. S.occurs shape.now (from + i) s.0 × T.occurs filter.now i s.1) pairs.now }
    ensures occur { IfOk result (λ next. Each (λ s. S.occurs shape.now (from + (i + 1)) s.0 × T.occurs filter.now (i + 1) s.1) next.items) }
    ensures leads { IfOk result (λ next. LeadsTo (record { rules = S.rules shape.now; from = from; filter = T.rules filter.now }) i pairs.now next.items) }
{
    let mut next = Vec::new(alloc);
    for pair in pairs {
        push_step(&mut next, shape, from, filter, i, *pair, false)?;
        push_step(&mut next, shape, from, filter, i, *pair, true)?;
    }
    make_distinct(&mut next);
    Ok(next)
}

/// Appends the pair to which the bit leads, unless it can no longer accept.
fn push_step<S: Shape, T: Shape>(
    next: &mut Vec<Pair<S, T>>,
    shape: &S,
    from: usize,
    filter: &T,
    i: usize,
    pair: Pair<S, T>,
    bit: bool,
) -> Result<(), AllocError>
    requires shape { S.valid shape.now }
    requires filter { T.valid filter.now }
    requires within { from + i < S.places shape.now }
    requires small { from + i < 2 ^ 63 }
    requires within_filter { i < T.places filter.now }
    requires occurs { S.occurs shape.now (from + i) pair.0 }
    requires occurs_filter { T.occurs filter.now i pair.1 }
    ensures pushed { let f : Filtered S.State T.State = record { rules = S.rules shape.now; from = from; filter = T.rules filter.now } in let after = step_both f i pair bit in
        OnOk result ((next.new.items ≡ next.old.items ++ after ∷ []) ⊎ ((next.new.items ≡ next.old.items) × IsDeadPair f after)) }
    ensures occurs { S.occurs shape.now (from + i + 1) ((S.rules shape.now).step (from + i) pair.0 bit) }
    ensures occurs_filter { T.occurs filter.now (i + 1) ((T.rules filter.now).step i pair.1 bit) }
{
    let (state, passing) = pair;
    let state = shape.step(from + i, state, bit);
    let passing = filter.step(i, passing, bit);
    if shape.is_lost(state) {
        return Ok(());
    }
    if filter.is_lost(passing) {
        return Ok(());
    }
    next.push((state, passing))?;
    Ok(())
}

/// The shape's states beside which the filter accepts, each once.
fn finish<S: Shape, T: Shape>(
    alloc: Global,
    shape: &S,
    from: usize,
    filter: &T,
    count: usize,
    pairs: &[Pair<S, T>],
) -> Result<Vec<S::State>, AllocError>
    requires filter { T.valid filter.now }
    requires count { T.places filter.now ≡ count }
    requires occur { Each (λ s. S.occurs shape.now (from + count) s.0 × T.occurs filter.now count s.1) pairs.now }
    ensures occur { IfOk result (λ ends. Each (S.occurs shape.now (from + count)) ends.items) }
    ensures only { IfOk result (λ ends. Each (λ q. (t : T.State) × Contains {X = S.State × T.State} pairs.now (q, t) × ((T.rules filter.now).accept t ≡ true)) ends.items) }
    ensures every { IfOk result (λ ends. Each (λ s. (T.rules filter.now).accept s.1 ≡ true → Contains ends.items s.0) pairs.now) }
{
    let mut ends = Vec::new(alloc);
    for pair in pairs {
        push_end(&mut ends, filter, count, *pair)?;
    }
    make_distinct(&mut ends);
    Ok(ends)
}

/// Appends the shape's state, if the filter accepts.
fn push_end<P: Copy, T: Shape>(
    ends: &mut Vec<P>,
    filter: &T,
    count: usize,
    pair: (P, T::State),
) -> Result<(), AllocError>
    requires filter { T.valid filter.now }
    requires count { T.places filter.now ≡ count }
    requires occurs { T.occurs filter.now count pair.1 }
    ensures taken { OnOk result ((T.rules filter.now).accept pair.1 ≡ true → ends.new.items ≡ ends.old.items ++ pair.0 ∷ []) }
    ensures left { OnOk result ((T.rules filter.now).accept pair.1 ≡ false → ends.new.items ≡ ends.old.items) }
{
    let (state, passing) = pair;
    if filter.accepts(passing) {
        ends.push(state)?;
    }
    Ok(())
}
