ghost use Rattle.std.specs.Prelude.{◌≡◌, ℕ, ◌+◌, ◌*◌, ◌%◌, ◌<◌, ◌≤◌, ◌==◌, Bool, true, false, not, ◌&&◌, ◌||◌, length, slice_index_or, IfOk, if◌then◌else◌, slice_index};
ghost use Rattle.std.specs.List.Sorted.{IsStrictlyIncreasing};
ghost use Rattle.std.proofs.lemmas.Bool.{eqb-true};
ghost use Rattle.diagram_arena.specs.declared.nodes.Ref.{Ref};
ghost use Rattle.diagram_arena.specs.Table.{IsLive};
ghost use Rattle.diagram_arena.specs.Arena.{table};
ghost use Rattle.bit_machine.specs.Rules.{most_bits};
ghost use Rattle.bit_machine.specs.Comparisons.{beq, pair_true, beq-true};

use crate::samples::{bits, listed, word};
use bit_machine::{Alike, Both, Machine, Not, OneBit, build};
use diagram_arena::{Ref, Stop};
use diagram_ops::Ops;
use std::alloc::{AllocError, Global};
use std::test::Fail;

/// Accepts where exactly two bits are true. It counts up to three.
#[derive(Clone, Copy, Drop)]
struct ExactlyTwo;

impl Machine for ExactlyTwo {
    type State = u8;

    ghost rules = { λ _. record { start = 0; step = λ _ q v. if v then (if q == 3 then 3 else q + 1) else q; accept = λ q. q == 2 } };

    ghost places = { λ _. most_bits };

    ghost valid = { λ _. Unit {0} };

    ghost occurs = { λ _ _ q. q ≤ 3 };

    ghost identical = { eqb-true };

    fn start(&self) -> u8 {
        0
    }

    fn step(&self, _at: usize, state: u8, value: bool) -> u8 {
        if value {
            if state == 3 { 3 } else { state + 1 }
        } else {
            state
        }
    }

    fn accepts(&self, state: u8) -> bool {
        state == 2
    }
}

/// Accepts where the bits at places 0 and 1 are equal, those at 2 and 3, and so on. A state is whether all were
/// so far, and the bit that is to be compared.
#[derive(Clone, Copy, Drop)]
struct EqualPairs;

impl Machine for EqualPairs {
    type State = (bool, bool);

    ghost rules = { λ _. record { start = (true, false); step = λ at q v. if at % 2 == 0 then (q.0, q.0 && v) else (q.0 && beq q.1 v, false); accept = λ q. q.0 } };

    ghost places = { λ _. most_bits };

    ghost valid = { λ _. Unit {0} };

    ghost occurs = { λ _ _ _. Unit {0} };

    ghost identical = { pair_true beq beq beq-true beq-true };

    fn start(&self) -> (bool, bool) {
        (true, false)
    }

    fn step(&self, at: usize, state: (bool, bool), value: bool) -> (bool, bool) {
        let (equal, first) = state;
        if at % 2 == 0 {
            (equal, equal && value)
        } else {
            (equal && first == value, false)
        }
    }

    fn accepts(&self, state: (bool, bool)) -> bool {
        state.0
    }
}

/// Accepts where the bits at the marked places are true.
#[derive(Clone, Copy, Drop)]
struct AllOf<'a> {
    marks: &'a [bool],
}

impl<'a> Machine for AllOf<'a> {
    type State = bool;

    ghost rules = { λ m. record { start = true; step = λ at q v. q && (not (slice_index_or m.marks.now at false) || v); accept = λ q. q } };

    ghost places = { λ m. length m.marks.now };

    ghost valid = { λ _. Unit {0} };

    ghost occurs = { λ _ _ _. Unit {0} };

    ghost identical = { beq-true };

    fn start(&self) -> bool {
        true
    }

    fn step(&self, at: usize, state: bool, value: bool) -> bool {
        state && (!self.marks[at] || value)
    }

    fn accepts(&self, state: bool) -> bool {
        state
    }
}

const F: bool = false;

const T: bool = true;

/// 011, 101 and 110: both bits 2, two nodes of bit 1, one of bit 0.
#[test]
fn counts_true_bits(rt: HostRuntime) -> Result<(), Fail> {
    let bits = bits(rt.alloc(), 3)?;
    let mut ops = Ops::new(rt.alloc(), 30, 1)?;
    let two = build(rt.alloc(), &mut ops, &ExactlyTwo, &bits)?;
    assert_eq!(rt; ops.pool().arena().len(), 5);
    assert_eq!(rt;
        listed(&mut ops, &bits, &[&[F, T, T], &[T, F, T], &[T, T, F]]),
        Ok(two)
    );
    Ok(())
}

/// 0000, 0011, 1100 and 1111 in equal pairs, of which 0011 and 1100 have two true bits.
#[test]
fn reads_side_by_side(rt: HostRuntime) -> Result<(), Fail> {
    let bits = bits(rt.alloc(), 4)?;
    let mut ops = Ops::new(rt.alloc(), 50, 1)?;
    let machine = Both {
        first: ExactlyTwo,
        second: EqualPairs,
    };
    let result = build(rt.alloc(), &mut ops, &machine, &bits)?;
    assert_eq!(rt; ops.pool().arena().len(), 7);
    assert_eq!(rt;
        listed(&mut ops, &bits, &[&[F, F, T, T], &[T, T, F, F]]),
        Ok(result)
    );
    Ok(())
}

/// The first bit is true just where the pairs are equal.
#[test]
fn reads_a_truth_value(rt: HostRuntime) -> Result<(), Fail> {
    let bits = bits(rt.alloc(), 4)?;
    let mut ops = Ops::new(rt.alloc(), 200, 1)?;
    let machine = Alike {
        first: OneBit { place: 0 },
        second: EqualPairs,
    };
    let result = build(rt.alloc(), &mut ops, &machine, &bits)?;
    let words: [&[bool]; 8] = [
        &[F, F, F, T],
        &[F, F, T, F],
        &[F, T, F, F],
        &[F, T, F, T],
        &[F, T, T, F],
        &[F, T, T, T],
        &[T, T, F, F],
        &[T, T, T, T],
    ];
    assert_eq!(rt; listed(&mut ops, &bits, &words), Ok(result));
    Ok(())
}

/// All words but 011, 101 and 110.
#[test]
fn accepts_the_complement(rt: HostRuntime) -> Result<(), Fail> {
    let bits = bits(rt.alloc(), 3)?;
    let mut ops = Ops::new(rt.alloc(), 50, 1)?;
    let machine = Not {
        machine: ExactlyTwo,
    };
    let result = build(rt.alloc(), &mut ops, &machine, &bits)?;
    let words: [&[bool]; 5] = [&[F, F, F], &[F, F, T], &[F, T, F], &[T, F, F], &[T, T, T]];
    assert_eq!(rt; listed(&mut ops, &bits, &words), Ok(result));
    Ok(())
}

/// A machine may borrow its table. 101 and 111 have both marked bits, and 111 has not just two.
#[test]
fn reads_by_a_table(rt: HostRuntime) -> Result<(), Fail> {
    let bits = bits(rt.alloc(), 3)?;
    let mut ops = Ops::new(rt.alloc(), 50, 1)?;
    let marks = [true, false, true];
    let machine = Both {
        first: AllOf { marks: &marks },
        second: Not {
            machine: ExactlyTwo,
        },
    };
    let result = build(rt.alloc(), &mut ops, &machine, &bits)?;
    assert_eq!(rt; listed(&mut ops, &bits, &[&[T, T, T]]), Ok(result));
    Ok(())
}

/// With no bits to read the state at the start decides.
#[test]
fn reads_no_bits(rt: HostRuntime) -> Result<(), Fail> {
    let mut ops = Ops::new(rt.alloc(), 1, 1)?;
    let bits = bits(rt.alloc(), 0)?;
    assert_eq!(rt;
        build(rt.alloc(), &mut ops, &ExactlyTwo, &bits),
        Ok(Ref::Zero)
    );
    assert_eq!(rt;
        build(rt.alloc(), &mut ops, &EqualPairs, &bits),
        Ok(Ref::One)
    );
    Ok(())
}

/// The diagram of exactly two true bits.
fn two_of(alloc: Global, ops: &mut Ops, bits: &[u32]) -> Result<Ref, Stop>
    requires ascend { IsStrictlyIncreasing bits.now }
    requires few { length bits.now ≤ most_bits }
{
    build(alloc, ops, &ExactlyTwo, bits)
}

/// The diagram of equal pairs of bits.
fn pairs_of(alloc: Global, ops: &mut Ops, bits: &[u32]) -> Result<Ref, Stop>
    requires ascend { IsStrictlyIncreasing bits.now }
    requires few { length bits.now ≤ most_bits }
{
    build(alloc, ops, &EqualPairs, bits)
}

/// The five nodes of 011, 101 and 110 do not fit four.
#[test]
fn stops_where_the_arena_is_full(rt: HostRuntime) -> Result<(), Fail> {
    let bits = bits(rt.alloc(), 3)?;
    let mut small = Ops::new(rt.alloc(), 4, 1)?;
    assert_eq!(rt; two_of(rt.alloc(), &mut small, &bits), Err(Stop::Full));
    assert_eq!(rt; small.pool().arena().len(), 4);
    Ok(())
}

/// They fit five. What is there is answered in a full arena, also after a refusal.
#[test]
fn answers_what_is_there_in_a_full_arena(rt: HostRuntime) -> Result<(), Fail> {
    let bits = bits(rt.alloc(), 3)?;
    let mut full = Ops::new(rt.alloc(), 5, 1)?;
    let two = two_of(rt.alloc(), &mut full, &bits)?;
    assert_eq!(rt; pairs_of(rt.alloc(), &mut full, &bits), Err(Stop::Full));
    assert_eq!(rt; two_of(rt.alloc(), &mut full, &bits), Ok(two));
    Ok(())
}

/// A scope of the greatest width: three nodes a pair of bits, as many as a chain of equalities has.
#[test]
fn reads_the_widest_scope(rt: HostRuntime) -> Result<(), Fail> {
    let mut ops = Ops::new(rt.alloc(), 10_000, 1)?;
    let bits = bits(rt.alloc(), 2_048)?;
    build(rt.alloc(), &mut ops, &EqualPairs, &bits)?;
    assert_eq!(rt; ops.pool().arena().len(), 3_072);
    Ok(())
}
