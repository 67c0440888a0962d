//! Choices of small machines against words listed by hand.
ghost use Rattle.std.specs.Prelude.{◌≡◌, ◌+◌, ◌<◌, ◌≤◌, ◌==◌, ◌&&◌, pos, [], ◌∷◌, length, All, IfOk, if◌then◌else◌};
ghost use Rattle.std.proofs.lemmas.Bool.{eqb-true};
ghost use Rattle.std.specs.List.Sorted.{IsStrictlyIncreasing};
ghost use Rattle.diagram_arena.specs.declared.nodes.Ref.{Ref};
ghost use Rattle.diagram_arena.specs.Table.{IsLive};
ghost use Rattle.diagram_arena.specs.Arena.{table};
ghost use Rattle.bit_machine.specs.Rules.{most_bits};
ghost use Rattle.linear_machine.specs.Sums.{IsSmall};
ghost use Rattle.table_machine.specs.Tables.{AreTables};

use crate::samples::{bits, listed, word};
use bit_machine::{Both, Machine, build};
use choice_machine::{Losing, choice_of};
use diagram_arena::{Ref, Stop};
use diagram_ops::Ops;
use linear_machine::{Comparison, Linear};
use std::alloc::{AllocError, Global};
use std::test::Fail;
use table_machine::TableMachine;

/// The diagram of the words that one of the machines accepts.
fn choice<M: Losing>(
    alloc: Global,
    ops: &mut Ops,
    machines: &[M],
    bits: &[u32],
) -> Result<Ref, Stop>
    requires valid { All M.valid machines.now }
    requires places { All (λ m. length bits.now ≤ M.places m) machines.now }
    requires ascend { IsStrictlyIncreasing bits.now }
    requires few { length bits.now ≤ most_bits }
{
    let machine = choice_of(alloc, machines, bits.len())?;
    build(alloc, ops, &machine, bits)
}

/// The machine of the words with this sum.
fn sum(alloc: Global, weights: &[i128], constant: i128) -> Result<Linear, AllocError>
    requires { IsSmall weights.now constant }
    ensures { IfOk result (λ m. length m.weights ≡ length weights.now) }
{
    Linear::new(alloc, weights, constant, Comparison::Equal)
}

/// The diagram of the words with the one sum or the other.
fn either_sum(
    alloc: Global,
    ops: &mut Ops,
    bits: &[u32],
    weights: &[i128],
    first: i128,
    second: i128,
) -> Result<Ref, Stop>
    requires first { IsSmall weights.now first }
    requires second { IsSmall weights.now second }
    requires long { length weights.now ≡ length bits.now }
    requires ascend { IsStrictlyIncreasing bits.now }
    requires few { length bits.now ≤ most_bits }
{
    let first = sum(alloc, weights, first)?;
    let second = sum(alloc, weights, second)?;
    choice(alloc, ops, &[first, second], bits)
}

/// The machine "the index is so, and the item is the last bit": the first two bits are the index in binary.
fn indexed(alloc: Global, index: i128, item: &[i128]) -> Result<Both<Linear, Linear>, AllocError>
    requires index { IsSmall (pos 2 ∷ pos 1 ∷ pos 0 ∷ pos 0 ∷ pos 0 ∷ []) index }
    requires item { IsSmall item.now (pos 0) }
    requires long { length item.now ≡ 5 }
    ensures { IfOk result (λ m. (length m.first.weights ≡ 5) × (length m.second.weights ≡ 5)) }
{
    let first = sum(alloc, &[2, 1, 0, 0, 0], index)?;
    let second = sum(alloc, item, 0)?;
    Ok(Both { first, second })
}

/// The diagram of "item i is the last bit", where the first two bits are the index i in binary, and the next two the items 1 and 2.
fn element(alloc: Global, ops: &mut Ops, bits: &[u32]) -> Result<Ref, Stop>
    requires long { length bits.now ≡ 5 }
    requires ascend { IsStrictlyIncreasing bits.now }
{
    let first = indexed(alloc, -1, &[0, 0, 1, 0, -1])?;
    let second = indexed(alloc, -2, &[0, 0, 0, 1, -1])?;
    choice(alloc, ops, &[first, second], bits)
}

/// The machine of the words of three bits that are one of these two numbers.
fn listed_numbers(alloc: Global, first: u64, second: u64) -> Result<TableMachine, AllocError>
    requires first { first < 8 }
    requires second { second < 8 }
    ensures valid { IfOk result AreTables }
    ensures places { IfOk result (λ m. length m.readings ≡ 3) }
{
    let words = vec![in alloc; first, second]?;
    TableMachine::one_of(alloc, words, &[true, true, true])
}

/// The diagram of the words of three bits that one of two tables lists.
fn either_table(alloc: Global, ops: &mut Ops, bits: &[u32]) -> Result<Ref, Stop>
    requires long { length bits.now ≡ 3 }
    requires ascend { IsStrictlyIncreasing bits.now }
{
    let first = listed_numbers(alloc, 1, 2)?;
    let second = listed_numbers(alloc, 2, 5)?;
    choice(alloc, ops, &[first, second], bits)
}

const F: bool = false;

const T: bool = true;

/// Two true bits of three, or the number of true bits, each counted once, is 0: 011, 101, 110 and 000.
#[test]
fn chooses_a_sum(rt: HostRuntime) -> Result<(), Fail> {
    let alloc = rt.alloc();
    let mut ops = Ops::new(alloc, 100, 1)?;
    let either = either_sum(alloc, &mut ops, &[2, 3, 5], &[1, 1, 1], -2, 0)?;
    let words: [&[bool]; 4] = [&[F, T, T], &[T, F, T], &[T, T, F], &[F, F, F]];
    assert_eq!(rt; listed(&mut ops, &[2, 3, 5], &words), Ok(either));
    Ok(())
}

/// Index 1 with equal first item and last bit, or index 2 with equal second item and last bit. An index of 0 or 3 has no item.
#[test]
fn chooses_an_item(rt: HostRuntime) -> Result<(), Fail> {
    let alloc = rt.alloc();
    let mut ops = Ops::new(alloc, 100, 1)?;
    let chosen = element(alloc, &mut ops, &[0, 1, 2, 3, 4])?;
    let words: [&[bool]; 8] = [
        &[F, T, F, F, F],
        &[F, T, F, T, F],
        &[F, T, T, F, T],
        &[F, T, T, T, T],
        &[T, F, F, F, F],
        &[T, F, F, T, T],
        &[T, F, T, F, F],
        &[T, F, T, T, T],
    ];
    assert_eq!(rt; listed(&mut ops, &[0, 1, 2, 3, 4], &words), Ok(chosen));
    Ok(())
}

/// 1 and 2, or 2 and 5.
#[test]
fn chooses_a_table(rt: HostRuntime) -> Result<(), Fail> {
    let alloc = rt.alloc();
    let mut ops = Ops::new(alloc, 100, 1)?;
    let either = either_table(alloc, &mut ops, &[1, 4, 6])?;
    let words: [&[bool]; 3] = [&[F, F, T], &[F, T, F], &[T, F, T]];
    assert_eq!(rt; listed(&mut ops, &[1, 4, 6], &words), Ok(either));
    Ok(())
}

/// With no bit the constants decide. With no machine nothing is accepted.
#[test]
fn chooses_with_nothing_to_read(rt: HostRuntime) -> Result<(), Fail> {
    let alloc = rt.alloc();
    let mut ops = Ops::new(alloc, 10, 1)?;
    assert_eq!(rt; either_sum(alloc, &mut ops, &[], &[], 3, 0), Ok(Ref::One));
    assert_eq!(rt; either_sum(alloc, &mut ops, &[], &[], 3, 1), Ok(Ref::Zero));
    let none: [Linear; 0] = [];
    assert_eq!(rt; choice(alloc, &mut ops, &none, &[1, 2]), Ok(Ref::Zero));
    Ok(())
}

/// A branch of many: of the first thousand bits that at its place is the first true one, and a thousand places on there is one more. The state
/// is 0 before the first, 1 after it, 2 once all is lost, and 3 where the other was read.
#[derive(Clone, Copy, Drop)]
struct Branch {
    place: usize,
}

impl Machine for Branch {
    type State = u8;

    ghost rules = { λ b. record { start = 0; step = λ at q v. if q == 2 then 2 else (if q == 0 then (if at == b.place then (if v then 1 else 2) else (if v then 2 else 0)) else (if (at == 1000 + b.place) && v then 3 else q)); accept = λ q. q == 3 } };

    ghost places = { λ _. most_bits };

    ghost valid = { λ b. b.place < 1000 };

    ghost occurs = { λ _ _ _. Unit {0} };

    ghost identical = { eqb-true };

    fn start(&self) -> u8 {
        0
    }

    fn step(&self, at: usize, state: u8, value: bool) -> u8 {
        if state == 2 {
            2
        } else if state == 0 {
            if at == self.place {
                if value { 1 } else { 2 }
            } else {
                if value { 2 } else { 0 }
            }
        } else {
            if at == 1000 + self.place && value {
                3
            } else {
                state
            }
        }
    }

    fn accepts(&self, state: u8) -> bool {
        state == 3
    }
}

impl Losing for Branch {
    fn is_lost(&self, _at: usize, state: u8) -> bool {
        state == 2
    }
}

/// A thousand branches. Each of the first thousand bits has a node, and so has each of the others. It would not end in time if a machine that is
/// lost were run on: it has a thousand joint states at each of the last places, each of one branch.
#[test]
fn drops_what_is_lost(rt: HostRuntime) -> Result<(), Fail> {
    let alloc = rt.alloc();
    let mut ops = Ops::new(alloc, 5_000, 1)?;
    let bits = bits(alloc, 2_000)?;
    let branches = branches(alloc)?;
    choice(alloc, &mut ops, &branches, &bits)?;
    assert_eq!(rt; ops.pool().arena().len(), 2_000);
    Ok(())
}

fn branches(alloc: Global) -> Result<Vec<Branch>, AllocError>
    ensures { IfOk result (λ branches. All (λ b. b.place < 1000) branches.items) }
{
    let mut branches = Vec::new(alloc);
    for place in 0..1_000 {
        branches.push(Branch { place })?;
    }
    Ok(branches)
}

/// Two sums of 200 bits that are 100 and 50. The nodes are the sums that can still be met, counted by a table outside; it would not end if equal
/// joint states did not meet.
#[test]
fn lets_equal_states_meet(rt: HostRuntime) -> Result<(), Fail> {
    let alloc = rt.alloc();
    let mut ops = Ops::new(alloc, 20_000, 1)?;
    let bits = bits(alloc, 200)?;
    let weights: [i128; 200] = [1; 200];
    either_sum(alloc, &mut ops, &bits, &weights, -100, -50)?;
    assert_eq!(rt; ops.pool().arena().len(), 10_250);
    Ok(())
}
