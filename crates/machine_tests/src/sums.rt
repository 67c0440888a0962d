//! Sums of a few weights against words listed by hand, and sizes of diagrams that are known.
ghost use Rattle.std.specs.Prelude.{◌≡◌, ◌≤◌, length, IfOk};
ghost use Rattle.std.specs.List.Sorted.{IsStrictlyIncreasing};
ghost use Rattle.diagram_arena.specs.Table.{IsLive};
ghost use Rattle.diagram_arena.specs.Arena.{table};
ghost use Rattle.bit_machine.specs.Rules.{most_bits};
ghost use Rattle.linear_machine.specs.Sums.{IsSmall};

use crate::samples::{bits, listed, word};
use bit_machine::build;
use diagram_arena::{Ref, Stop};
use diagram_ops::Ops;
use linear_machine::{Comparison, Linear};
use std::alloc::{AllocError, Global};
use std::test::Fail;

/// The diagram of the words for which the sum compares so with 0.
fn built(
    alloc: Global,
    ops: &mut Ops,
    weights: &[i128],
    constant: i128,
    comparison: Comparison,
) -> Result<Ref, Stop>
    requires small { IsSmall weights.now constant }
    requires few { length weights.now ≤ most_bits }
{
    let bits = bits(alloc, weights.len() as u32)?;
    let machine = Linear::new(alloc, weights, constant, comparison)?;
    build(alloc, ops, &machine, &bits)
}

const F: bool = false;

const T: bool = true;

/// Twice the first bit against the other two.
#[test]
fn compares_small_sums(rt: HostRuntime) -> Result<(), Fail> {
    let alloc = rt.alloc();
    let mut ops = Ops::new(alloc, 100, 1)?;
    let bits = bits(alloc, 3)?;
    let weights: [i128; 3] = [2, -1, -1];
    let equal = built(alloc, &mut ops, &weights, 0, Comparison::Equal)?;
    assert_eq!(rt;
        listed(&mut ops, &bits, &[&[F, F, F], &[T, T, T]]),
        Ok(equal)
    );
    let different = built(alloc, &mut ops, &weights, 0, Comparison::Different)?;
    let words: [&[bool]; 6] = [
        &[F, F, T],
        &[F, T, F],
        &[F, T, T],
        &[T, F, F],
        &[T, F, T],
        &[T, T, F],
    ];
    assert_eq!(rt; listed(&mut ops, &bits, &words), Ok(different));
    let at_most = built(alloc, &mut ops, &weights, 0, Comparison::AtMost)?;
    let words: [&[bool]; 5] = [&[F, F, F], &[F, F, T], &[F, T, F], &[F, T, T], &[T, T, T]];
    assert_eq!(rt; listed(&mut ops, &bits, &words), Ok(at_most));
    Ok(())
}

/// The constant counts: of two bits exactly one, none of three, all of four; and with no bit at all.
#[test]
fn adds_the_constant(rt: HostRuntime) -> Result<(), Fail> {
    let alloc = rt.alloc();
    let mut ops = Ops::new(alloc, 100, 1)?;
    let bits = bits(alloc, 2)?;
    let one = built(alloc, &mut ops, &[1, 1], -1, Comparison::Equal)?;
    assert_eq!(rt; listed(&mut ops, &bits, &[&[F, T], &[T, F]]), Ok(one));
    assert_eq!(rt;
        built(alloc, &mut ops, &[1, 1], 1, Comparison::Equal),
        Ok(Ref::Zero)
    );
    assert_eq!(rt;
        built(alloc, &mut ops, &[1, 1], -2, Comparison::AtMost),
        Ok(Ref::One)
    );
    assert_eq!(rt;
        built(alloc, &mut ops, &[], 0, Comparison::AtMost),
        Ok(Ref::One)
    );
    assert_eq!(rt;
        built(alloc, &mut ops, &[], 1, Comparison::AtMost),
        Ok(Ref::Zero)
    );
    assert_eq!(rt;
        built(alloc, &mut ops, &[], -5, Comparison::Different),
        Ok(Ref::One)
    );
    Ok(())
}

/// A clause of 200 literals has a node for each.
#[test]
fn builds_a_clause(rt: HostRuntime) -> Result<(), Fail> {
    let alloc = rt.alloc();
    let mut ops = Ops::new(alloc, 1_000, 1)?;
    let weights: [i128; 200] = [-1; 200];
    built(alloc, &mut ops, &weights, 1, Comparison::AtMost)?;
    assert_eq!(rt; ops.pool().arena().len(), 200);
    Ok(())
}

/// Two integers of ten bits each, the first at most the second: 2^10 - 1 nodes ask the first, and those that ask the second
/// with m of its bits to come are 2^m - 1.
#[test]
fn builds_a_comparison(rt: HostRuntime) -> Result<(), Fail> {
    let alloc = rt.alloc();
    let mut ops = Ops::new(alloc, 10_000, 1)?;
    let weights: [i128; 20] = [
        512, 256, 128, 64, 32, 16, 8, 4, 2, 1, -512, -256, -128, -64, -32, -16, -8, -4, -2, -1,
    ];
    built(alloc, &mut ops, &weights, 0, Comparison::AtMost)?;
    assert_eq!(rt; ops.pool().arena().len(), 3_059);
    Ok(())
}
