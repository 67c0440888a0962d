//! A set, a Boolean, an integer with holes, one with one value and one with all values from 0 to 4; and tables of their own.
ghost use Rattle.std.specs.Prelude.{◌≡◌, ◌<◌, ◌≤◌, ◌^◌, IfOk, All, length};
ghost use Rattle.std.specs.List.Sorted.{IsStrictlyIncreasing};
ghost use Rattle.bit_machine.specs.Rules.{most_bits};
ghost use Rattle.diagram_arena.specs.Table.{IsLive};
ghost use Rattle.diagram_arena.specs.Arena.{table};
ghost use Rattle.table_machine.specs.Marked.{marks_in};

use crate::samples::{ints, layout_of, listed, problem, sets, word};
use bit_layout::Layout;
use bit_machine::build;
use diagram_arena::{Ref, Stop};
use diagram_ops::Ops;
use scope_words::scope_bits;
use set_meaning::{Kind, VarId};
use std::alloc::{AllocError, Global};
use std::test::Fail;
use table_machine::TableMachine;

fn kinds(alloc: Global) -> Result<Vec<Kind>, AllocError>
    ensures five { IfOk result (λ kinds. length kinds.items ≡ 5) }
{
    let odd = sets(alloc, [1, 3].as_slice())?;
    let with_holes = ints(alloc, [3, -2, 0].as_slice())?;
    let seven = ints(alloc, [7].as_slice())?;
    let to_four = ints(alloc, [0, 1, 2, 3, 4].as_slice())?;
    let kinds = vec![in alloc; odd, Kind::Bool, with_holes, seven, to_four]?;
    Ok(kinds)
}

/// The diagram of the words of initial values of these variables.
fn initial_diagram(
    alloc: Global,
    ops: &mut Ops,
    layout: &Layout,
    kinds: &[Kind],
    scope: &[VarId],
) -> Result<Ref, Stop>
    requires kinds { layout.now.kinds ≡ kinds.now }
    requires known { All (λ v. v.0 < length layout.now.kinds) scope.now }
{
    let bits = scope_bits(alloc, layout, scope)?;
    if bits.len() > 2048 {
        return Err(Stop::Memory);
    }
    let machine = TableMachine::initial_values(alloc, layout, kinds, bits.as_slice())?;
    build(alloc, ops, &machine, bits.as_slice())
}

/// The diagram over these bits of the words that are listed at the marked ones.
fn listed_diagram(
    alloc: Global,
    ops: &mut Ops,
    bits: &[u32],
    words: Vec<u64>,
    marks: &[bool],
) -> Result<Ref, Stop>
    requires ascend { IsStrictlyIncreasing bits.now }
    requires few { length bits.now ≤ most_bits }
    requires long { length bits.now ≡ length marks.now }
    requires marks { marks_in marks.now ≤ 64 }
    requires below { All (λ n. n < 2 ^ marks_in marks.now) words.items }
{
    let machine = TableMachine::one_of(alloc, words, marks)?;
    build(alloc, ops, &machine, bits)
}

const F: bool = false;

const T: bool = true;

/// Bits 1 to 3 are those of -2, 0 and 3, whose offsets are 0, 2 and 5: two nodes of bit 3, one of bit 2, one of bit 1.
#[test]
fn reads_a_domain_with_holes(rt: HostRuntime) -> Result<(), Fail> {
    let alloc = rt.alloc();
    let p = problem(alloc, kinds(alloc)?);
    let layout = layout_of(alloc, &p)?;
    let mut ops = Ops::new(alloc, 100, 1)?;
    let values = initial_diagram(alloc, &mut ops, &layout, p.kinds.items(), &[VarId(2)])?;
    assert_eq!(rt; ops.pool().arena().len(), 4);
    let words: [&[bool]; 3] = [&[F, F, F], &[F, T, F], &[T, F, T]];
    assert_eq!(rt; listed(&mut ops, &[1, 2, 3], &words), Ok(values));
    Ok(())
}

/// Bits 4 to 6 are those of 0 to 4: a node a bit. Beside the set, the Boolean and the integer of one value nothing is asked.
#[test]
fn reads_a_range_and_passes_over_others(rt: HostRuntime) -> Result<(), Fail> {
    let alloc = rt.alloc();
    let p = problem(alloc, kinds(alloc)?);
    let layout = layout_of(alloc, &p)?;
    let mut ops = Ops::new(alloc, 100, 1)?;
    let scope = [VarId(4), VarId(0), VarId(3), VarId(1)];
    let values = initial_diagram(alloc, &mut ops, &layout, p.kinds.items(), &scope)?;
    assert_eq!(rt; ops.pool().arena().len(), 3);
    let words: [&[bool]; 5] = [&[F, F, F], &[F, F, T], &[F, T, F], &[F, T, T], &[T, F, F]];
    assert_eq!(rt; listed(&mut ops, &[4, 5, 6], &words), Ok(values));
    Ok(())
}

/// 2, 5 and 0 at the first, second and fourth of four bits.
#[test]
fn reads_a_table_at_marked_places(rt: HostRuntime) -> Result<(), Fail> {
    let alloc = rt.alloc();
    let mut ops = Ops::new(alloc, 100, 1)?;
    let table = vec![in alloc; 2, 5, 0, 2]?;
    let values = listed_diagram(alloc, &mut ops, &[3, 4, 7, 9], table, &[T, T, F, T])?;
    let words: [&[bool]; 3] = [&[F, T, F], &[T, F, T], &[F, F, F]];
    assert_eq!(rt; listed(&mut ops, &[3, 4, 9], &words), Ok(values));
    Ok(())
}

/// With no place marked the one word is 0.
#[test]
fn reads_a_table_of_no_bits(rt: HostRuntime) -> Result<(), Fail> {
    let alloc = rt.alloc();
    let mut ops = Ops::new(alloc, 1, 1)?;
    let none = listed_diagram(alloc, &mut ops, &[5], Vec::new(alloc), &[F])?;
    assert_eq!(rt; none, Ref::Zero);
    let some = listed_diagram(alloc, &mut ops, &[5], vec![in alloc; 0]?, &[F])?;
    assert_eq!(rt; some, Ref::One);
    Ok(())
}
