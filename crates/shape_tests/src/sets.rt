//! Relations of two sets, variable 0 over 1 and 3, variable 1 over 2 and 3, and of constants. The bits in order are 1 of variable 0, 2 of
//! variable 1, and 3 of both.
ghost use Rattle.std.specs.Prelude.{◌<◌, IfOk};
ghost use Rattle.diagram_arena.specs.declared.nodes.Ref.{Ref};
ghost use Rattle.diagram_arena.specs.Table.{IsLive};
ghost use Rattle.diagram_arena.specs.Arena.{table};

use crate::samples::{Given, layout_of, one_terms, problem, set_diagram, sets};
use diagram_arena::{Ref, Stop};
use diagram_ops::Ops;
use set_meaning::{Kind, Relation};
use set_shapes::is_set_shape;
use std::alloc::{AllocError, Global};
use std::test::Fail;

fn kinds(alloc: Global) -> Result<Vec<Kind>, AllocError> {
    let odd = sets(alloc, &[1, 3])?;
    let late = sets(alloc, &[2, 3])?;
    let kinds = vec![in alloc; odd, late]?;
    Ok(kinds)
}

/// The set of one word of the four bits, which are its binary digits.
fn word_of(ops: &mut Ops, digits: u32) -> Result<Ref, Stop>
    requires { digits < 16 }
    ensures live { IfOk result (IsLive (table ops.new.arena)) }
    ensures keeps { (r : Ref) → IsLive (table ops.old.arena) r → IsLive (table ops.new.arena) r }
{
    let mut word = Ref::One;
    for bit in 0..4_u32 {
        let literal = ops.literal(bit, (digits >> (3 - bit)) % 2 == 1)?;
        word = ops.and(word, literal)?;
    }
    Ok(word)
}

/// The set of the words that the mask has, the first of the sixteen as its highest digit.
pub(crate) fn listed(ops: &mut Ops, mask: u32) -> Result<Ref, Stop> {
    let mut list = Ref::Zero;
    for digits in 0..16_u32 {
        if (mask >> (15 - digits)) % 2 == 1 {
            let word = word_of(ops, digits)?;
            list = ops.or(list, word)?;
        }
    }
    Ok(list)
}

/// The words of the cases' diagrams: x of 1 and 3 is bits 0 and 2, y of 2 and 3 is bits 1 and 3.
#[test]
fn makes_the_words_of_each_relation(rt: HostRuntime) -> Result<(), Fail> {
    let alloc = rt.alloc();
    let p = problem(alloc, kinds(alloc)?)?;
    let layout = layout_of(alloc, &p)?;
    let mut ops = Ops::new(alloc, 1_000, 8)?;
    let x = Given::Variable(0);
    let y = Given::Variable(1);
    let two = Given::Elements(2, 2);
    let three = Given::Elements(3, 5);
    let pair = [x, y];
    let with_constant = [x, three];
    let with_two = [x, two, y];
    let with_three = [x, y, three];
    let twice = [x, x, y];
    let cases = [
        // the empty set, and 3 alone
        (Relation::SetEq, pair.as_slice(), 0b1001000000000000),
        (Relation::SetNe, pair.as_slice(), 0b0110111111111111),
        // no 2, and 3 in y only where it is in x
        (Relation::SetSuperset, pair.as_slice(), 0b1011000010110000),
        // no 1
        (
            Relation::SetSubset,
            with_constant.as_slice(),
            0b1111111100000000,
        ),
        // y is 2 with nothing, or 2 and 3 with 3
        (Relation::SetUnion, with_two.as_slice(), 0b0000100100000000),
        // nothing is in both, or 3, of which the constant has also 5
        (
            Relation::SetIntersect,
            with_three.as_slice(),
            0b0000000000000000,
        ),
        // y is not empty, and x is empty or has 1
        (Relation::SetLt, pair.as_slice(), 0b0100110001011111),
        // y is empty
        (Relation::SetDiff, twice.as_slice(), 0b1010000010100000),
        // y has what is in just one of x and 2
        (
            Relation::SetSymdiff,
            with_two.as_slice(),
            0b0000100100000000,
        ),
    ];
    for (relation, args, expected) in cases {
        let c = one_terms(alloc, relation, args)?;
        let result = set_diagram(alloc, &mut ops, &layout, &p, &c)?;
        assert_eq!(rt; Some(listed(&mut ops, expected)?), result);
    }
    assert!(rt; !is_set_shape(Relation::SetCard));
    Ok(())
}
