//! Views of small diagrams that are known.
ghost use Rattle.std.specs.Prelude.{IfOk, [], ◌∷◌};
ghost use Rattle.diagram_arena.specs.Table.{IsLive};
ghost use Rattle.diagram_arena.specs.Reach.{among, ReachesOnly};
ghost use Rattle.diagram_arena.specs.Arena.{table};

use diagram_arena::{Arena, Ref, Stop, zero_and_one};
use diagram_view::{WordBounds, bounds, first_open, has, node_count, single};
use std::alloc::Global;
use std::test::Fail;

/// Exactly two of the bits 0, 1 and 2 are true: the words 011, 101 and 110.
#[tactic(auto, using(diagram_arena::proofs::Meaning::terminals))]
fn exactly_two(alloc: Global) -> Result<(Arena, Ref), Stop>
    ensures live { IfOk result (λ x. IsLive (table x.0) x.1) }
    ensures holds { IfOk result (λ x. ReachesOnly (table x.0) (among (0 ∷ 1 ∷ 2 ∷ [])) x.1) }
{
    zero_and_one();
    let mut arena = Arena::new(alloc, 5);
    let on = arena.make(2, Ref::Zero, Ref::One)?;
    let off = arena.make(2, Ref::One, Ref::Zero)?;
    let one_left = arena.make(1, on, off)?;
    let two_left = arena.make(1, Ref::Zero, on)?;
    let root = arena.make(0, two_left, one_left)?;
    arena.reaches_what_words_depend_on(root);
    Ok((arena, root))
}

/// The bits 2 and 9 are true, and nothing is asked of bit 5 between them: the words 101 and 111.
#[tactic(auto, using(diagram_arena::proofs::Meaning::terminals))]
fn outer_two(alloc: Global) -> Result<(Arena, Ref), Stop>
    ensures live { IfOk result (λ x. IsLive (table x.0) x.1) }
    ensures holds { IfOk result (λ x. ReachesOnly (table x.0) (among (2 ∷ 5 ∷ 9 ∷ [])) x.1) }
{
    zero_and_one();
    let mut arena = Arena::new(alloc, 2);
    let last = arena.make(9, Ref::Zero, Ref::One)?;
    let root = arena.make(2, Ref::Zero, last)?;
    arena.reaches_what_words_depend_on(root);
    Ok((arena, root))
}

/// The one word 101 over the bits 2, 5 and 9.
#[tactic(auto, using(diagram_arena::proofs::Meaning::terminals))]
fn one_word(alloc: Global) -> Result<(Arena, Ref), Stop>
    ensures live { IfOk result (λ x. IsLive (table x.0) x.1) }
    ensures holds { IfOk result (λ x. ReachesOnly (table x.0) (among (2 ∷ 5 ∷ 9 ∷ [])) x.1) }
{
    zero_and_one();
    let mut arena = Arena::new(alloc, 3);
    let last = arena.make(9, Ref::Zero, Ref::One)?;
    let middle = arena.make(5, last, Ref::Zero)?;
    let root = arena.make(2, Ref::Zero, middle)?;
    arena.reaches_what_words_depend_on(root);
    Ok((arena, root))
}

/// Whether `bounds` answers the words every, some, least and greatest.
fn has_bounds(found: &Option<WordBounds>, words: [[bool; 3]; 4]) -> bool {
    match found {
        Some(b) => {
            b.every.as_slice() == words[0].as_slice()
                && b.some.as_slice() == words[1].as_slice()
                && b.least.as_slice() == words[2].as_slice()
                && b.greatest.as_slice() == words[3].as_slice()
        }
        None => false,
    }
}

#[test]
fn reads_exactly_two(rt: HostRuntime) -> Result<(), Fail> {
    let (arena, f) = exactly_two(rt.alloc())?;
    let bits = [0, 1, 2];
    let rows = [
        ([false, false, false], false),
        ([false, false, true], false),
        ([false, true, false], false),
        ([false, true, true], true),
        ([true, false, false], false),
        ([true, false, true], true),
        ([true, true, false], true),
        ([true, true, true], false),
    ];
    for (word, inside) in rows {
        assert_eq!(rt; has(&arena, f, &bits, &word), inside);
    }
    assert_eq!(rt; first_open(&arena, f, &bits), Some(0));
    assert_eq!(rt; node_count(rt.alloc(), &arena, f), Ok(5));
    assert!(rt; single(rt.alloc(), &arena, f, &bits)?.is_none());
    let found = bounds(rt.alloc(), &arena, f, &bits)?;
    assert!(rt;
        has_bounds(
            &found,
            [
                [false, false, false],
                [true, true, true],
                [false, true, true],
                [true, true, false]
            ]
        )
    );
    Ok(())
}

#[test]
fn reads_past_a_free_bit(rt: HostRuntime) -> Result<(), Fail> {
    let (arena, f) = outer_two(rt.alloc())?;
    let bits = [2, 5, 9];
    assert!(rt; has(&arena, f, &bits, &[true, false, true]));
    assert!(rt; !has(&arena, f, &bits, &[true, true, false]));
    assert_eq!(rt; first_open(&arena, f, &bits), Some(1));
    assert_eq!(rt; node_count(rt.alloc(), &arena, f), Ok(2));
    assert!(rt; single(rt.alloc(), &arena, f, &bits)?.is_none());
    let found = bounds(rt.alloc(), &arena, f, &bits)?;
    assert!(rt;
        has_bounds(
            &found,
            [
                [true, false, true],
                [true, true, true],
                [true, false, true],
                [true, true, true]
            ]
        )
    );
    Ok(())
}

#[test]
fn reads_one_word(rt: HostRuntime) -> Result<(), Fail> {
    let (arena, f) = one_word(rt.alloc())?;
    let bits = [2, 5, 9];
    let word = [true, false, true];
    assert!(rt; has(&arena, f, &bits, &word));
    assert_eq!(rt; first_open(&arena, f, &bits), None);
    assert_eq!(rt; node_count(rt.alloc(), &arena, f), Ok(3));
    let only = single(rt.alloc(), &arena, f, &bits)?.expect(&rt, "the one word");
    assert_eq!(rt; only.as_slice(), word.as_slice());
    let found = bounds(rt.alloc(), &arena, f, &bits)?;
    assert!(rt; has_bounds(&found, [word, word, word, word]));
    Ok(())
}

#[test]
fn reads_zero_and_one(rt: HostRuntime) -> Result<(), Fail> {
    let arena = Arena::new(rt.alloc(), 1);
    assert_eq!(rt; first_open(&arena, Ref::One, &[3]), Some(0));
    assert!(rt; single(rt.alloc(), &arena, Ref::One, &[])?.is_some());
    assert!(rt; single(rt.alloc(), &arena, Ref::Zero, &[3])?.is_none());
    assert!(rt; bounds(rt.alloc(), &arena, Ref::Zero, &[3])?.is_none());
    Ok(())
}
