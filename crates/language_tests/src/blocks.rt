//! Printed blocks and root lines against texts worked out by hand.
use crate::samples::{name, problem, set};
use fzn_printer::{COMPLETE, SEPARATOR, UNKNOWN, UNSATISFIABLE, block, root_line};
use listed::Listed;
use set_meaning::{Bounds, Dim, Goal, SetValue, Shown, Term, Value, VarId};
use std::alloc::{AllocError, Global};
use std::test::Fail;

/// The values of five variables: two sets, an integer and two Booleans.
fn values(alloc: Global) -> Result<Vec<Value>, AllocError> {
    Ok(vec![in alloc;
        set(alloc, &[9, 1, 2])?,
        set(alloc, &[])?,
        Value::Int(-7),
        Value::Bool(true),
        Value::Bool(false),
    ]?)
}

/// How an item is shown.
#[derive(Clone, Copy)]
enum Shape {
    Scalar,
    Range(i64, i64),
    /// A range, and the list of 1 and 4.
    RangeAndList(i64, i64),
}

fn dims(alloc: Global, shape: Shape) -> Result<Listed<Dim>, AllocError> {
    let mut dims = Vec::new(alloc);
    match shape {
        Shape::Scalar => {}
        Shape::Range(low, high) => dims.push(Dim::Range(low, high))?,
        Shape::RangeAndList(low, high) => {
            dims.push(Dim::Range(low, high))?;
            dims.push(Dim::List(SetValue::from_list(alloc, &[4, 1])?))?;
        }
    }
    Ok(Listed::of(dims))
}

/// A name, the variables shown under it, and how.
type Item = (&'static str, &'static [u32], Shape);

fn shown(alloc: Global, item: Item) -> Result<Shown, AllocError> {
    let (letters, variables, shape) = item;
    let mut terms = Vec::new(alloc);
    for v in variables {
        terms.push(Term::Var(VarId(*v)))?;
    }
    Ok(Shown {
        name: name(alloc, letters)?,
        terms: Listed::of(terms),
        dims: dims(alloc, shape)?,
    })
}

/// The block of a problem that shows these items.
fn block_of(alloc: Global, items: &[Item]) -> Result<Vec<u8>, AllocError> {
    let mut shows = Vec::new(alloc);
    for item in items {
        shows.push(shown(alloc, *item)?)?;
    }
    let mut p = problem(alloc, Vec::new(alloc), Vec::new(alloc), Goal::Satisfy)?;
    p.shown = Listed::of(shows);
    block(alloc, &p, values(alloc)?.as_slice())
}

/// What is shown, and the lines before the separator.
const BLOCKS: [(&[Item], &str); 11] = [
    (&[], ""),
    (&[("x", &[0], Shape::Scalar)], "x = {1,2,9};\n"),
    (&[("y", &[1], Shape::Scalar)], "y = {};\n"),
    (&[("_n1", &[2], Shape::Scalar)], "_n1 = -7;\n"),
    (&[("t", &[3], Shape::Scalar)], "t = true;\n"),
    (&[("f", &[4], Shape::Scalar)], "f = false;\n"),
    (
        &[("a", &[0, 1], Shape::Range(1, 2))],
        "a = array1d(1..2, [{1,2,9}, {}]);\n",
    ),
    (
        &[("e", &[], Shape::Range(1, 0))],
        "e = array1d(1..0, []);\n",
    ),
    (
        &[("one", &[3], Shape::Range(-3, -3))],
        "one = array1d(-3..-3, [true]);\n",
    ),
    (
        &[("g", &[2, 2, 2, 2], Shape::RangeAndList(0, 1))],
        "g = array2d(0..1, {1,4}, [-7, -7, -7, -7]);\n",
    ),
    (
        &[("b", &[1], Shape::Scalar), ("a", &[4], Shape::Scalar)],
        "b = {};\na = false;\n",
    ),
];

#[test]
fn blocks_are_printed(rt: HostRuntime) -> Result<(), Fail> {
    let alloc = rt.alloc();
    for (items, lines) in BLOCKS {
        let printed = block_of(alloc, items)?;
        let wanted = format!(in alloc; "{lines}----------\n")?;
        assert_eq!(rt; printed.as_slice(), wanted.as_bytes(), "{lines}");
    }
    assert_eq!(rt; SEPARATOR, "----------\n".as_bytes());
    assert_eq!(rt; COMPLETE, "==========\n".as_bytes());
    assert_eq!(rt; UNSATISFIABLE, "=====UNSATISFIABLE=====\n".as_bytes());
    assert_eq!(rt; UNKNOWN, "=====UNKNOWN=====\n".as_bytes());
    Ok(())
}

fn set_bounds(alloc: Global, every: &[i64], some: &[i64]) -> Result<Bounds, AllocError> {
    let every = SetValue::from_list(alloc, every)?;
    let some = SetValue::from_list(alloc, some)?;
    Ok(Bounds::Set(every, some))
}

#[test]
fn root_lines_are_printed(rt: HostRuntime) -> Result<(), Fail> {
    let alloc = rt.alloc();
    let rows = [
        (
            set_bounds(alloc, &[], &[1, 2, 3])?,
            5,
            "% root x {}..{1,2,3} nodes 5\n",
        ),
        (Bounds::Int(0, 3), 3, "% root x 0..3 nodes 3\n"),
        (
            Bounds::Bool(false, true),
            18446744073709551615,
            "% root x false..true nodes 18446744073709551615\n",
        ),
    ];
    for (bounds, nodes, wanted) in &rows {
        let line = root_line(alloc, &name(alloc, "x")?, bounds, *nodes)?;
        assert_eq!(rt; line.as_slice(), wanted.as_bytes());
    }
    let line = root_line(alloc, &name(alloc, "_b1")?, &Bounds::Int(1, 2), 5)?;
    assert_eq!(rt; line.as_slice(), b"% root _b1 1..2 nodes 5\n".as_slice());
    Ok(())
}
