// Root families of models.
use crate::running::{desk_with, status_of};
use std::alloc::{AllocError, Global};
use std::test::Fail;

/// A model's text, and what `--root` prints for it. The residuals are counted by hand: at each bit, the sets of
/// remaining words for which the next bit matters.
const ROOT_ROWS: [(&str, &str); 14] = [
    (
        "var set of 1..3: x; var {0,3}: n; constraint set_card(x, n); solve satisfy;",
        "% root x {}..{1,2,3} nodes 5\n% root n 0..3 nodes 3\n",
    ),
    (
        "var 0..3: b; var set of 1..2: c; constraint array_set_element(b, [{1},{2}], c); solve satisfy;",
        "% root b 1..2 nodes 3\n% root c {}..{1,2} nodes 3\n",
    ),
    (
        "var -2..3: a; var 0..4: b; constraint int_lin_eq([2,-1], [a,b], 1); solve satisfy;",
        "% root a 1..2 nodes 5\n% root b 1..3 nodes 2\n",
    ),
    (
        "constraint bool_eq(true, false); solve satisfy;",
        "=====UNSATISFIABLE=====\n",
    ),
    (
        "var set of 1..1: x; constraint set_subset({2}, x); solve satisfy;",
        "=====UNSATISFIABLE=====\n",
    ),
    (
        "var set of 1..3: x :: output_var; var 0..3: n; constraint set_card(x, n); constraint set_in(2, x); solve minimize n;",
        "% root x {2}..{1,2,3} nodes 1\n% root n 1..3 nodes 2\n",
    ),
    (
        "var bool: a; var bool: b; constraint bool_eq(b, true); solve satisfy;",
        "% root a false..true nodes 0\n% root b true..true nodes 1\n",
    ),
    // of two bits, all words and all but one
    (
        "var 0..3: a; var 0..2: b; solve satisfy;",
        "% root a 0..3 nodes 0\n% root b 0..2 nodes 2\n",
    ),
    (
        "var 5..5: a; var set of 1..0: x; solve satisfy;",
        "% root a 5..5 nodes 0\n% root x {}..{} nodes 0\n",
    ),
    // a round in this order narrows a and b alone to one value; c and d want two more
    (
        "var 0..3: a; var 0..3: b; var 0..3: c; var 0..3: d; constraint int_lt(c, d); constraint int_lt(b, c); constraint int_lt(a, b); solve satisfy;",
        "% root a 0..0 nodes 2\n% root b 1..1 nodes 2\n% root c 2..2 nodes 2\n% root d 3..3 nodes 2\n",
    ),
    ("solve satisfy;", ""),
    // the variable of a constant objective has no name
    ("constraint bool_eq(true, true); solve maximize 5;", ""),
    ("var 1..2: a; solve minimize 5;", "% root a 1..2 nodes 0\n"),
    // no two of three Booleans are alike: each alone has both values left, and there is no solution
    (
        "var bool: a; var bool: b; var bool: c; constraint bool_not(a, b); constraint bool_not(b, c); constraint bool_not(a, c); solve satisfy;",
        "% root a false..true nodes 0\n% root b false..true nodes 0\n% root c false..true nodes 0\n",
    ),
];

#[test]
fn root_families_are_told(rt: HostRuntime) -> Result<(), Fail> {
    let alloc = rt.alloc();
    for (model, printed) in ROOT_ROWS {
        let mut desk = desk_with(alloc, model)?;
        assert_eq!(rt;
            status_of(alloc, &["--root", "m"], &mut desk)?,
            0,
            "{model}"
        );
        assert_eq!(rt; desk.out(), printed.as_bytes(), "{model}");
        assert_eq!(rt; desk.faults(), 0, "{model}");
    }
    Ok(())
}

#[test]
fn the_root_command_tells_faults_of_the_text(rt: HostRuntime) -> Result<(), Fail> {
    let alloc = rt.alloc();
    let mut desk = desk_with(alloc, "var int: x; solve satisfy;")?;
    assert_eq!(rt; status_of(alloc, &["--root", "m"], &mut desk)?, 3);
    assert_eq!(rt;
        desk.out(),
        b"% error line 1 column 5: unbounded\n".as_slice()
    );
    Ok(())
}

/// Declares `x1` to `x30` over 0..100, and says that their sum is 2,990.
fn wide_sum(alloc: Global) -> Result<String, AllocError> {
    let mut text = String::new(alloc);
    let mut factors = String::new(alloc);
    let mut names = String::new(alloc);
    for i in 1..31u32 {
        let comma = if i == 1 { "" } else { "," };
        let name = format!(in alloc; "x{i}")?;
        text.push_str(format!(in alloc; "var 0..100: {name};\n")?.as_str())?;
        factors.push_str(format!(in alloc; "{comma}1")?.as_str())?;
        names.push_str(format!(in alloc; "{comma}{name}")?.as_str())?;
    }
    let sum = format!(in alloc;
        "constraint int_lin_eq([{factors}], [{names}], 2990);\nsolve satisfy;"
    )?;
    text.push_str(sum.as_str())?;
    Ok(text)
}

/// Each may be from 90 to 100. Of these words of seven bits, 1011010 to 1100100, one set of remaining words is left at
/// the first two bits each. Behind 10 at least 11010 remains, and behind 11 at most 00100: both matter at each further
/// bit, but behind 10 the last bit does not.
fn wide_root(alloc: Global) -> Result<String, AllocError> {
    let mut text = String::new(alloc);
    for i in 1..31u32 {
        text.push_str(format!(in alloc; "% root x{i} 90..100 nodes 11\n")?.as_str())?;
    }
    Ok(text)
}

#[test]
fn the_root_family_of_a_wide_sum_is_told(rt: HostRuntime) -> Result<(), Fail> {
    let alloc = rt.alloc();
    let text = wide_sum(alloc)?;
    let mut desk = desk_with(alloc, text.as_str())?;
    assert_eq!(rt; status_of(alloc, &["--root", "m"], &mut desk)?, 0);
    assert_eq!(rt; desk.out(), wide_root(alloc)?.as_str().as_bytes());
    Ok(())
}
