// The words of the command line.
use crate::models::TWO_SETS;
use crate::running::{desk_with, status_of};
use std::test::Fail;

#[test]
fn the_flag_stands_before_the_model_or_after_it(rt: HostRuntime) -> Result<(), Fail> {
    let alloc = rt.alloc();
    let rows: [(&[&str], &str); 4] = [
        (&["m", "--root"], "% root a 0..3 nodes 0\n"),
        (&["--root", "--", "m"], "% root a 0..3 nodes 0\n"),
        (&["--", "m"], "a = 3;\n----------\n"),
        (&["m", "--"], "a = 3;\n----------\n"),
    ];
    for (words, printed) in rows {
        let mut desk = desk_with(alloc, "var 0..3: a :: output_var; solve satisfy;")?;
        assert_eq!(rt; status_of(alloc, words, &mut desk)?, 0);
        assert_eq!(rt; desk.out(), printed.as_bytes());
    }
    Ok(())
}

#[test]
fn wrong_words_are_told_the_usage(rt: HostRuntime) -> Result<(), Fail> {
    let alloc = rt.alloc();
    let rows: [&[&str]; 11] = [
        &[],
        &["-a"],
        &["m", "m"],
        &["--root"],
        &["--root", "--root", "m"],
        &["--root", "m", "m"],
        &["--root=true", "m"],
        &["--help", "m"],
        &["--version"],
        &["-h"],
        &["--", "a", "b"],
    ];
    for words in rows {
        let mut desk = desk_with(alloc, TWO_SETS)?;
        assert_eq!(rt; status_of(alloc, words, &mut desk)?, 2);
        assert_eq!(rt;
            desk.out(),
            b"% usage: setsolve [--root] MODEL\n".as_slice()
        );
    }
    Ok(())
}
