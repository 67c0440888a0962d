//! Texts with their tokens and faults, worked out by hand.

use fzn_reader::{LexFault, Symbol, TokenKind, Word, lex};
use std::alloc::Global;
use std::test::Fail;

type Expected = (TokenKind, usize, usize);

const fn word(word: Word, from: usize, to: usize) -> Expected {
    (TokenKind::Word(word), from, to)
}

const fn int(value: i64, from: usize, to: usize) -> Expected {
    (TokenKind::Int(value), from, to)
}

const fn symbol(symbol: Symbol, from: usize, to: usize) -> Expected {
    (TokenKind::Symbol(symbol), from, to)
}

const fn name(from: usize, to: usize) -> Expected {
    (TokenKind::Name, from, to)
}

/// Whether these are the tokens of `text`.
fn has_tokens(alloc: Global, text: &[u8], expected: &[Expected]) -> Result<bool, LexFault> {
    let tokens = lex(alloc, text)?;
    if tokens.len() != expected.len() {
        return Ok(false);
    }
    Ok(
        tokens
            .iter()
            .zip(expected)
            .all(|(t, e)| t.kind == e.0 && t.from == e.1 && t.to == e.2),
    )
}

/// Whether this is the first fault of `text`.
fn has_fault(alloc: Global, text: &[u8], expected: LexFault) -> bool {
    match lex(alloc, text) {
        Ok(_) => false,
        Err(fault) => fault == expected,
    }
}

#[test]
fn reads_words_symbols_and_names(rt: HostRuntime) -> Result<(), Fail> {
    let words =
        b"array bool constraint false float int maximize minimize of predicate satisfy set solve true var";
    let expected = [
        word(Word::Array, 0, 5),
        word(Word::Bool, 6, 10),
        word(Word::Constraint, 11, 21),
        word(Word::False, 22, 27),
        word(Word::Float, 28, 33),
        word(Word::Int, 34, 37),
        word(Word::Maximize, 38, 46),
        word(Word::Minimize, 47, 55),
        word(Word::Of, 56, 58),
        word(Word::Predicate, 59, 68),
        word(Word::Satisfy, 69, 76),
        word(Word::Set, 77, 80),
        word(Word::Solve, 81, 86),
        word(Word::True, 87, 91),
        word(Word::Var, 92, 95),
    ];
    assert!(rt; has_tokens(rt.alloc(), words, &expected)?);
    let expected = [
        symbol(Symbol::Semicolon, 0, 1),
        symbol(Symbol::Colon, 2, 3),
        symbol(Symbol::ColonColon, 4, 6),
        symbol(Symbol::Comma, 7, 8),
        symbol(Symbol::DotDot, 9, 11),
        symbol(Symbol::Equals, 12, 13),
        symbol(Symbol::OpenRound, 14, 15),
        symbol(Symbol::CloseRound, 16, 17),
        symbol(Symbol::OpenSquare, 18, 19),
        symbol(Symbol::CloseSquare, 20, 21),
        symbol(Symbol::OpenCurly, 22, 23),
        symbol(Symbol::CloseCurly, 24, 25),
        symbol(Symbol::ColonColon, 26, 28),
        symbol(Symbol::Colon, 28, 29),
    ];
    assert!(rt; has_tokens(rt.alloc(), b"; : :: , .. = ( ) [ ] { } :::", &expected)?);
    let expected = [
        name(0, 5),
        name(6, 10),
        name(11, 15),
        name(16, 17),
        name(18, 21),
    ];
    assert!(rt; has_tokens(rt.alloc(), b"__a1_ intx int_ X _Z9", &expected)?);
    Ok(())
}

#[test]
fn reads_numbers(rt: HostRuntime) -> Result<(), Fail> {
    let limits = [
        int(1_000_000_000, 0, 10),
        (TokenKind::LargeInt, 11, 21),
        int(-1_000_000_000, 22, 33),
        (TokenKind::LargeInt, 34, 45),
        (TokenKind::LargeInt, 46, 72),
    ];
    let text = b"1000000000 1000000001 -1000000000 -1000000001 99999999999999999999999999";
    assert!(rt; has_tokens(rt.alloc(), text, &limits)?);
    let bases = [
        int(1_000_000_000, 0, 10),
        (TokenKind::LargeInt, 11, 21),
        int(1_000_000_000, 22, 34),
        (TokenKind::LargeInt, 35, 48),
        int(0, 49, 51),
        int(7, 52, 55),
        int(-31, 56, 61),
        int(485, 62, 67),
    ];
    let text = b"0x3B9ACA00 0x3b9aca01 0o7346545000 -0o7346545001 -0 007 -0x1F 0x1e5";
    assert!(rt; has_tokens(rt.alloc(), text, &bases)?);
    let ends = [
        int(0, 0, 1),
        name(1, 3),
        int(0, 4, 6),
        name(6, 8),
        int(1, 9, 12),
        int(8, 12, 13),
        int(1, 14, 15),
        symbol(Symbol::DotDot, 15, 17),
        int(-3, 17, 19),
        int(1, 20, 21),
        name(21, 22),
    ];
    assert!(rt; has_tokens(rt.alloc(), b"0X1 00x1 0o18 1..-3 1e", &ends)?);
    let floats = [
        (TokenKind::Float, 0, 3),
        (TokenKind::Float, 4, 7),
        (TokenKind::Float, 8, 14),
        (TokenKind::Float, 15, 23),
        (TokenKind::Float, 24, 27),
        name(27, 28),
        (TokenKind::Float, 29, 32),
        name(32, 33),
    ];
    assert!(rt; has_tokens(rt.alloc(), b"1.5 1e5 1.5E-3 -2.0e+07 1.5e 1e5x", &floats)?);
    Ok(())
}

#[test]
fn reads_strings_and_passes_over_gaps(rt: HostRuntime) -> Result<(), Fail> {
    let strings = [
        (TokenKind::Text, 0, 2),
        (TokenKind::Text, 3, 9),
        (TokenKind::Text, 10, 14),
        (TokenKind::Text, 15, 20),
        (TokenKind::Text, 21, 26),
    ];
    let text = b"\"\" \"a\\\"b\" \"\\\\\" \"a%b\" \"\r\xC8\0\"";
    assert!(rt; has_tokens(rt.alloc(), text, &strings)?);
    let gaps = [name(0, 1), name(5, 6), name(12, 13)];
    assert!(rt; has_tokens(rt.alloc(), b"x%\ry\nz% \xC8\0\n\t\x61%", &gaps)?);
    assert!(rt; has_tokens(rt.alloc(), b"", &[])?);
    assert!(rt; has_tokens(rt.alloc(), b" \t\r\n%", &[])?);
    Ok(())
}

#[test]
fn tells_the_first_fault(rt: HostRuntime) -> Result<(), Fail> {
    let rows: [(&[u8], LexFault); 31] = [
        (b"-", LexFault::BadByte { at: 0 }),
        (b"x -y", LexFault::BadByte { at: 2 }),
        (b"- 5", LexFault::BadByte { at: 0 }),
        (b"-.5", LexFault::BadByte { at: 0 }),
        (b"--0x", LexFault::BadByte { at: 0 }),
        (b"a _ b", LexFault::BadByte { at: 2 }),
        (b"_1", LexFault::BadByte { at: 0 }),
        (b"1.", LexFault::BadByte { at: 1 }),
        (b"1.e5", LexFault::BadByte { at: 1 }),
        (b"1e+", LexFault::BadByte { at: 2 }),
        (b"1e5.5", LexFault::BadByte { at: 3 }),
        (b"...", LexFault::BadByte { at: 2 }),
        (b"a\0", LexFault::BadByte { at: 1 }),
        (b"% \xC8\n\xC8", LexFault::BadByte { at: 4 }),
        (b"a\n#", LexFault::BadByte { at: 2 }),
        (b"\x0C", LexFault::BadByte { at: 0 }),
        (b"\x0B", LexFault::BadByte { at: 0 }),
        (b"# 0x \"", LexFault::BadByte { at: 0 }),
        (b"0x", LexFault::BadNumber { at: 0 }),
        (b"0xg", LexFault::BadNumber { at: 0 }),
        (b"0o8", LexFault::BadNumber { at: 0 }),
        (b"-0x", LexFault::BadNumber { at: 0 }),
        (b"5-0x", LexFault::BadNumber { at: 1 }),
        (b"a 0o \"", LexFault::BadNumber { at: 2 }),
        (b"\"", LexFault::OpenString { at: 0 }),
        (b"\"a\\", LexFault::OpenString { at: 0 }),
        (b"\"\\\"", LexFault::OpenString { at: 0 }),
        (b"a \"b\nc\"", LexFault::OpenString { at: 2 }),
        (b"\"a\\\n\"", LexFault::OpenString { at: 0 }),
        (b"\"\n0x#", LexFault::OpenString { at: 0 }),
        (b"\"a\" \"", LexFault::OpenString { at: 4 }),
    ];
    for (text, fault) in rows {
        assert!(rt; has_fault(rt.alloc(), text, fault));
    }
    Ok(())
}
