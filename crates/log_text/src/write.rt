//! Writing a line.

ghost use Rattle.std.specs.Prelude.{◌≡◌, ◌++◌, codes, OnOk, OnErr};
ghost use Rattle.std.specs.Fmt.{decimal, signed_decimal};
ghost use Rattle.std.specs.List.{flat_map, join_by};
ghost use Rattle.log_text.specs.Begins.{Begins};
ghost use Rattle.log_text.specs.Spelling.{HasSpelling, spelling, spaced, value_word};

use crate::line::{Line, LogValue};
use itoa::Buffer;
use std::alloc::AllocError;

/// Appends the spelling of `line` and a newline to `out`.
///
/// A line that comes from [`read_line`](crate::read_line) has a spelling, and so does one whose numbers are at most
/// 2^40, whose integers are at most 1,000,000,000 in size, and whose sets name their elements once each in ascending
/// order, each at most 1,000,000 in size. Takes time linear in the length of the spelling.
pub fn write_line(line: &Line, out: &mut Vec<u8>) -> Result<(), AllocError>
    requires { HasSpelling line.now }
    ensures ok { OnOk result (out.new.items ≡ out.old.items ++ spelling line.now ++ codes "\n") }
    ensures err { OnErr result (out.new.items ≡ out.old.items) }
{
    let before = out.len();
    match push_line(line, out) {
        Ok(()) => Ok(()),
        Err(error) => {
            out.truncate(before);
            Err(error)
        }
    }
}

/// Appends the line and its newline.
fn push_line(line: &Line, out: &mut Vec<u8>) -> Result<(), AllocError>
    ensures ok { OnOk result (out.new.items ≡ out.old.items ++ spelling line.now ++ codes "\n") }
    ensures begins { Begins out.old.items out.new.items }
{
    push_words(line, out)?;
    push_text(out, b"\n")
}

/// Appends the words of the line, with a space between each two.
fn push_words(line: &Line, out: &mut Vec<u8>) -> Result<(), AllocError>
    ensures ok { OnOk result (out.new.items ≡ out.old.items ++ spelling line.now) }
    ensures begins { Begins out.old.items out.new.items }
{
    match line {
        Line::Header => push_text(out, b"setlog 1"),
        Line::Node {
            number,
            place,
            lo,
            hi,
        } => {
            push_text(out, b"n")?;
            push_numbers(out, &[*number, *place, *lo, *hi])
        }
        Line::Axiom {
            number,
            constraint,
            sides,
        } => {
            push_text(out, b"a")?;
            push_numbers(out, &[*number, *constraint])?;
            push_sides(out, sides.items())
        }
        Line::Answer {
            number,
            values,
            sides,
        } => {
            push_text(out, b"s")?;
            push_numbers(out, &[*number])?;
            push_values(out, values.items())?;
            push_text(out, b" |")?;
            push_sides(out, sides.items())
        }
        Line::Resolvent {
            number,
            left,
            right,
            pivot,
            sides,
        } => {
            push_text(out, b"r")?;
            push_numbers(out, &[*number, *left, *right, *pivot])?;
            push_sides(out, sides.items())
        }
        Line::Learned { number } => {
            push_text(out, b"k")?;
            push_numbers(out, &[*number])
        }
        Line::Close { number } => {
            push_text(out, b"q")?;
            push_numbers(out, &[*number])
        }
        Line::End => push_text(out, b"e"),
    }
}

/// Appends a space before each number, and the number.
fn push_numbers(out: &mut Vec<u8>, numbers: &[u64]) -> Result<(), AllocError>
    ensures ok { OnOk result (out.new.items ≡ out.old.items ++ flat_map (λ n. spaced (decimal n)) numbers.now) }
    ensures begins { Begins out.old.items out.new.items }
{
    for number in numbers {
        push_number(out, *number)?;
    }
    Ok(())
}

/// Appends a space before each number of each side, and the number.
fn push_sides(out: &mut Vec<u8>, sides: &[(u64, u64)]) -> Result<(), AllocError>
    ensures ok { OnOk result (out.new.items ≡ out.old.items ++ flat_map (λ side. spaced (decimal side.0) ++ spaced (decimal side.1)) sides.now) }
    ensures begins { Begins out.old.items out.new.items }
{
    for (variable, node) in sides {
        push_number(out, *variable)?;
        push_number(out, *node)?;
    }
    Ok(())
}

/// Appends a space before each value, and the value.
fn push_values(out: &mut Vec<u8>, values: &[LogValue]) -> Result<(), AllocError>
    ensures ok { OnOk result (out.new.items ≡ out.old.items ++ flat_map (λ value. spaced (value_word value)) values.now) }
    ensures begins { Begins out.old.items out.new.items }
{
    for value in values {
        push_text(out, b" ")?;
        push_value(out, value)?;
    }
    Ok(())
}

/// Appends the value.
fn push_value(out: &mut Vec<u8>, value: &LogValue) -> Result<(), AllocError>
    ensures ok { OnOk result (out.new.items ≡ out.old.items ++ value_word value.now) }
    ensures begins { Begins out.old.items out.new.items }
{
    match value {
        LogValue::Bool(true) => push_text(out, b"true"),
        LogValue::Bool(false) => push_text(out, b"false"),
        LogValue::Int(integer) => push_integer(out, *integer),
        LogValue::Set(elements) => {
            push_text(out, b"{")?;
            push_elements(out, elements.items())?;
            push_text(out, b"}")
        }
    }
}

/// Appends the elements, with a comma between each two.
fn push_elements(out: &mut Vec<u8>, elements: &[i64]) -> Result<(), AllocError>
    ensures ok { OnOk result (out.new.items ≡ out.old.items ++ join_by signed_decimal (codes ",") elements.now) }
    ensures begins { Begins out.old.items out.new.items }
{
    match elements.split_first() {
        Some((first, rest)) => {
            push_integer(out, *first)?;
            push_more_elements(out, rest)
        }
        None => Ok(()),
    }
}

/// Appends a comma before each element, and the element.
fn push_more_elements(out: &mut Vec<u8>, elements: &[i64]) -> Result<(), AllocError>
    ensures ok { OnOk result (out.new.items ≡ out.old.items ++ flat_map (λ element. codes "," ++ signed_decimal element) elements.now) }
    ensures begins { Begins out.old.items out.new.items }
{
    for element in elements.iter().copied() {
        push_text(out, b",")?;
        push_integer(out, element)?;
    }
    Ok(())
}

/// Appends a space and the number.
fn push_number(out: &mut Vec<u8>, number: u64) -> Result<(), AllocError>
    ensures ok { OnOk result (out.new.items ≡ out.old.items ++ spaced (decimal number)) }
    ensures begins { Begins out.old.items out.new.items }
{
    push_text(out, b" ")?;
    push_text(out, Buffer::new().format(number).as_bytes())
}

/// Appends the integer.
fn push_integer(out: &mut Vec<u8>, integer: i64) -> Result<(), AllocError>
    ensures ok { OnOk result (out.new.items ≡ out.old.items ++ signed_decimal integer) }
    ensures begins { Begins out.old.items out.new.items }
{
    push_text(out, Buffer::new().format(integer).as_bytes())
}

/// Appends the text.
fn push_text(out: &mut Vec<u8>, text: &[u8]) -> Result<(), AllocError>
    ensures ok { OnOk result (out.new.items ≡ out.old.items ++ text.now) }
    ensures begins { Begins out.old.items out.new.items }
{
    out.extend_from_slice(text)
}
