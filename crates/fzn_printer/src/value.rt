//! Terms and values.

ghost use Rattle.std.specs.Prelude.{◌≡◌, ◌++◌, OnOk};
ghost use Rattle.std.specs.Fmt.{signed_decimal};
ghost use Rattle.fzn_printer.specs.Block.{bool_text, term_text, value_text, set_text, elements_text, more_text};

use itoa::Buffer;
use set_meaning::{Term, Value};
use std::alloc::AllocError;

/// Appends the value of a term.
pub(crate) fn push_term(out: &mut Vec<u8>, term: &Term, values: &[Value]) -> Result<(), AllocError>
    ensures { OnOk result (out.new.items ≡ out.old.items ++ term_text term.now values.now) }
{
    match term {
        Term::Const(value) => push_value(out, value),
        Term::Var(variable) => match values.get(variable.0 as usize) {
            Some(value) => push_value(out, value),
            None => Ok(()),
        },
    }
}

/// Appends a value.
fn push_value(out: &mut Vec<u8>, value: &Value) -> Result<(), AllocError>
    ensures { OnOk result (out.new.items ≡ out.old.items ++ value_text value.now) }
{
    match value {
        Value::Bool(truth) => push_bool(out, *truth),
        Value::Int(number) => push_integer(out, *number),
        Value::Set(set) => push_set(out, set.elements()),
    }
}

/// Appends a Boolean.
pub(crate) fn push_bool(out: &mut Vec<u8>, truth: bool) -> Result<(), AllocError>
    ensures { OnOk result (out.new.items ≡ out.old.items ++ bool_text truth) }
{
    match truth {
        true => out.extend_from_slice(b"true"),
        false => out.extend_from_slice(b"false"),
    }
}

/// Appends a set.
pub(crate) fn push_set(out: &mut Vec<u8>, elements: &[i64]) -> Result<(), AllocError>
    ensures { OnOk result (out.new.items ≡ out.old.items ++ set_text elements.now) }
{
    out.push(b'{')?;
    push_elements(out, elements)?;
    out.push(b'}')?;
    Ok(())
}

/// Appends the elements of a set, a comma between two.
fn push_elements(out: &mut Vec<u8>, elements: &[i64]) -> Result<(), AllocError>
    ensures { OnOk result (out.new.items ≡ out.old.items ++ elements_text elements.now) }
{
    match elements {
        [] => Ok(()),
        [first, rest @ ..] => {
            push_integer(out, *first)?;
            push_more(out, rest)
        }
    }
}

/// Appends further elements of a set, a comma before each.
fn push_more(out: &mut Vec<u8>, elements: &[i64]) -> Result<(), AllocError>
    ensures { OnOk result (out.new.items ≡ out.old.items ++ more_text elements.now) }
{
    for element in elements {
        out.push(b',')?;
        push_integer(out, *element)?;
    }
    Ok(())
}

/// Appends a number in decimal.
pub(crate) fn push_integer(out: &mut Vec<u8>, number: i64) -> Result<(), AllocError>
    ensures { OnOk result (out.new.items ≡ out.old.items ++ signed_decimal number) }
{
    out.extend_from_slice(Buffer::new().format(number).as_bytes())
}
