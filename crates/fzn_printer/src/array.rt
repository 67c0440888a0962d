//! Arrays with their dimensions.

ghost use Rattle.std.specs.Prelude.{◌≡◌, ◌++◌, OnOk, codes};
ghost use Rattle.std.specs.Fmt.{decimal};
ghost use Rattle.fzn_printer.specs.Block.{array_text, dim_text, dims_text, range_text, terms_text, more_terms_text};

use crate::value::{push_integer, push_set, push_term};
use itoa::Buffer;
use set_meaning::{Dim, Term, Value};
use std::alloc::AllocError;

/// Stands between two dimensions and between two values.
const BETWEEN: &[u8] = b", ";

/// Appends `arrayKd(D1, .., DK, [V1, V2])`.
pub(crate) fn push_array(
    out: &mut Vec<u8>,
    dims: &[Dim],
    terms: &[Term],
    values: &[Value],
) -> Result<(), AllocError>
    ensures { OnOk result (out.new.items ≡ out.old.items ++ array_text dims.now terms.now values.now) }
{
    push_head(out, dims.len())?;
    push_dims(out, dims)?;
    out.extend_from_slice(b"[")?;
    push_terms(out, terms, values)?;
    out.extend_from_slice(b"])")?;
    Ok(())
}

/// Appends `arrayKd(`, for K dimensions.
fn push_head(out: &mut Vec<u8>, count: usize) -> Result<(), AllocError>
    ensures { OnOk result (out.new.items ≡ out.old.items ++ codes "array" ++ decimal count ++ codes "d(") }
{
    out.extend_from_slice(b"array")?;
    out.extend_from_slice(Buffer::new().format(count as u64).as_bytes())?;
    out.extend_from_slice(b"d(")?;
    Ok(())
}

/// Appends each dimension, with a comma and a space behind it.
fn push_dims(out: &mut Vec<u8>, dims: &[Dim]) -> Result<(), AllocError>
    ensures { OnOk result (out.new.items ≡ out.old.items ++ dims_text dims.now) }
{
    for dim in dims {
        push_dim(out, dim)?;
        out.extend_from_slice(BETWEEN)?;
    }
    Ok(())
}

/// Appends a dimension as it was written.
fn push_dim(out: &mut Vec<u8>, dim: &Dim) -> Result<(), AllocError>
    ensures { OnOk result (out.new.items ≡ out.old.items ++ dim_text dim.now) }
{
    match dim {
        Dim::Range(lo, hi) => push_range(out, *lo, *hi),
        Dim::List(elements) => push_set(out, elements.elements()),
    }
}

/// Appends `L..H`.
pub(crate) fn push_range(out: &mut Vec<u8>, lo: i64, hi: i64) -> Result<(), AllocError>
    ensures { OnOk result (out.new.items ≡ out.old.items ++ range_text lo hi) }
{
    push_integer(out, lo)?;
    out.extend_from_slice(b"..")?;
    push_integer(out, hi)
}

/// Appends the values of the terms, a comma and a space between two.
fn push_terms(out: &mut Vec<u8>, terms: &[Term], values: &[Value]) -> Result<(), AllocError>
    ensures { OnOk result (out.new.items ≡ out.old.items ++ terms_text terms.now values.now) }
{
    match terms {
        [] => Ok(()),
        [first, rest @ ..] => {
            push_term(out, first, values)?;
            push_more_terms(out, rest, values)
        }
    }
}

/// Appends the values of further terms, a comma and a space before each.
fn push_more_terms(out: &mut Vec<u8>, terms: &[Term], values: &[Value]) -> Result<(), AllocError>
    ensures { OnOk result (out.new.items ≡ out.old.items ++ more_terms_text terms.now values.now) }
{
    for term in terms {
        out.extend_from_slice(BETWEEN)?;
        push_term(out, term, values)?;
    }
    Ok(())
}
