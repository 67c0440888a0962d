//! The block of an answer.

ghost use Rattle.std.specs.Prelude.{◌≡◌, ◌++◌, [], OnOk, IfOk};
ghost use Rattle.fzn_printer.specs.Block.{block, item_line, item_lines, item_text};

use crate::array::push_array;
use crate::lines::SEPARATOR;
use crate::value::push_term;
use set_meaning::{Problem, Shown, Value};
use std::alloc::{AllocError, Global};

/// The bytes of the block of an answer: a line `NAME = VALUE;` for each shown item of the problem, in its order, and
/// the line `----------`. `values` has one value a variable; a term whose variable has none is printed as nothing.
///
/// An item without dimensions is printed as its terms, one after another (in a problem of a text: one), any other as
/// `arrayKd(D1, .., DK, [V1, V2])`: a dimension as it was written, with `L..H` for a range and braces for a list.
/// Booleans are `false` and `true`, integers decimal, sets `{1,2,3}`, ascending and without spaces (MiniZinc
/// Handbook, "Solution Output"). Takes time linear in what is printed. An `Err` is want of memory.
pub fn block(alloc: Global, p: &Problem, values: &[Value]) -> Result<Vec<u8>, AllocError>
    ensures { IfOk result (λ bytes. bytes.items ≡ block p.now values.now) }
{
    let mut out = Vec::new(alloc);
    push_items(&mut out, p.shown.items(), values)?;
    out.extend_from_slice(SEPARATOR)?;
    Ok(out)
}

/// Appends the lines of the items.
fn push_items(out: &mut Vec<u8>, items: &[Shown], values: &[Value]) -> Result<(), AllocError>
    ensures { OnOk result (out.new.items ≡ out.old.items ++ item_lines items.now values.now) }
{
    for item in items {
        push_item(out, item, values)?;
    }
    Ok(())
}

/// Appends an item's line: its name and what it shows.
fn push_item(out: &mut Vec<u8>, item: &Shown, values: &[Value]) -> Result<(), AllocError>
    ensures { OnOk result (out.new.items ≡ out.old.items ++ item_line item.now values.now) }
{
    out.extend_from_slice(item.name.items())?;
    out.extend_from_slice(b" = ")?;
    push_shown(out, item, values)?;
    out.extend_from_slice(b";\n")?;
    Ok(())
}

/// Appends what an item shows: its one term, or an array.
fn push_shown(out: &mut Vec<u8>, item: &Shown, values: &[Value]) -> Result<(), AllocError>
    ensures { OnOk result (out.new.items ≡ out.old.items ++ item_text item.now.dims item.now.terms values.now) }
{
    match item.dims.items() {
        [] => push_scalar(out, item, values),
        dims => push_array(out, dims, item.terms.items(), values),
    }
}

/// Appends the terms of an item that has no dimensions, which is one.
fn push_scalar(out: &mut Vec<u8>, item: &Shown, values: &[Value]) -> Result<(), AllocError>
    ensures { OnOk result (out.new.items ≡ out.old.items ++ item_text [] item.now.terms values.now) }
{
    for term in item.terms.items() {
        push_term(out, term, values)?;
    }
    Ok(())
}
