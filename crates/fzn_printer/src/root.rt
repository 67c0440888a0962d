//! The line of a variable of a root family.

ghost use Rattle.std.specs.Prelude.{◌≡◌, ◌++◌, OnOk, IfOk};
ghost use Rattle.fzn_printer.specs.RootLine.{bounds_text, root_line};

use crate::array::push_range;
use crate::value::{push_bool, push_set};
use itoa::Buffer;
use set_meaning::{Bounds, Text};
use std::alloc::{AllocError, Global};

/// The bytes of the line `% root NAME LOW..HIGH nodes N`, with its newline, for a variable of that name. `bounds` are
/// the bounds of the values that it has, and `nodes` is the size of the diagram of these values.
///
/// LOW is the least value and HIGH the greatest, as a block prints values; for a set LOW is the set of the elements in
/// every value, and HIGH that of the elements in some value. The name is printed as it is. Takes time linear in what is
/// printed. An `Err` is want of memory.
pub fn root_line(
    alloc: Global,
    name: &Text,
    bounds: &Bounds,
    nodes: u64,
) -> Result<Vec<u8>, AllocError>
    ensures { IfOk result (λ line. line.items ≡ root_line name.now bounds.now nodes) }
{
    let mut out = Vec::from_slice(alloc, b"% root ")?;
    out.extend_from_slice(name.items())?;
    out.extend_from_slice(b" ")?;
    push_bounds(&mut out, bounds)?;
    out.extend_from_slice(b" nodes ")?;
    out.extend_from_slice(Buffer::new().format(nodes).as_bytes())?;
    out.extend_from_slice(b"\n")?;
    Ok(out)
}

/// Appends `LOW..HIGH`.
fn push_bounds(out: &mut Vec<u8>, bounds: &Bounds) -> Result<(), AllocError>
    ensures { OnOk result (out.new.items ≡ out.old.items ++ bounds_text bounds.now) }
{
    match bounds {
        Bounds::Bool(least, greatest) => {
            push_bool(out, *least)?;
            out.extend_from_slice(b"..")?;
            push_bool(out, *greatest)
        }
        Bounds::Int(least, greatest) => push_range(out, *least, *greatest),
        Bounds::Set(every, some) => {
            push_set(out, every.elements())?;
            out.extend_from_slice(b"..")?;
            push_set(out, some.elements())
        }
    }
}
