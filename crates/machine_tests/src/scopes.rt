//! Two sets with a common element, a Boolean and an integer with holes.
ghost use Rattle.std.specs.Prelude.{◌≡◌, ◌<◌, IfOk, IsTrue, All, length};

use crate::samples::{ints, layout_of, problem, sets};
use bit_layout::Layout;
use scope_words::{scope_bits, scope_places};
use set_meaning::{Kind, VarId};
use std::alloc::{AllocError, Global};
use std::test::Fail;

fn kinds(alloc: Global) -> Result<Vec<Kind>, AllocError>
    ensures four { IfOk result (λ kinds. length kinds.items ≡ 4) }
{
    let odd = sets(alloc, [1, 3].as_slice())?;
    let late = sets(alloc, [2, 3].as_slice())?;
    let with_holes = ints(alloc, [4, 6, 9].as_slice())?;
    let kinds = vec![in alloc; odd, Kind::Bool, late, with_holes]?;
    Ok(kinds)
}

/// Whether these are bits of the problem.
fn are_bits_of(layout: &Layout, bits: &[u32]) -> bool
    ensures { IsTrue result → All (λ b. b < length layout.now.places) bits.now }
{
    bits.iter().all(|bit| *bit < layout.bits())
}

/// The bits of the variables, and for each its variable, position and element.
fn scope_text(alloc: Global, layout: &Layout, scope: &[VarId]) -> Result<String, AllocError>
    requires { All (λ v. v.0 < length layout.now.kinds) scope.now }
{
    let bits = scope_bits(alloc, layout, scope)?;
    if !are_bits_of(layout, bits.as_slice()) {
        return Err(AllocError);
    }
    let mut text = format!(in alloc; "{:?}", bits.as_slice())?;
    let places = scope_places(alloc, layout, bits.as_slice())?;
    for place in &places {
        let line = format!(in alloc;
            " {}.{} {:?}",
            place.variable.0, place.position, place.element
        )?;
        text.push_str(line.as_str())?;
    }
    Ok(text)
}

/// Bit 0 is the Boolean, bits 1 to 3 are the integer's; then come the elements 1, 2 and 3, the last with a bit of each set.
#[test]
fn lists_the_bits_of_a_scope(rt: HostRuntime) -> Result<(), Fail> {
    let alloc = rt.alloc();
    let p = problem(alloc, kinds(alloc)?);
    let layout = layout_of(alloc, &p)?;
    let sets = scope_text(alloc, &layout, &[VarId(2), VarId(0), VarId(2)])?;
    assert_eq!(rt;
        sets.as_str(),
        "[4, 5, 6, 7] 0.0 Some(1) 2.0 Some(2) 0.1 Some(3) 2.1 Some(3)"
    );
    let scalars = scope_text(alloc, &layout, &[VarId(3), VarId(1)])?;
    assert_eq!(rt;
        scalars.as_str(),
        "[0, 1, 2, 3] 1.0 None 3.0 None 3.1 None 3.2 None"
    );
    let both = scope_text(alloc, &layout, &[VarId(0), VarId(3)])?;
    assert_eq!(rt;
        both.as_str(),
        "[1, 2, 3, 4, 6] 3.0 None 3.1 None 3.2 None 0.0 Some(1) 0.1 Some(3)"
    );
    Ok(())
}
