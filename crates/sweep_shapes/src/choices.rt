//! The initial values of a variable that are in its side.
ghost use Rattle.std.specs.Prelude.{◌≡◌, ◌↔◌, ◌<◌, ◌==◌, ◌||◌, ◌∷◌, [], ◌++◌, not, true, false, Some, IfOk, OnOk, Contains, IsSomeAnd, slice_get, length};
ghost use Rattle.set_meaning.specs.declared.kinds.Value.{Value as AnyValue};
ghost use Rattle.set_meaning.specs.Kinds.{InKind};
ghost use Rattle.std.specs.List.{list_all};
ghost use Rattle.log_rules.specs.Tables.{walk};
ghost use Rattle.log_rules.specs.Boxes.{side_of};
ghost use Rattle.sweep_shapes.specs.Trials.{IsAllowed};

use bit_layout::Layout;
use listed::Listed;
use set_meaning::kinds::initial_values_are_in_kind;
use set_meaning::{Kind, Value, VarId, initial_values};
use std::alloc::{AllocError, Global};
use sweep_table::Table;

/// A variable, and the values that it may have.
#[derive(Drop)]
pub(crate) struct Choice {
    pub(crate) variable: VarId,
    pub(crate) values: Listed<Value>,
}

/// The initial values of the variable that are in its side.
pub(crate) fn values_within(
    alloc: Global,
    kinds: &[Kind],
    layout: &Layout,
    table: &Table,
    sides: &[(u64, u64)],
    v: VarId,
) -> Result<Vec<Value>, AllocError>
    requires kinds { layout.now.kinds ≡ kinds.now }
    requires known { v.0 < length kinds.now }
    ensures { IfOk result (λ values. (x : AnyValue) → Contains values.items x ↔ IsAllowed kinds.now table.now sides.now v.0 x) }
{
    let kind = kind_at(kinds, v);
    initial_values_are_in_kind(kind);
    let all = initial_values(alloc, kind)?;
    let values = chosen(alloc, layout, table, sides, v, all)?;
    Ok(values)
}

/// Those of the values that are in the variable's side.
fn chosen(
    alloc: Global,
    layout: &Layout,
    table: &Table,
    sides: &[(u64, u64)],
    v: VarId,
    all: Vec<Value>,
) -> Result<Vec<Value>, AllocError>
    requires known { v.0 < length layout.now.kinds }
    requires initial { (x : AnyValue) → Contains all.items x → IsSomeAnd (slice_get layout.now.kinds v.0) (λ k. InKind k x) }
    ensures { IfOk result (λ values. (x : AnyValue) → Contains values.items x ↔ (Contains all.items x × (side_of layout.now.kinds table.now sides.now v.0 x ≡ true))) }
{
    let candidates = all.as_slice();
    let mut values = Vec::new(alloc);
    for x in candidates {
        push_within(alloc, &mut values, layout, table, sides, v, x)?;
    }
    Ok(values)
}

/// Appends the value, if it is in the variable's side.
fn push_within(
    alloc: Global,
    values: &mut Vec<Value>,
    layout: &Layout,
    table: &Table,
    sides: &[(u64, u64)],
    v: VarId,
    x: &Value,
) -> Result<(), AllocError>
    requires initial { IsSomeAnd (slice_get layout.now.kinds v.0) (λ k. InKind k x.now) }
    ensures taken { OnOk result (side_of layout.now.kinds table.now sides.now v.0 x.now ≡ true → values.new.items ≡ values.old.items ++ x.now ∷ []) }
    ensures left { OnOk result (side_of layout.now.kinds table.now sides.now v.0 x.now ≡ false → values.new.items ≡ values.old.items) }
{
    if is_within(alloc, layout, table, sides, v, x)? {
        let x = x.copy(alloc)?;
        values.push(x)?;
    }
    Ok(())
}

fn kind_at(kinds: &[Kind], v: VarId) -> &Kind
    requires { v.0 < length kinds.now }
    ensures { slice_get kinds.now v.0 ≡ Some result.now }
{
    &kinds[v.0 as usize]
}

/// Whether the value is in the variable's side.
#[tactic(auto, unfolding(log_rules::specs::Boxes::side_of))]
fn is_within(
    alloc: Global,
    layout: &Layout,
    table: &Table,
    sides: &[(u64, u64)],
    v: VarId,
    x: &Value,
) -> Result<bool, AllocError>
    requires initial { IsSomeAnd (slice_get layout.now.kinds v.0) (λ k. InKind k x.now) }
    ensures { IfOk result (λ within. within ≡ side_of layout.now.kinds table.now sides.now v.0 x.now) }
{
    let word = layout.word_of(alloc, v, x)?;
    let within = accept_all(table, sides, v.0, word.as_slice());
    Ok(within)
}

/// Whether each side of the variable accepts the word.
fn accept_all(table: &Table, sides: &[(u64, u64)], v: u32, word: &[bool]) -> bool
    ensures { result ≡ list_all (λ side. not (side.0 == v) || walk table.now side.1 word.now) sides.now }
{
    sides
        .iter()
        .all(|side| side.0 != u64::from(v) || table.walk(side.1, word))
}
