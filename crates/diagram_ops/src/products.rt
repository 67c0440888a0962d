//! Operations on the words that several sets have in common, without the nodes of their intersection.
ghost use Rattle.std.specs.Prelude.{◌≡◌, true, cond, IfOk, OnOk, MatchBool, All};
ghost use Rattle.std.specs.HashSet.{contains_by};
ghost use Rattle.diagram_arena.specs.Table.{Words, IsLive};
ghost use Rattle.diagram_arena.specs.Arena.{table};
ghost use Rattle.diagram_ops.specs.declared.product.Product.{Product};
ghost use Rattle.diagram_ops.specs.contracts.product.ProductPartialEq.TheImpl.{eq-value as same_product};
ghost use Rattle.diagram_ops.specs.Words.{HasNone, HasSome, product_of};
ghost use Rattle.diagram_ops.specs.Meanings.{Means, IsThere, Extends, AreEmpty, IsProductOf};

use crate::operations::{Ops, is_zero};
use crate::pairs::Pairs;
use crate::product::Product;
use diagram_arena::{Arena, Ref};
use std::alloc::AllocError;
use std::collections::HashSet;

impl Ops {
    /// Whether no word is in `f` and in every ref of `gs`, which must be live. No node is made, and the search
    /// ends with the first such word.
    pub fn product_is_empty(&self, f: Ref, gs: &[Ref]) -> Result<bool, AllocError>
        requires f_live { IsLive (table self.now.arena) f }
        requires gs_live { All (IsLive (table self.now.arena)) gs.now }
        ensures empty { IfOk result (λ empty. MatchBool empty (HasNone (product_of (table self.now.arena) f gs.now)) (HasSome (product_of (table self.now.arena) f gs.now))) }
    {
        let arena = self.pool().arena();
        let mut pairs = Pairs::new(self.allocator());
        let all = product(arena, &mut pairs, f, gs)?;
        let mut empty = HashSet::new(self.allocator());
        let some = has_some(arena, &mut pairs, all, &mut empty)?;
        Ok(!some)
    }
}

/// `f` and the refs of `gs` taken together.
pub(crate) fn product(
    arena: &Arena,
    pairs: &mut Pairs,
    f: Ref,
    gs: &[Ref],
) -> Result<Product, AllocError>
    requires f_live { IsLive (table arena.now) f }
    requires gs_live { All (IsLive (table arena.now)) gs.now }
    ensures product { IfOk result (IsProductOf (table arena.now) pairs.new.pairs.items f gs.now) }
    ensures extends { OnOk result (Extends pairs.old.pairs.items pairs.new.pairs.items) }
{
    // What is known of the nodes.
    let _ = arena.len();
    let rest = pairs.all(arena, gs)?;
    pairs.join(arena, Product::Single(f), rest)
}

/// Whether a product has some word. `empty` has products that have none.
pub(crate) fn has_some(
    arena: &Arena,
    pairs: &mut Pairs,
    p: Product,
    empty: &mut HashSet<Product>,
) -> Result<bool, AllocError>
    requires there { IsThere (table arena.now) pairs.old.pairs.items p }
    requires known { AreEmpty (table arena.now) pairs.old.pairs.items (λ (q : Product). contains_by (same_product.it q) empty.old) }
    ensures extends { OnOk result (Extends pairs.old.pairs.items pairs.new.pairs.items) }
    ensures some { IfOk result (λ some. (V : Words) → Means (table arena.now) pairs.old.pairs.items p V → MatchBool some (HasSome V) (HasNone V)) }
    ensures known { OnOk result (AreEmpty (table arena.now) pairs.new.pairs.items (λ (q : Product). contains_by (same_product.it q) empty.new)) }
{
    // What is known of the nodes.
    let _ = arena.len();
    match p {
        Product::Single(r) => Ok(!is_zero(r)),
        Product::Both(_) => {
            if empty.contains(&p) {
                return Ok(false);
            }
            let bit = pairs.first_bit(arena, p);
            let (lo, hi) = pairs.split(arena, p, bit)?;
            if has_some(arena, pairs, lo, empty)? {
                return Ok(true);
            }
            if has_some(arena, pairs, hi, empty)? {
                return Ok(true);
            }
            add(empty, p)?;
            Ok(false)
        }
    }
}

/// Adds a product to those that have no word.
fn add(empty: &mut HashSet<Product>, p: Product) -> Result<(), AllocError>
    ensures { OnOk result ((q : Product) → contains_by (same_product.it q) empty.new ≡ cond (same_product.it p q) true (contains_by (same_product.it q) empty.old)) }
{
    empty.insert(p)?;
    Ok(())
}
