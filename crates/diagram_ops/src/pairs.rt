//! Products of several refs: a pair is kept once, and found again by its parts.
ghost use Rattle.std.specs.Prelude.{◌≡◌, ◌<◌, ◌≤◌, Some, IfOk, OnOk, OnErr, IfSome, IfNone, All, List, length, min, cond, slice_get};
ghost use Rattle.std.specs.Map.{lookup};
ghost use Rattle.diagram_arena.specs.Table.{Table, IsLive};
ghost use Rattle.diagram_arena.specs.Arena.{table};
ghost use Rattle.diagram_ops.specs.declared.product.Pair.{Pair};
ghost use Rattle.diagram_ops.specs.contracts.product.PairPartialEq.TheImpl.{eq-value as same_pair};
ghost use Rattle.diagram_ops.specs.Meanings.{first_of, IsEarlier, IsThere, IsOpen, Extends, IsAt, IsIndex, AreSidesOf, IsJoinOf, IsAllOf};

use crate::product::{Pair, Product};
use crate::split::{bit_of, split};
use diagram_arena::{Arena, Ref};
use std::alloc::{AllocError, Global};
use std::collections::HashMap;

/// The pairs of one call. Products are lists of refs in halves, so what moves at a bit is as deep as the logarithm of
/// their number.
#[derive(Drop)]
pub(crate) struct Pairs {
    pub(crate) pairs: Vec<Pair>,
    ids: HashMap<Pair, u32>,
    ghost indexed: { IsIndex pairs.items ids.entries },
}

impl Pairs {
    pub(crate) fn new(alloc: Global) -> Pairs {
        Pairs {
            pairs: Vec::new(alloc),
            ids: HashMap::new(alloc),
        }
    }

    /// The refs taken together.
    pub(crate) fn all(&mut self, arena: &Arena, refs: &[Ref]) -> Result<Product, AllocError>
        requires { All (IsLive (table arena.now)) refs.now }
        ensures extends { OnOk result (Extends self.old.pairs.items self.new.pairs.items) }
        ensures all { IfOk result (IsAllOf (table arena.now) self.new.pairs.items refs.now) }
    {
        if refs.len() < 2 {
            return Ok(first_or_one(refs));
        }
        let (front, back) = refs.split_at(refs.len() / 2);
        let left = self.all(arena, front)?;
        let right = self.all(arena, back)?;
        self.join(arena, left, right)
    }

    /// Two products taken together.
    pub(crate) fn join(
        &mut self,
        arena: &Arena,
        left: Product,
        right: Product,
    ) -> Result<Product, AllocError>
        requires left_there { IsThere (table arena.now) self.old.pairs.items left }
        requires right_there { IsThere (table arena.now) self.old.pairs.items right }
        ensures extends { OnOk result (Extends self.old.pairs.items self.new.pairs.items) }
        ensures joined { IfOk result (IsJoinOf (table arena.now) self.old.pairs.items self.new.pairs.items left right) }
    {
        match shortcut(left, right) {
            Some(p) => Ok(p),
            None => {
                let bit = lesser(self.first_bit(arena, left), self.first_bit(arena, right));
                let id = self.numbered(Pair { bit, left, right })?;
                Ok(Product::Both(id))
            }
        }
    }

    /// The number of a pair of earlier products.
    fn numbered(&mut self, pair: Pair) -> Result<u32, AllocError>
        requires left { IsEarlier (length self.old.pairs.items) pair.left }
        requires right { IsEarlier (length self.old.pairs.items) pair.right }
        ensures extends { OnOk result (Extends self.old.pairs.items self.new.pairs.items) }
        ensures at { IfOk result (IsAt self.new.pairs.items pair) }
    {
        match self.ids.get(&pair).copied() {
            Some(id) => Ok(id),
            None => self.add(pair),
        }
    }

    fn add(&mut self, pair: Pair) -> Result<u32, AllocError>
        requires left { IsEarlier (length self.old.pairs.items) pair.left }
        requires right { IsEarlier (length self.old.pairs.items) pair.right }
        ensures extends { OnOk result (Extends self.old.pairs.items self.new.pairs.items) }
        ensures at { IfOk result (IsAt self.new.pairs.items pair) }
    {
        let id = self.push(pair)?;
        enter(&mut self.ids, pair, id)?;
        Ok(id)
    }

    /// A new number for a pair, under which it is not found yet.
    fn push(&mut self, pair: Pair) -> Result<u32, AllocError>
        requires left { IsEarlier (length self.old.pairs.items) pair.left }
        requires right { IsEarlier (length self.old.pairs.items) pair.right }
        ensures extends { Extends self.old.pairs.items self.new.pairs.items }
        ensures at { IfOk result (IsAt self.new.pairs.items pair) }
    {
        if self.pairs.len() > u32::MAX as usize {
            return Err(AllocError);
        }
        let id = self.pairs.len() as u32;
        self.pairs.push(pair)?;
        Ok(id)
    }

    /// The first bit that a product asks.
    pub(crate) fn first_bit(&self, arena: &Arena, p: Product) -> u32
        requires there { IsThere (table arena.now) self.now.pairs.items p }
        requires open { IsOpen p }
        ensures { result ≡ first_of (table arena.now) self.now.pairs.items p }
    {
        match p {
            Product::Single(r) => bit_of(arena, r),
            Product::Both(id) => self.pair(id).bit,
        }
    }

    fn pair(&self, id: u32) -> Pair
        requires { id < length self.now.pairs.items }
        ensures { slice_get self.now.pairs.items id ≡ Some result }
    {
        self.pairs[id as usize]
    }

    /// What is left of a product once `bit` is false, and once it is true. Only the refs that ask it move.
    pub(crate) fn split(
        &mut self,
        arena: &Arena,
        p: Product,
        bit: u32,
    ) -> Result<(Product, Product), AllocError>
        requires there { IsThere (table arena.now) self.old.pairs.items p }
        requires above { bit ≤ first_of (table arena.now) self.old.pairs.items p }
        ensures extends { OnOk result (Extends self.old.pairs.items self.new.pairs.items) }
        ensures sides { IfOk result (λ sides. AreSidesOf (table arena.now) self.old.pairs.items self.new.pairs.items p bit sides.0 sides.1) }
    {
        // What is known of the nodes.
        let _ = arena.len();
        match p {
            Product::Single(r) => {
                let (lo, hi) = split(arena, r, bit);
                Ok((Product::Single(lo), Product::Single(hi)))
            }
            Product::Both(id) => {
                let pair = self.pair(id);
                if pair.bit > bit {
                    return Ok((p, p));
                }
                let (left_lo, left_hi) = self.split(arena, pair.left, bit)?;
                let (right_lo, right_hi) = self.split(arena, pair.right, bit)?;
                let lo = self.join(arena, left_lo, right_lo)?;
                let hi = self.join(arena, left_hi, right_hi)?;
                Ok((lo, hi))
            }
        }
    }
}

/// Makes a pair found under this number.
fn enter(ids: &mut HashMap<Pair, u32>, pair: Pair, id: u32) -> Result<(), AllocError>
    ensures ok { OnOk result ((p : Pair) → lookup (same_pair.it p) ids.new.entries ≡ cond (same_pair.it pair p) (Some id) (lookup (same_pair.it p) ids.old.entries)) }
    ensures err { OnErr result (ids.new.entries ≡ ids.old.entries) }
{
    ids.insert(pair, id)?;
    Ok(())
}

fn lesser(a: u32, b: u32) -> u32
    ensures { result ≡ min a b }
{
    a.min(b)
}

/// The one ref, or One where there is none.
fn first_or_one(refs: &[Ref]) -> Product
    requires { length refs.now < 2 }
    ensures { (t : Table) (pairs : List Pair) → All (IsLive t) refs.now → IsAllOf t pairs refs.now result }
{
    match refs.first() {
        Some(r) => Product::Single(*r),
        None => Product::Single(Ref::One),
    }
}

/// Two products taken together, where no pair is needed.
fn shortcut(left: Product, right: Product) -> Option<Product>
    ensures found { (t : Table) (pairs : List Pair) → IfSome result (IsJoinOf t pairs pairs left right) }
    ensures open { IfNone result (IsOpen left × IsOpen right) }
{
    match left {
        Product::Single(r) => match r {
            Ref::Zero => Some(left),
            Ref::One => Some(right),
            Ref::Node(_) => with_node(left, right),
        },
        Product::Both(_) => with_node(left, right),
    }
}

/// The same, where a node of the first has to be looked at.
fn with_node(left: Product, right: Product) -> Option<Product>
    requires { IsOpen left }
    ensures found { (t : Table) (pairs : List Pair) → IfSome result (IsJoinOf t pairs pairs left right) }
    ensures open { IfNone result (IsOpen left × IsOpen right) }
{
    match right {
        Product::Single(r) => match r {
            Ref::Zero => Some(right),
            Ref::One => Some(left),
            Ref::Node(_) => None,
        },
        Product::Both(_) => None,
    }
}
