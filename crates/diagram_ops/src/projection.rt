//! Projection of a set of words, or of what several have in common, to some of their bits, by recursion over nodes.
ghost use Rattle.std.specs.Prelude.{◌≡◌, ◌≢◌, ◌<◌, ◌≤◌, ℕ, true, false, IsTrue, IfOk, IfSome, IfNone, OnOk, cond, Some, All, List};
ghost use Rattle.std.specs.Map.{lookup};
ghost use Rattle.std.specs.List.Sorted.{IsStrictlyIncreasing};
ghost use Rattle.diagram_arena.specs.Table.{Words, Table, IsLive, IsReduced, depth};
ghost use Rattle.diagram_arena.specs.Reach.{Bits, ReachesOnly, among};
ghost use Rattle.diagram_arena.specs.Arena.{table, CanMake};
ghost use Rattle.node_reclaim.specs.Growth.{IsFull, words_of, Stays, NewReachOnly, NewArePartsOf};
ghost use Rattle.diagram_ops.specs.declared.product.Product.{Product};
ghost use Rattle.diagram_ops.specs.contracts.product.ProductPartialEq.TheImpl.{eq-value as same_product};
ghost use Rattle.diagram_ops.specs.Words.{common, either, Lies, Denotes, IsAsDeep, IsProjection, product_of, IsAsDeepAsAll, NewArePartsOfProjections};
ghost use Rattle.diagram_ops.specs.Steps.{AreAnswers, SidesJoined};
ghost use Rattle.diagram_ops.specs.Meanings.{first_of, Means, IsThere, IsOpen, IsConstant, Extends, IsProjectionOf, ProjectsWords, IsProductOf};
ghost use Rattle.diagram_ops.specs.Work.{IsWork, AreBounds, IsStepOf};

use crate::operations::Ops;
use crate::pairs::Pairs;
use crate::product::Product;
use crate::products::{has_some, product};
use crate::question::{Op, Question};
use crate::split::split;
use diagram_arena::{Arena, Ref, Stop};
use std::alloc::{AllocError, Global};
use std::collections::{HashMap, HashSet};

/// What one projection knows: its products, their projections, which of them have no word, and unions.
#[derive(Drop)]
pub(crate) struct Work {
    pub(crate) pairs: Pairs,
    pub(crate) done: HashMap<Product, Ref>,
    pub(crate) empty: HashSet<Product>,
    pub(crate) unions: HashMap<Question, Ref>,
}

impl Work {
    fn new(alloc: Global) -> Work
        ensures { (t : Table) (keep : List ℕ) → IsWork t keep result }
    {
        Work {
            pairs: Pairs::new(alloc),
            done: HashMap::new(alloc),
            empty: HashSet::new(alloc),
            unions: HashMap::new(alloc),
        }
    }
}

/// A bit, with what is left of a product and of its bound once it is false, and once it is true.
#[derive(Clone, Copy)]
pub(crate) struct Step {
    pub(crate) bit: u32,
    pub(crate) lo: Product,
    pub(crate) hi: Product,
    pub(crate) bound_lo: Ref,
    pub(crate) bound_hi: Ref,
}

impl Ops {
    /// The words that agree with a word of `f` on each bit of `keep`; all other bits are free. With no bits
    /// to keep that is One, or Zero where `f` is Zero. `f` must be live; `keep` must ascend, and may name bits
    /// that `f` does not ask. The union of two results is made for each node of `f` whose bit is not kept, so
    /// the result may have exponentially many nodes in the number of such bits.
    pub fn project(&mut self, f: Ref, keep: &[u32]) -> Result<Ref, Stop>
        requires f_live { IsLive (table self.old.arena) f }
        requires ascends { IsStrictlyIncreasing keep.now }
        ensures live { IfOk result (IsLive (table self.new.arena)) }
        ensures words { IfOk result (λ r. IsProjection (among keep.now) (words_of self.old f) (words_of self.new r)) }
        ensures deep { IfOk result (λ r. depth (table self.old.arena) f ≤ depth (table self.new.arena) r) }
        ensures stays { Stays self.old self.new }
        ensures full { result ≡ Err Stop.Full → IsFull self.new }
        ensures parts { NewArePartsOfProjections (table self.old.arena) (table self.new.arena) (among keep.now) (words_of self.old f) }
        ensures asks { (bits : Bits) → ReachesOnly (table self.old.arena) bits f → IfOk result (ReachesOnly (table self.new.arena) (common bits (among keep.now))) }
        ensures reach { (bits : Bits) → ReachesOnly (table self.old.arena) bits f → NewReachOnly (table self.old.arena) (table self.new.arena) (common bits (among keep.now)) }
    {
        // What is known of the nodes.
        let _ = self.pool();
        let mut work = Work::new(self.allocator());
        self.project_below(keep, &mut work, Product::Single(f), Ref::One)
    }

    /// The words that agree on each bit of `keep` with a word that is in `f` and in every ref of `gs`; all
    /// other bits are free: as `project` of the intersection of them all, of which no node is made. The refs
    /// must be live. `keep` must ascend, and may name bits that no ref asks. `bound` must hold every word
    /// that is in them all, and changes no answer: where a union reaches it, the rest is not looked at; One
    /// bounds nothing. The result may have exponentially many nodes in the number of bits that are not kept.
    pub fn project_product(
        &mut self,
        f: Ref,
        gs: &[Ref],
        keep: &[u32],
        bound: Ref,
    ) -> Result<Ref, Stop>
        requires f_live { IsLive (table self.old.arena) f }
        requires gs_live { All (IsLive (table self.old.arena)) gs.now }
        requires ascends { IsStrictlyIncreasing keep.now }
        requires bound_live { IsLive (table self.old.arena) bound }
        requires bounded { Lies (product_of (table self.old.arena) f gs.now) (words_of self.old bound) }
        ensures live { IfOk result (IsLive (table self.new.arena)) }
        ensures words { IfOk result (λ r. IsProjection (among keep.now) (product_of (table self.old.arena) f gs.now) (words_of self.new r)) }
        ensures deep { IfOk result (λ r. IsAsDeepAsAll (table self.old.arena) f gs.now (depth (table self.new.arena) r)) }
        ensures stays { Stays self.old self.new }
        ensures full { result ≡ Err Stop.Full → IsFull self.new }
        ensures parts { NewArePartsOfProjections (table self.old.arena) (table self.new.arena) (among keep.now) (product_of (table self.old.arena) f gs.now) }
        ensures asks { (bits : Bits) → ReachesOnly (table self.old.arena) bits f → All (ReachesOnly (table self.old.arena) bits) gs.now → IfOk result (ReachesOnly (table self.new.arena) (common bits (among keep.now))) }
        ensures reach { (bits : Bits) → ReachesOnly (table self.old.arena) bits f → All (ReachesOnly (table self.old.arena) bits) gs.now → NewReachOnly (table self.old.arena) (table self.new.arena) (common bits (among keep.now)) }
    {
        // What is known of the nodes.
        let _ = self.pool();
        let mut work = Work::new(self.allocator());
        let all = self.taken_together(&mut work.pairs, f, gs)?;
        self.project_below(keep, &mut work, all, bound)
    }

    /// `f` and the refs of `gs` taken together.
    fn taken_together(&self, pairs: &mut Pairs, f: Ref, gs: &[Ref]) -> Result<Product, AllocError>
        requires f_live { IsLive (table self.now.arena) f }
        requires gs_live { All (IsLive (table self.now.arena)) gs.now }
        ensures product { IfOk result (IsProductOf (table self.now.arena) pairs.new.pairs.items f gs.now) }
        ensures extends { OnOk result (Extends pairs.old.pairs.items pairs.new.pairs.items) }
    {
        product(self.pool().arena(), pairs, f, gs)
    }

    /// The projection of a product. `work` has what was found before, so that each product is taken once.
    fn project_below(
        &mut self,
        keep: &[u32],
        work: &mut Work,
        p: Product,
        bound: Ref,
    ) -> Result<Ref, Stop>
        requires there { IsThere (table self.old.arena) work.old.pairs.pairs.items p }
        requires ascends { IsStrictlyIncreasing keep.now }
        requires bound_live { IsLive (table self.old.arena) bound }
        requires bounded { (V : Words) → Means (table self.old.arena) work.old.pairs.pairs.items p V → Lies V (words_of self.old bound) }
        requires work { IsWork (table self.old.arena) keep.now work.old }
        ensures left { (V : Words) → Means (table self.old.arena) work.old.pairs.pairs.items p V → ProjectsWords self.old self.new keep.now V (first_of (table self.old.arena) work.old.pairs.pairs.items p) result }
        ensures work { OnOk result (IsWork (table self.new.arena) keep.now work.new) }
        ensures extends { OnOk result (Extends work.old.pairs.pairs.items work.new.pairs.pairs.items) }
    {
        match self.seen(keep, work, p)? {
            Some(r) => Ok(r),
            None => {
                let step = self.step(&mut work.pairs, p, bound)?;
                let lo = self.project_below(keep, work, step.lo, step.bound_lo)?;
                if is_covered(keep, step, lo) {
                    remember(&mut work.done, p, lo)?;
                    return Ok(lo);
                }
                let hi = self.project_below(keep, work, step.hi, step.bound_hi)?;
                let r = self.join_sides(keep, &mut work.unions, step.bit, lo, hi)?;
                remember(&mut work.done, p, r)?;
                Ok(r)
            }
        }
    }

    /// The projection of a product, if it is seen at once, was met before or keeps no further bit.
    fn seen(&self, keep: &[u32], work: &mut Work, p: Product) -> Result<Option<Ref>, AllocError>
        requires there { IsThere (table self.now.arena) work.old.pairs.pairs.items p }
        requires ascends { IsStrictlyIncreasing keep.now }
        requires work { IsWork (table self.now.arena) keep.now work.old }
        ensures found { IfOk result (λ o. IfSome o (IsProjectionOf (table self.now.arena) work.new.pairs.pairs.items keep.now p)) }
        ensures open { IfOk result (λ o. IfNone o (IsOpen p)) }
        ensures reduced { IsReduced (table self.now.arena) }
        ensures work { OnOk result (IsWork (table self.now.arena) keep.now work.new) }
        ensures extends { OnOk result (Extends work.old.pairs.pairs.items work.new.pairs.pairs.items) }
    {
        // What is known of the nodes.
        let _ = self.pool();
        match constant(p) {
            Some(r) => Ok(Some(r)),
            None => match work.done.get(&p).copied() {
                Some(r) => Ok(Some(r)),
                None => self.beyond(keep, work, p),
            },
        }
    }

    /// The projection of a product that asks only bits beyond those that are kept: One, or Zero.
    fn beyond(&self, keep: &[u32], work: &mut Work, p: Product) -> Result<Option<Ref>, AllocError>
        requires there { IsThere (table self.now.arena) work.old.pairs.pairs.items p }
        requires open { IsOpen p }
        requires ascends { IsStrictlyIncreasing keep.now }
        requires work { IsWork (table self.now.arena) keep.now work.old }
        ensures found { IfOk result (λ o. IfSome o (IsProjectionOf (table self.now.arena) work.new.pairs.pairs.items keep.now p)) }
        ensures work { OnOk result (IsWork (table self.now.arena) keep.now work.new) }
        ensures extends { OnOk result (Extends work.old.pairs.pairs.items work.new.pairs.pairs.items) }
    {
        let arena = self.pool().arena();
        let bit = work.pairs.first_bit(arena, p);
        if reaches(keep, bit) {
            return Ok(None);
        }
        let some = has_some(arena, &mut work.pairs, p, &mut work.empty)?;
        let r = all_or_none(some);
        remember(&mut work.done, p, r)?;
        Ok(Some(r))
    }

    /// The first bit of a product, with what is left of it and of its bound on either side.
    fn step(&self, pairs: &mut Pairs, p: Product, bound: Ref) -> Result<Step, AllocError>
        requires there { IsThere (table self.now.arena) pairs.old.pairs.items p }
        requires open { IsOpen p }
        requires bound_live { IsLive (table self.now.arena) bound }
        requires bounded { (V : Words) → Means (table self.now.arena) pairs.old.pairs.items p V → Lies V (words_of self.now bound) }
        ensures step { IfOk result (IsStepOf (table self.now.arena) pairs.old.pairs.items pairs.new.pairs.items p) }
        ensures extends { OnOk result (Extends pairs.old.pairs.items pairs.new.pairs.items) }
    {
        let arena = self.pool().arena();
        let bit = pairs.first_bit(arena, p);
        let (lo, hi) = pairs.split(arena, p, bit)?;
        let (bound_lo, bound_hi) = bounds(arena, bound, bit);
        Ok(Step {
            bit,
            lo,
            hi,
            bound_lo,
            bound_hi,
        })
    }

    /// The projection of a product from those of both its sides.
    fn join_sides(
        &mut self,
        keep: &[u32],
        unions: &mut HashMap<Question, Ref>,
        bit: u32,
        lo: Ref,
        hi: Ref,
    ) -> Result<Ref, Stop>
        requires ascends { IsStrictlyIncreasing keep.now }
        requires can { CanMake (table self.old.arena) bit lo hi }
        requires known { AreAnswers (table self.old.arena) unions.old.entries }
        ensures joined { SidesJoined self.old self.new keep.now bit lo hi result }
        ensures known { OnOk result (AreAnswers (table self.new.arena) unions.new.entries) }
    {
        if is_kept(keep, bit) {
            self.node(bit, lo, hi)
        } else {
            self.union(lo, hi, unions)
        }
    }

    /// The words that are in `f` or in `g`, as `or`.
    fn union(&mut self, f: Ref, g: Ref, unions: &mut HashMap<Question, Ref>) -> Result<Ref, Stop>
        requires f_live { IsLive (table self.old.arena) f }
        requires g_live { IsLive (table self.old.arena) g }
        requires known { AreAnswers (table self.old.arena) unions.old.entries }
        ensures words { IfOk result (Denotes (table self.new.arena) (either (words_of self.old f) (words_of self.old g))) }
        ensures deep { IfOk result (IsAsDeep (table self.new.arena) f g) }
        ensures stays { Stays self.old self.new }
        ensures full { result ≡ Err Stop.Full → IsFull self.new }
        ensures parts { NewArePartsOf (table self.old.arena) (table self.new.arena) (either (words_of self.old f) (words_of self.old g)) }
        ensures known { OnOk result (AreAnswers (table self.new.arena) unions.new.entries) }
    {
        self.answer_below(Question::Combine(Op::Or, f, g), unions)
    }
}

/// Zero or One, where a product is that.
fn constant(p: Product) -> Option<Ref>
    ensures found { IfSome result (IsConstant p) }
    ensures open { IfNone result (IsOpen p) }
{
    match p {
        Product::Single(r) => match r {
            Ref::Zero => Some(r),
            Ref::One => Some(r),
            Ref::Node(_) => None,
        },
        Product::Both(_) => None,
    }
}

/// What is left of a bound at a bit; One where it asks an earlier bit.
fn bounds(arena: &Arena, bound: Ref, bit: u32) -> (Ref, Ref)
    requires { IsLive (table arena.now) bound }
    ensures { AreBounds (table arena.now) bound bit result.0 result.1 }
{
    match bound {
        Ref::Zero => split(arena, bound, bit),
        Ref::One => split(arena, bound, bit),
        Ref::Node(id) => {
            if arena.node(id).bit < bit {
                (Ref::One, Ref::One)
            } else {
                split(arena, bound, bit)
            }
        }
    }
}

/// Whether the union of both sides is seen to be that of the false side: it reaches the bound of the true side.
fn is_covered(keep: &[u32], step: Step, lo: Ref) -> bool
    requires { IsStrictlyIncreasing keep.now }
    ensures { IsTrue result → (among keep.now step.bit ≡ false) × (lo ≡ step.bound_hi) }
{
    if is_kept(keep, step.bit) {
        return false;
    }
    lo == step.bound_hi
}

/// One where there is some word, else Zero.
fn all_or_none(some: bool) -> Ref
    ensures { result ≡ cond some Ref.One Ref.Zero }
{
    if some { Ref::One } else { Ref::Zero }
}

/// Keeps a projection.
fn remember(done: &mut HashMap<Product, Ref>, p: Product, r: Ref) -> Result<(), AllocError>
    ensures { OnOk result ((q : Product) → lookup (same_product.it q) done.new.entries ≡ cond (same_product.it p q) (Some r) (lookup (same_product.it q) done.old.entries)) }
{
    done.insert(p, r)?;
    Ok(())
}

/// Whether the bit is kept.
fn is_kept(keep: &[u32], bit: u32) -> bool
    requires { IsStrictlyIncreasing keep.now }
    ensures { result ≡ among keep.now bit }
{
    match keep.binary_search(&bit) {
        Ok(_) => true,
        Err(_) => false,
    }
}

/// Whether a bit that is kept is this one or beyond it.
fn reaches(keep: &[u32], bit: u32) -> bool
    requires { IsStrictlyIncreasing keep.now }
    ensures { result ≡ false → (b : ℕ) → among keep.now b ≡ true → b < bit }
{
    !are_below(keep, bit)
}

/// Whether each bit that is kept is below this one.
fn are_below(keep: &[u32], bit: u32) -> bool
    requires { IsStrictlyIncreasing keep.now }
    ensures { IsTrue result → (b : ℕ) → among keep.now b ≡ true → b < bit }
{
    match keep.last() {
        Some(last) => *last < bit,
        None => true,
    }
}
