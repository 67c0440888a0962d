//! Operations on the sets of words that refs denote (Bryant, IEEE Transactions on Computers, 1986), by
//! recursion over nodes.
ghost use Rattle.std.specs.Prelude.{◌≡◌, ◌+◌, ◌-◌, ◌^◌, ◌<◌, ◌≤◌, ◌↔◌, true, [], ◌∷◌, IsErr, IfOk, IfErr, OnOk, OnErr, IfSome, IfNone, IsTrue, MatchBool, min, cond, Some};
ghost use Rattle.std.specs.Map.{lookup};
ghost use Rattle.std.specs.FinMap as map;
ghost use Rattle.diagram_arena.specs.declared.nodes.Node.{Node};
ghost use Rattle.diagram_arena.specs.Table.{IsLive, IsReduced, depth};
ghost use Rattle.diagram_arena.specs.Reach.{Bits, ReachesOnly};
ghost use Rattle.diagram_arena.specs.Arena.{most_nodes, table, CanMake, IsNeeded, IsMade, Joins, ChangesNode};
ghost use Rattle.node_reclaim.specs.Pool.{pins_of, Pins, Unpins, IsPinned};
ghost use Rattle.node_reclaim.specs.Reclaim.{Reclaims};
ghost use Rattle.node_reclaim.specs.Growth.{IsFull, words_of, Stays, NewArePartsOf, NewReachOnly};
ghost use Rattle.diagram_ops.specs.Words.{both, either, without, complement, Lies, Leaves, HasNone, HasSome, words_with, joined, restricted, all_but, Denotes, IsAsDeep};
ghost use Rattle.diagram_ops.specs.declared.question.Question.{Question};
ghost use Rattle.diagram_ops.specs.contracts.question.QuestionPartialEq.TheImpl.{eq-value as same_question};
ghost use Rattle.diagram_ops.specs.Steps.{first, asked, AreLive, HasStep, IsAnswer, AreAnswers, IsStep, Answered};

use crate::question::{Op, Question};
use crate::settled::settled;
use crate::split::{first_bit, sides};
use diagram_arena::{NodeId, Ref, Stop};
use lru::LruCache;
use node_reclaim::{Pin, Pool};
use std::alloc::{AllocError, Global};
use std::collections::HashMap;
use std::marker::Model;
use std::num::NonZeroUsize;

/// A pool of nodes, and a memo of results that changes no answer.
///
/// A call that makes nodes may answer Full, where the pool holds as many nodes as its limit allows, or
/// Memory. After either, every node that was there stands with its mark, tag and pins; nodes that the
/// call had made by then may stay. No call but `collect` frees a node.
#[derive(Drop)]
pub struct Ops {
    alloc: Global,
    pool: Pool,
    memo: LruCache<Question, Ref>,
}

impl Model for Ops {
    ghost use Rattle.node_reclaim.specs.Pool.{PoolState, pool_code};

    ghost Value = { PoolState };

    ghost coded = { pool_code };

    ghost use Rattle.diagram_ops.specs.Memo.{IsOps};

    ghost view = { λ a. a.pool };

    ghost invariant = { IsOps };
}

impl Ops {
    /// A pool with no nodes, that will hold at most `limit` nodes: 1 to `MAX_LIMIT`. `cache` is the
    /// number of results to keep in mind from call to call, 1 to 1,000,000; within one call all are kept.
    /// An `Err` is want of memory.
    pub fn new(alloc: Global, limit: u32, cache: usize) -> Result<Ops, AllocError>
        requires some { 0 < limit }
        requires most { limit ≤ most_nodes }
        requires cache_some { 0 < cache }
        requires cache_most { cache ≤ 1000000 }
        ensures empty { IfOk result (λ o. o.arena ≡ record { nodes = map.empty; limit = limit }) }
        ensures unpinned { IfOk result (λ o. o.counts ≡ map.empty) }
    {
        let memo = match NonZeroUsize::new(cache) {
            Some(size) => LruCache::sparse(alloc, size)?,
            None => unreachable!(),
        };
        Ok(Ops {
            alloc,
            pool: Pool::new(alloc, limit),
            memo,
        })
    }

    /// A pin of `r`, which must be live, as `Pool::pin`: want of memory is also the answer where the node
    /// has 2^64 - 1 pins.
    pub fn pin(&mut self, r: Ref) -> Result<Pin, AllocError>
        requires { IsLive (table self.old.arena) r }
        ensures at { IfOk result (λ p. p ≡ r) }
        ensures pinned { OnOk result (Pins self.old self.new (r ∷ [])) }
        ensures most { (i : NodeId) → r ≡ Ref.Node i → pins_of self.old i ≡ 2 ^ 64 - 1 → IsErr result }
        ensures err { OnErr result (self.new ≡ self.old) }
    {
        self.pool.pin(r)
    }

    /// Spends a pin, whose node must have a pin in this pool: it has one pin less.
    pub fn unpin(&mut self, pin: Pin)
        requires { IsPinned self.old pin }
        ensures { Unpins self.old self.new (pin ∷ []) }
    {
        self.pool.unpin(pin);
    }

    /// Gives the node under `id`, which must be there, this tag; nothing else changes.
    pub fn set_tag(&mut self, id: NodeId, tag: u64)
        requires { IsLive (table self.old.arena) (Ref.Node id) }
        ensures tagged { ChangesNode self.old.arena self.new.arena id (λ (n : Node). record n { tag = tag }) }
        ensures table { table self.new.arena ≡ table self.old.arena }
        ensures only { self.new ≡ record self.old { arena = self.new.arena } }
    {
        self.pool.set_tag(id, tag);
    }

    /// All words whose `bit` has this value.
    pub fn literal(&mut self, bit: u32, value: bool) -> Result<Ref, Stop>
        ensures words { IfOk result (Denotes (table self.new.arena) (words_with bit value)) }
        ensures deep { IfOk result (λ r. bit ≤ depth (table self.new.arena) r) }
        ensures stays { Stays self.old self.new }
        ensures full { result ≡ Err Stop.Full → IsFull self.new }
        ensures parts { NewArePartsOf (table self.old.arena) (table self.new.arena) (words_with bit value) }
        ensures asks { (bits : Bits) → bits bit ≡ true → IfOk result (ReachesOnly (table self.new.arena) bits) }
        ensures reach { (bits : Bits) → bits bit ≡ true → NewReachOnly (table self.old.arena) (table self.new.arena) bits }
    {
        if value {
            self.node(bit, Ref::Zero, Ref::One)
        } else {
            self.node(bit, Ref::One, Ref::Zero)
        }
    }

    /// All words that are not in `f`, which must be live.
    pub fn not(&mut self, f: Ref) -> Result<Ref, Stop>
        requires { IsLive (table self.old.arena) f }
        ensures words { IfOk result (Denotes (table self.new.arena) (complement (words_of self.old f))) }
        ensures deep { IfOk result (λ r. depth (table self.old.arena) f ≤ depth (table self.new.arena) r) }
        ensures stays { Stays self.old self.new }
        ensures full { result ≡ Err Stop.Full → IsFull self.new }
        ensures parts { NewArePartsOf (table self.old.arena) (table self.new.arena) (complement (words_of self.old f)) }
        ensures asks { (bits : Bits) → ReachesOnly (table self.old.arena) bits f → IfOk result (ReachesOnly (table self.new.arena) bits) }
        ensures reach { (bits : Bits) → ReachesOnly (table self.old.arena) bits f → NewReachOnly (table self.old.arena) (table self.new.arena) bits }
    {
        self.answer(Question::Combine(Op::Diff, Ref::One, f))
    }

    /// The words that are in `f` and in `g`, which must be live.
    pub fn and(&mut self, f: Ref, g: Ref) -> Result<Ref, Stop>
        requires f_live { IsLive (table self.old.arena) f }
        requires g_live { IsLive (table self.old.arena) g }
        ensures words { IfOk result (Denotes (table self.new.arena) (both (words_of self.old f) (words_of self.old g))) }
        ensures deep { IfOk result (IsAsDeep (table self.new.arena) f g) }
        ensures stays { Stays self.old self.new }
        ensures full { result ≡ Err Stop.Full → IsFull self.new }
        ensures parts { NewArePartsOf (table self.old.arena) (table self.new.arena) (both (words_of self.old f) (words_of self.old g)) }
        ensures asks { (bits : Bits) → ReachesOnly (table self.old.arena) bits f → ReachesOnly (table self.old.arena) bits g → IfOk result (ReachesOnly (table self.new.arena) bits) }
        ensures reach { (bits : Bits) → ReachesOnly (table self.old.arena) bits f → ReachesOnly (table self.old.arena) bits g → NewReachOnly (table self.old.arena) (table self.new.arena) bits }
    {
        self.answer(Question::Combine(Op::And, f, g))
    }

    /// The words that are in `f` or in `g`, which must be live.
    pub fn or(&mut self, f: Ref, g: Ref) -> Result<Ref, Stop>
        requires f_live { IsLive (table self.old.arena) f }
        requires g_live { IsLive (table self.old.arena) g }
        ensures words { IfOk result (Denotes (table self.new.arena) (either (words_of self.old f) (words_of self.old g))) }
        ensures deep { IfOk result (IsAsDeep (table self.new.arena) f g) }
        ensures stays { Stays self.old self.new }
        ensures full { result ≡ Err Stop.Full → IsFull self.new }
        ensures parts { NewArePartsOf (table self.old.arena) (table self.new.arena) (either (words_of self.old f) (words_of self.old g)) }
        ensures asks { (bits : Bits) → ReachesOnly (table self.old.arena) bits f → ReachesOnly (table self.old.arena) bits g → IfOk result (ReachesOnly (table self.new.arena) bits) }
        ensures reach { (bits : Bits) → ReachesOnly (table self.old.arena) bits f → ReachesOnly (table self.old.arena) bits g → NewReachOnly (table self.old.arena) (table self.new.arena) bits }
    {
        self.answer(Question::Combine(Op::Or, f, g))
    }

    /// The words that are in `f` and not in `g`, which must be live.
    pub fn diff(&mut self, f: Ref, g: Ref) -> Result<Ref, Stop>
        requires f_live { IsLive (table self.old.arena) f }
        requires g_live { IsLive (table self.old.arena) g }
        ensures words { IfOk result (Denotes (table self.new.arena) (without (words_of self.old f) (words_of self.old g))) }
        ensures deep { IfOk result (IsAsDeep (table self.new.arena) f g) }
        ensures stays { Stays self.old self.new }
        ensures full { result ≡ Err Stop.Full → IsFull self.new }
        ensures parts { NewArePartsOf (table self.old.arena) (table self.new.arena) (without (words_of self.old f) (words_of self.old g)) }
        ensures asks { (bits : Bits) → ReachesOnly (table self.old.arena) bits f → ReachesOnly (table self.old.arena) bits g → IfOk result (ReachesOnly (table self.new.arena) bits) }
        ensures reach { (bits : Bits) → ReachesOnly (table self.old.arena) bits f → ReachesOnly (table self.old.arena) bits g → NewReachOnly (table self.old.arena) (table self.new.arena) bits }
    {
        self.answer(Question::Combine(Op::Diff, f, g))
    }

    /// The words that are in `f` once their `bit` is set to `value` (Bryant's restriction): of the words of
    /// `f` with this value, those with the other one too. `f` must be live, and need not ask the bit.
    pub fn restrict(&mut self, f: Ref, bit: u32, value: bool) -> Result<Ref, Stop>
        requires { IsLive (table self.old.arena) f }
        ensures words { IfOk result (Denotes (table self.new.arena) (restricted (words_of self.old f) bit value)) }
        ensures deep { IfOk result (λ r. depth (table self.old.arena) f ≤ depth (table self.new.arena) r) }
        ensures stays { Stays self.old self.new }
        ensures full { result ≡ Err Stop.Full → IsFull self.new }
        ensures parts { NewArePartsOf (table self.old.arena) (table self.new.arena) (restricted (words_of self.old f) bit value) }
        ensures asks { (bits : Bits) → ReachesOnly (table self.old.arena) bits f → IfOk result (ReachesOnly (table self.new.arena) (all_but bit bits)) }
        ensures reach { (bits : Bits) → ReachesOnly (table self.old.arena) bits f → NewReachOnly (table self.old.arena) (table self.new.arena) (all_but bit bits) }
    {
        self.answer(Question::Restrict(f, bit, value))
    }

    /// Whether every word of `f` is in `g`, which must be live. No node is made, and the search ends with the
    /// first word that is not. An `Err` is want of memory.
    pub fn inside(&mut self, f: Ref, g: Ref) -> Result<bool, Stop>
        requires f_live { IsLive (table self.old.arena) f }
        requires g_live { IsLive (table self.old.arena) g }
        ensures inside { IfOk result (λ holds. MatchBool holds (Lies (words_of self.old f) (words_of self.old g)) (Leaves (words_of self.old f) (words_of self.old g))) }
        ensures same { self.new ≡ self.old }
        ensures memory { IfErr result (λ stop. stop ≡ Stop.Memory) }
    {
        let mut done = HashMap::new(self.alloc);
        let leaves = self.asks_some(Question::Combine(Op::Diff, f, g), &mut done)?;
        Ok(!leaves)
    }

    /// Begins a unit of work: nodes are reclaimed between units. The count of units stops rising at 2^64 - 1.
    pub fn begin_unit(&mut self)
        ensures units { self.new.units ≡ min (self.old.units + 1) (2 ^ 64 - 1) }
        ensures only { self.new ≡ record self.old { units = self.new.units } }
    {
        self.pool.begin_unit();
    }

    /// Empties the memo and frees each node that no pin reaches, as `Pool::reclaim`. No memory is taken.
    pub fn collect(&mut self)
        ensures { Reclaims self.old self.new }
    {
        self.memo.clear();
        self.pool.reclaim();
    }

    /// The nodes and their pins.
    pub fn pool(&self) -> &Pool
        ensures pool { result.now ≡ self.now }
        ensures reduced { IsReduced (table self.now.arena) }
        ensures pinned_live { (i : NodeId) → 0 < pins_of self.now i → IsLive (table self.now.arena) (Ref.Node i) }
    {
        // What is known of the pins.
        let _ = self.pool.arena();
        &self.pool
    }

    /// The nodes and their pins, without the memo.
    pub fn into_pool(self) -> Pool
        ensures { result ≡ self }
    {
        let Ops {
            alloc: _,
            pool,
            memo: _,
        } = self;
        pool
    }

    /// The ref of the words in `hi` whose `bit` is true and those in `lo` whose `bit` is false, as
    /// `Pool::make`. Both must be live and ask only greater bits. After a refusal nothing has changed.
    pub fn node(&mut self, bit: u32, lo: Ref, hi: Ref) -> Result<Ref, Stop>
        requires { CanMake (table self.old.arena) bit lo hi }

        // What is answered, and why it is refused.
        ensures made { IfOk result (IsMade self.old.arena self.new.arena bit lo hi) }
        ensures full { (result ≡ Err Stop.Full) ↔ (IsNeeded (table self.old.arena) bit lo hi × (IsFull self.old)) }
        ensures needed { OnErr result (IsNeeded (table self.old.arena) bit lo hi) }
        ensures err { OnErr result (self.new ≡ self.old) }

        // What it means.
        ensures joins { IfOk result (Joins (table self.old.arena) (table self.new.arena) bit lo hi) }
        ensures only_new { (i : NodeId) → table self.old.arena i ≡ None → IsLive (table self.new.arena) (Ref.Node i) → result ≡ Ok (Ref.Node i) }
        ensures stays { Stays self.old self.new }
        ensures parts { NewArePartsOf (table self.old.arena) (table self.new.arena) (joined bit (words_of self.old lo) (words_of self.old hi)) }
        ensures asks { (bits : Bits) → bits bit ≡ true → ReachesOnly (table self.old.arena) bits lo → ReachesOnly (table self.old.arena) bits hi → IfOk result (ReachesOnly (table self.new.arena) bits) }
        ensures reach { (bits : Bits) → bits bit ≡ true → ReachesOnly (table self.old.arena) bits lo → ReachesOnly (table self.old.arena) bits hi → NewReachOnly (table self.old.arena) (table self.new.arena) bits }
    {
        self.pool.make(bit, lo, hi)
    }

    /// The allocator of the tables.
    pub(crate) fn allocator(&self) -> Global {
        self.alloc
    }

    /// The answer, if no step is needed, `done` has it or the memo has it.
    fn known(&self, question: Question, done: &HashMap<Question, Ref>) -> Option<Ref>
        requires live { AreLive (table self.now.arena) question }
        requires known { AreAnswers (table self.now.arena) done.now.entries }
        ensures found { IfSome result (IsAnswer (table self.now.arena) question) }
        ensures step { IfNone result (HasStep (table self.now.arena) question) }
        ensures reduced { IsReduced (table self.now.arena) }
    {
        // What is known of the nodes.
        let _ = self.pool();
        match settled(self.pool.arena(), question) {
            Some(r) => Some(r),
            None => match done.get(&question).copied() {
                Some(r) => Some(r),
                None => self.recall(question),
            },
        }
    }

    /// The answer, if the memo has it.
    fn recall(&self, question: Question) -> Option<Ref>
        ensures found { IfSome result (IsAnswer (table self.now.arena) question) }
        ensures reduced { IsReduced (table self.now.arena) }
    {
        self.memo.peek(&question).copied()
    }

    /// Keeps an answer for later calls. Where memory is wanting it is forgotten.
    fn keep(&mut self, question: Question, r: Ref)
        requires { IsAnswer (table self.old.arena) question r }
        ensures { self.new ≡ self.old }
    {
        let _ = self.memo.put(question, r);
    }

    /// The answer.
    fn answer(&mut self, question: Question) -> Result<Ref, Stop>
        requires { AreLive (table self.old.arena) question }
        ensures { Answered self.old self.new question result }
    {
        let mut done = HashMap::new(self.alloc);
        self.answer_below(question, &mut done)
    }

    /// The answer, by recursion over the nodes of the question's refs. `done` has those of this call, so that
    /// no question is answered twice however few the memo keeps.
    pub(crate) fn answer_below(
        &mut self,
        question: Question,
        done: &mut HashMap<Question, Ref>,
    ) -> Result<Ref, Stop>
        requires live { AreLive (table self.old.arena) question }
        requires known { AreAnswers (table self.old.arena) done.old.entries }
        ensures left { Answered self.old self.new question result }
        ensures known { OnOk result (AreAnswers (table self.new.arena) done.new.entries) }
    {
        match self.known(question, done) {
            Some(r) => Ok(r),
            None => {
                let bit = self.first_bit(question);
                let (on_false, on_true) = self.sides(question, bit);
                let lo = self.answer_below(on_false, done)?;
                let hi = self.answer_below(on_true, done)?;
                let r = self.node(bit, lo, hi)?;
                remember(done, question, r)?;
                self.keep(question, r);
                Ok(r)
            }
        }
    }

    /// Whether a question asks for some word, by the same recursion: no node is made. Where it asks for none,
    /// `done` has Zero as its answer.
    fn asks_some(
        &self,
        question: Question,
        done: &mut HashMap<Question, Ref>,
    ) -> Result<bool, AllocError>
        requires live { AreLive (table self.now.arena) question }
        requires known { AreAnswers (table self.now.arena) done.old.entries }
        ensures some { IfOk result (λ some. MatchBool some (HasSome (asked (table self.now.arena) question)) (HasNone (asked (table self.now.arena) question))) }
        ensures known { OnOk result (AreAnswers (table self.now.arena) done.new.entries) }
    {
        match self.known(question, done) {
            Some(r) => Ok(!is_zero(r)),
            None => {
                let bit = self.first_bit(question);
                let (on_false, on_true) = self.sides(question, bit);
                if self.asks_some(on_false, done)? {
                    return Ok(true);
                }
                if self.asks_some(on_true, done)? {
                    return Ok(true);
                }
                remember(done, question, Ref::Zero)?;
                Ok(false)
            }
        }
    }

    /// The first bit that a question asks.
    fn first_bit(&self, question: Question) -> u32
        requires live { AreLive (table self.now.arena) question }
        requires step { HasStep (table self.now.arena) question }
        ensures { result ≡ first (table self.now.arena) question }
    {
        first_bit(self.pool.arena(), question)
    }

    /// What is left of a question once its first bit is false, and once it is true.
    fn sides(&self, question: Question, bit: u32) -> (Question, Question)
        requires live { AreLive (table self.now.arena) question }
        requires step { HasStep (table self.now.arena) question }
        requires at { bit ≡ first (table self.now.arena) question }
        ensures { IsStep (table self.now.arena) question bit result.0 result.1 }
    {
        sides(self.pool.arena(), question, bit)
    }
}

/// Keeps an answer for the rest of a call.
fn remember(done: &mut HashMap<Question, Ref>, question: Question, r: Ref) -> Result<(), AllocError>
    ensures { OnOk result ((q : Question) → lookup (same_question.it q) done.new.entries ≡ cond (same_question.it question q) (Some r) (lookup (same_question.it q) done.old.entries)) }
{
    done.insert(question, r)?;
    Ok(())
}

pub(crate) fn is_zero(r: Ref) -> bool
    ensures { IsTrue result ↔ (r ≡ Ref.Zero) }
{
    r == Ref::Zero
}
