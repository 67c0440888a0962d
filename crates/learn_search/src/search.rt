//! A search: its problem, its nodes, and how it ended.
ghost use Rattle.std.specs.Prelude.{◌≡◌, ◌↔◌, ◌<◌, ◌≤◌, List, [], true, false, Ok, Err, Some, None, IsSome, IfSome, IfOk, IfErr, OnOk};
ghost use Rattle.std.specs.Prelude.{OnErr, IsFalse};
ghost use Rattle.std.specs.FinMap as map;
ghost use Rattle.set_meaning.specs.declared.problems.Problem.{Problem as AnyProblem};
ghost use Rattle.set_meaning.specs.declared.problems.Goal.TheVariants as Goal;
ghost use Rattle.diagram_arena.specs.Arena.{most_nodes};
ghost use Rattle.node_reclaim.specs.Pool.{PoolState};
ghost use Rattle.problem_limits.specs.Limits.{KeepsLimits};
ghost use Rattle.diagram_arena.specs.declared.nodes.Ref.{Ref as AnyRef};
ghost use Rattle.diagram_arena.specs.Arena.{table};
ghost use Rattle.node_reclaim.specs.Holders.{AreHeld, MeansTheSame};
ghost use Rattle.pin_lists.specs.Units.{AllAre};
ghost use Rattle.learn_search.specs.Nodes.{IsOfRoot};
ghost use Rattle.learn_search.specs.Roots.{IsRootOf};
ghost use Rattle.learn_search.specs.Founds.{IsFoundOf, given_with, is_complete};
ghost use Rattle.node_reclaim.specs.Growth.{IsFull};
ghost use Rattle.learn_search.specs.Searches.{IsLastOf};
ghost use Rattle.learn_search.specs.Standings.{StandsAfter};
ghost use Rattle.node_reclaim.specs.Holders.{KeepsPins};
ghost use Rattle.learn_search.specs.Pinned.{PinsAfterEnd, PinsAfterStop};

use crate::advancing::advance;
use crate::beginning::Begun;
use crate::root::root_of;
use desk::Desk;
use diagram_arena::{Ref, Stop};
use diagram_ops::Ops;
use node_reclaim::Pool;
use refute_log::LogWriter;
use set_meaning::{Bounds, Problem, Value};
use std::alloc::{AllocError, Global};
use std::marker::Model;

/// How many results of set operations are kept in mind.
const CACHE: usize = 262_144;

/// What was found at the root.
#[derive(Drop)]
pub enum RootFound {
    /// For each variable, in file order, the bounds of the values that it has in the root family, and the number of nodes of the diagram of
    /// these values over the variable's own bits. Bounds are the least and the greatest value, with false before true, or for sets the
    /// elements of every value and those of some value.
    Family(Vec<(Bounds, u64)>),
    /// Some variable has no value in the root family, or a constraint without variables is false. So there is no solution.
    Unsatisfiable,
}

/// What `next` found.
#[derive(Drop)]
pub enum Found {
    /// The values of the next answer, one for each variable, in file order.
    Answer(Vec<Value>),
    /// The answers given cover every solution.
    Complete,
}

/// Why a search answered nothing.
#[derive(Clone, Copy, Debug, PartialEq, Eq)]
pub enum SearchEnd {
    /// So many boxes were learned as the search was to learn at most.
    Conflicts,
    /// There are as many nodes as the limit allows, and one more was wanted.
    Nodes,
    /// Want of memory.
    Memory,
    /// An earlier call was refused.
    Ended,
}

/// Why a search was given up without its last state.
#[derive(Clone, Copy, Debug, PartialEq, Eq)]
pub enum StopFault {
    /// The log could not be ended. It does not come as long as there is none.
    Failed,
    /// Want of memory.
    Memory,
}

/// What a search had where its nodes ran out.
#[derive(Drop)]
pub struct LastState {
    /// The nodes.
    pub pool: Pool,
    /// The refs that are pinned in the pool, by rising id, each as often as it is pinned.
    pub named: Vec<Ref>,
}

/// A search that was not begun, for want of memory, with its writer unchanged.
#[derive(Drop)]
pub struct NotBegun {
    pub log: LogWriter,
}

/// A search for the solutions of a problem. After a call that was refused `next` and `root` answer Ended, and `stop` or
/// `release` gives back everything.
#[derive(Drop)]
pub struct Search {
    alloc: Global,
    problem: Problem,
    conflicts: Option<u64>,
    log: LogWriter,
    ops: Ops,
    begun: Option<Begun>,
    answers: Vec<Vec<Value>>,
    complete: bool,
    searched: bool,
    learned: u64,
    ended: Option<SearchEnd>,
}

impl Model for Search {
    ghost use Rattle.learn_search.specs.Searches.{SearchState, search_code};
    ghost use Rattle.learn_search.specs.Keeping.{IsKept};

    ghost Value = { SearchState };

    ghost coded = { search_code };

    ghost use Rattle.std.specs.Prelude.{map};

    ghost view = { λ a. record {
      problem = a.problem;
      pool = a.ops;
      answers = map (λ values. values.items) a.answers.items;
      complete = a.complete;
      searched = a.searched;
      conflicts = a.conflicts;
      learned = a.learned;
      ended = a.ended;
    } };

    ghost invariant = { λ a. IsKept (record {
      problem = a.problem;
      pool = a.ops;
      answers = map (λ values. values.items) a.answers.items;
      complete = a.complete;
      searched = a.searched;
      conflicts = a.conflicts;
      learned = a.learned;
      ended = a.ended;
    }) a.begun };
}

impl Search {
    /// A search for the solutions of `p`, which makes at most `nodes` nodes, 1 to 20,000,000, and meets at most `conflicts` conflicts,
    /// if a number is given, 1 or more; `root` meets none. `log` is off. Nothing is compiled yet. An `Err` is want of memory; none comes yet.
    pub fn new(
        alloc: Global,
        p: Problem,
        nodes: u32,
        conflicts: Option<u64>,
        log: LogWriter,
    ) -> Result<Search, NotBegun>
        requires limits { KeepsLimits p }
        requires some { 0 < nodes }
        requires most { nodes ≤ most_nodes }
        requires conflicts { IfSome conflicts (λ n. 0 < n) }
        requires off { IsFalse log.on }
        ensures problem { IfOk result (λ s. s.problem ≡ p) }
        ensures empty { IfOk result (λ s. s.pool.arena ≡ record { nodes = map.empty; limit = nodes }) }
        ensures unpinned { IfOk result (λ s. s.pool.counts ≡ map.empty) }
        ensures begun { IfOk result (λ s. s.ended ≡ None) }
        ensures unsearched { IfOk result (λ s. s.searched ≡ false) }
        ensures answers { IfOk result (λ s. s.answers ≡ []) }
        ensures incomplete { IfOk result (λ s. s.complete ≡ false) }
        ensures capped { IfOk result (λ s. s.conflicts ≡ conflicts) }
        ensures writer { IfErr result (λ e. e.log ≡ log) }
    {
        match Ops::new(alloc, nodes, CACHE) {
            Ok(ops) => Ok(Search {
                alloc,
                problem: p,
                conflicts,
                log,
                ops,
                begun: None,
                answers: Vec::new(alloc),
                complete: false,
                searched: false,
                learned: 0,
                ended: None,
            }),
            Err(_) => Err(NotBegun { log }),
        }
    }

    /// The problem that was handed in. Takes no memory.
    pub fn problem(&self) -> &Problem
        ensures { result.now ≡ self.now.problem }
    {
        &self.problem
    }

    /// The root family: for each variable, in file order, the bounds of its values there and the number of nodes of their diagram. Or
    /// that the root is refuted. It may be asked again, and then compiles again.
    ///
    /// A constraint is taken at first, and again after another one has taken values of a variable of its scope. So it is taken at most once
    /// for each initial value of its variables, and once more. The initial domains, the constraints and every domain on the way are
    /// diagrams; over k bits a diagram has fewer than 2^k nodes. A unit is one initial domain, one constraint's compilation or one step.
    /// Where a unit finds no room, the nodes that no pin reaches are freed and the unit is tried once more; a second refusal is Nodes. Each
    /// node that is made is wanted for a unit.
    ///
    /// After Ok and Memory each node has as many pins as before. After Nodes what was compiled and the domains on the way stay pinned, so that
    /// `stop` can say what the nodes were for. Conflicts do not count here, and the desk is not called.
    pub fn root<D: Desk>(&mut self, desk: &mut D) -> Result<RootFound, SearchEnd>
        requires unsearched { self.old.searched ≡ false }
        ensures means { IfOk result (IsRootOf self.old.problem) }

        // When each refusal comes, and what a search that was refused says from then on.
        ensures after_end { (result ≡ Err SearchEnd.Ended) ↔ IsSome self.old.ended }
        ensures nodes { result ≡ Err SearchEnd.Nodes → IsFull self.new.pool }
        ensures conflicts { result ≡ Err SearchEnd.Conflicts → ⊥ }
        ensures going_on { OnOk result (self.new.ended ≡ None) }
        ensures first { (e : SearchEnd) → self.old.ended ≡ None → result ≡ Err e → self.new.ended ≡ Some e }
        ensures later { (e : SearchEnd) → self.old.ended ≡ Some e → self.new.ended ≡ Some e }

        // What is pinned.
        ensures pins { OnOk result (KeepsPins self.old.pool self.new.pool) }
        ensures stopped { IfErr result (PinsAfterEnd self.old.problem self.old.pool self.new.pool) }

        // What stays.
        ensures problem { self.new.problem ≡ self.old.problem }
        ensures unsearched { self.new.searched ≡ false }
        ensures answers { self.new.answers ≡ self.old.answers }
        ensures capped { self.new.conflicts ≡ self.old.conflicts }
        ensures limit { self.new.pool.arena.limit ≡ self.old.pool.arena.limit }
        ensures kept { (rs : List AnyRef) → AreHeld self.old.pool rs → MeansTheSame (table self.old.pool.arena) (table self.new.pool.arena) rs }
        ensures wanted { AllAre (table self.old.pool.arena) (table self.new.pool.arena) (IsOfRoot self.old.problem) }
        ensures refused { result ≡ Err SearchEnd.Ended → self.new ≡ self.old }
        ensures told { D.state desk.new ≡ D.state desk.old }
        ensures faults { D.faults desk.new ≡ D.faults desk.old }
    {
        let _ = desk;
        // What holds of every pool.
        let _ = self.ops.pool();
        if self.ended.is_some() {
            return Err(SearchEnd::Ended);
        }
        match root_of(self.alloc, &self.problem, &mut self.ops) {
            Ok(found) => Ok(found),
            Err(stop) => {
                let end = end_of(stop);
                self.ended = Some(end);
                Err(end)
            }
        }
    }

    /// The next answer, or that the answers given cover every solution; then it says so again at each further call. The goal must be
    /// `satisfy`. After any `Err` it answers Ended.
    ///
    /// Conflicts: so many boxes were learned as the search was to learn at most. Nodes: a unit of work found no room for a node, and
    /// none after the nodes that no pin reaches were freed; a unit is one initial domain, one constraint's compilation, one step, one box
    /// step, one reason box with its resolvent, or one decision. The answers are kept in memory.
    pub fn next<D: Desk>(&mut self, desk: &mut D) -> Result<Found, SearchEnd>
        requires satisfy { self.old.problem.goal ≡ Goal.Satisfy }
        ensures means { IfOk result (IsFoundOf self.old.problem self.old.answers) }
        ensures given { IfOk result (λ found. self.new.answers ≡ given_with self.old.answers found) }
        ensures complete { IfOk result (λ found. self.new.complete ≡ is_complete found) }
        ensures legal { IfOk result (λ found.
            StandsAfter self.old.problem self.new.pool (given_with self.old.answers found) found) }
        ensures again { self.old.ended ≡ None → self.old.complete ≡ true → result ≡ Ok Found.Complete }

        // When each refusal comes, and what a search that was refused says from then on.
        ensures after_end { (result ≡ Err SearchEnd.Ended) ↔ IsSome self.old.ended }
        ensures nodes { result ≡ Err SearchEnd.Nodes → IsFull self.new.pool }
        ensures conflicts { result ≡ Err SearchEnd.Conflicts → self.new.conflicts ≡ Some self.new.learned }
        ensures going_on { OnOk result (self.new.ended ≡ None) }
        ensures first { (e : SearchEnd) → self.old.ended ≡ None → result ≡ Err e → self.new.ended ≡ Some e }
        ensures later { (e : SearchEnd) → self.old.ended ≡ Some e → self.new.ended ≡ Some e }
        ensures ungiven { OnErr result (self.new.answers ≡ self.old.answers) }

        // What stays.
        ensures problem { self.new.problem ≡ self.old.problem }
        ensures capped { self.new.conflicts ≡ self.old.conflicts }
        ensures limit { self.new.pool.arena.limit ≡ self.old.pool.arena.limit }
        ensures refused { result ≡ Err SearchEnd.Ended → self.new ≡ self.old }
        ensures told { D.state desk.new ≡ D.state desk.old }
        ensures faults { D.faults desk.new ≡ D.faults desk.old }
    {
        let _ = desk;
        // What holds of every pool.
        let _ = self.ops.pool();
        if self.ended.is_some() {
            return Err(SearchEnd::Ended);
        }
        if self.complete {
            return Ok(Found::Complete);
        }
        self.searched = true;
        match advance(
            self.alloc,
            &self.problem,
            &mut self.ops,
            &mut self.begun,
            &mut self.answers,
            self.conflicts,
            &mut self.learned,
        ) {
            Ok(Found::Answer(values)) => Ok(Found::Answer(values)),
            Ok(Found::Complete) => {
                self.complete = true;
                Ok(Found::Complete)
            }
            Err(refused) => {
                self.ended = Some(refused);
                Err(refused)
            }
        }
    }

    /// Gives up the search. Where it answers Ok, this is Some exactly where the first refusal was Nodes: then the pool holds as many nodes as
    /// its limit allows. The list of what is pinned takes memory, else nothing does. Failed does not come, since there is no log. The desk
    /// is not called.
    pub fn stop<D: Desk>(self, desk: &mut D) -> Result<Option<LastState>, StopFault>
        ensures last { IfOk result (IsLastOf self) }
        ensures full { self.ended ≡ Some SearchEnd.Nodes → IsFull self.pool }
        ensures failed { result ≡ Err StopFault.Failed → ⊥ }
        ensures told { D.state desk.new ≡ D.state desk.old }
        ensures faults { D.faults desk.new ≡ D.faults desk.old }
    {
        let _ = desk;
        match self.ended {
            Some(SearchEnd::Nodes) => match self.ops.pool().pinned(self.alloc) {
                Ok(named) => Ok(Some(LastState {
                    pool: self.ops.into_pool(),
                    named,
                })),
                Err(_) => Err(StopFault::Memory),
            },
            _ => Ok(None),
        }
    }

    /// Gives up the search, and with it all its nodes. Takes no memory.
    pub fn release(self) {}
}

/// What a search says that was refused for this.
fn end_of(stop: Stop) -> SearchEnd
    ensures nodes { result ≡ SearchEnd.Nodes → stop ≡ Stop.Full }
    ensures conflicts { result ≡ SearchEnd.Conflicts → ⊥ }
    ensures ended { result ≡ SearchEnd.Ended → ⊥ }
    ensures pins { (p : AnyProblem) (old new : PoolState) → PinsAfterStop p old new stop → PinsAfterEnd p old new result }
{
    match stop {
        Stop::Full => SearchEnd::Nodes,
        Stop::Memory => SearchEnd::Memory,
    }
}
