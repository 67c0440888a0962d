//! What the words of pools say, for callers that reason about pools over several calls.
ghost use Rattle.std.specs.Prelude.{◌≡◌, ◌++◌, List};
ghost use Rattle.diagram_arena.specs.declared.nodes.Ref.{Ref};
ghost use Rattle.diagram_arena.specs.Table.{Words, Table, IsReduced};
ghost use Rattle.diagram_arena.specs.Part.{IsPartOf};
ghost use Rattle.diagram_arena.specs.Reach.{Bits, DependsOn};
ghost use Rattle.diagram_arena.specs.Arena.{table, Grows};
ghost use Rattle.node_reclaim.specs.Pool.{PoolState};
ghost use Rattle.node_reclaim.specs.Growth.{Stays, NewAre, NewArePartsOf, NewReachOnly};
ghost use Rattle.node_reclaim.specs.Holders.{Gains, AreHeld, KeepsPins, StaysButPins, MeansTheSame};
ghost use Rattle.node_reclaim.specs.Reclaim.{Reclaims};

use diagram_arena::{parts_of_parts, reduced_tables};

/// A pool stays as it is where nothing is done, and over two calls where it stays over each.
pub fn pools_grow()
    ensures itself { (s : PoolState) → IsReduced (table s.arena) → Stays s s }
    ensures again { (a b c : PoolState) → Stays a b → Stays b c → Stays a c }
{}

/// A type whose values stand for properties of sets of words, so that a law about the sets of new nodes can be read at any property.
pub trait SetProperty {
    // whether a set of words has it
    ghost holds: { Self → Words → Type 0 };
}

/// Where nothing is done no node is new, and what the sets of the new nodes of each of two calls are, those of both are.
pub fn news_add_up<P: SetProperty>(property: &P)
    ensures none { (t : Table) → NewAre t t (P.holds property.now) }
    ensures again { (t u v : Table) → Grows u v → NewAre t u (P.holds property.now) → NewAre u v (P.holds property.now) → NewAre t v (P.holds property.now) }
{
    let _ = property;
}

/// The same of parts of a set. New nodes that are parts of a set reach only bits that the set depends on.
pub fn new_parts_add_up()
    ensures none { (t : Table) (V : Words) → NewArePartsOf t t V }
    ensures again { (t u v : Table) (V : Words) → Grows u v → NewArePartsOf t u V → NewArePartsOf u v V → NewArePartsOf t v V }
    ensures wider { (t u : Table) (V W : Words) → IsPartOf V W → NewArePartsOf t u V → NewArePartsOf t u W }
    ensures reach { (t u : Table) (bits : Bits) (V : Words) → IsReduced u → DependsOn bits V → NewArePartsOf t u V → NewReachOnly t u bits }
{
    parts_of_parts();
    reduced_tables();
}

/// Refs that are pinned stay pinned while pools grow, pins add up, and meanings carry over.
pub fn pins_are_held()
    ensures gained { (a b c : PoolState) (rs qs : List Ref) → Gains a b rs → Gains b c qs → Gains a c (rs ++ qs) }
    ensures held { (a b : PoolState) (rs : List Ref) → Stays a b → AreHeld a rs → AreHeld b rs }
    ensures held_apart { (a b : PoolState) (rs : List Ref) → KeepsPins a b → AreHeld a rs → AreHeld b rs }
    ensures again { (a b c : PoolState) → StaysButPins a b → StaysButPins b c → StaysButPins a c }
    ensures meant { (t u v : Table) (rs : List Ref) → MeansTheSame t u rs → MeansTheSame u v rs → MeansTheSame t v rs }
{}

/// Every ref that is pinned stays after a reclamation, and means what it meant.
pub fn pinned_refs_are_kept()
    ensures { (old new : PoolState) (rs : List Ref) → Reclaims old new → AreHeld old rs → MeansTheSame (table old.arena) (table new.arena) rs }
{}
