//! What the definitions say, for callers that reason about diagrams.
ghost use Rattle.std.specs.Prelude.{◌≡◌, ◌↔◌, ◌^◌, false, true};
ghost use Rattle.std.specs.Cmp.{IsTotalOrder};
ghost use Rattle.std.specs.FinMap.{IsAntisymmetric};
ghost use Rattle.diagram_arena.specs.declared.nodes.NodeId.{NodeId};
ghost use Rattle.diagram_arena.specs.declared.nodes.Ref.{Ref};
ghost use Rattle.diagram_arena.specs.declared.nodes.Triple.{Triple};
ghost use Rattle.diagram_arena.specs.Table.{Word, Words, Table, id_cmp, has, IsLive, depth, IsReduced};
ghost use Rattle.diagram_arena.specs.Part.{IsPartOf};
ghost use Rattle.diagram_arena.specs.Reach.{Bits, ReachesOnly, DependsOn};
ghost use Rattle.diagram_arena.specs.Arena.{Stands};

use crate::nodes::Ref;

/// Zero holds no word, One holds each, and both lie below every bit.
pub fn zero_and_one()
    ensures zero { (t : Table) (w : Word) → has t Ref.Zero w ≡ false }
    ensures one { (t : Table) (w : Word) → has t Ref.One w ≡ true }
    ensures below { (t : Table) → (depth t Ref.Zero ≡ 2 ^ 32) × (depth t Ref.One ≡ 2 ^ 32) }
{}

/// A set is a part of itself, a part of a part is a part, and a part depends only on bits that the
/// whole depends on.
pub fn parts_of_parts()
    ensures itself { (whole : Words) → IsPartOf whole whole }
    ensures again { (part middle whole : Words) → IsPartOf part middle → IsPartOf middle whole → IsPartOf part whole }
    ensures depends { (bits : Bits) (part whole : Words) → IsPartOf part whole → DependsOn bits whole → DependsOn bits part }
{}

/// Ids are in a total order, in which only equal ids tie.
pub fn ids_are_in_order()
    ensures total { IsTotalOrder id_cmp }
    ensures apart { IsAntisymmetric id_cmp }
{}

/// In a reduced table each node stands as `Arena::node` says, refs with the same words are one, and a
/// ref reaches just the bits that its words depend on (Bryant, IEEE Transactions on Computers, 1986).
pub fn reduced_tables()
    ensures stands { (t : Table) → IsReduced t → (i : NodeId) (n : Triple) → t i ≡ Some n → Stands t i n }
    ensures same_words { (t : Table) → IsReduced t → (f g : Ref) → IsLive t f → IsLive t g → ((w : Word) → has t f w ≡ has t g w) → f ≡ g }
    ensures reach { (t : Table) → IsReduced t → (r : Ref) → IsLive t r → (bits : Bits) → ReachesOnly t bits r ↔ DependsOn bits (has t r) }
{}
