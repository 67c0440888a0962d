//! What the words of the writer's calls say of logs, for callers that reason over several calls.
ghost use Rattle.std.specs.Prelude.{◌≡◌, ◌<◌, ℕ, List, [], ◌∷◌, ◌++◌, length, Some, IsSome};
ghost use Rattle.std.specs.List.{AllByRecursion};
ghost use Rattle.std.specs.FinMap as map;
ghost use Rattle.set_meaning.specs.declared.kinds.Value.{Value};
ghost use Rattle.set_meaning.specs.declared.problems.ConId.{ConId};
ghost use Rattle.set_meaning.specs.declared.problems.VarId.{VarId};
ghost use Rattle.bit_layout.specs.Order.{LayoutState};
ghost use Rattle.diagram_arena.specs.declared.nodes.NodeId.{NodeId};
ghost use Rattle.diagram_arena.specs.declared.nodes.Node.{Node as Stored};
ghost use Rattle.diagram_arena.specs.declared.nodes.Ref.{Ref};
ghost use Rattle.diagram_arena.specs.Table.{Table, IsLive, IsReduced};
ghost use Rattle.diagram_arena.specs.Reach.{ReachesOnly};
ghost use Rattle.diagram_arena.specs.Arena.{ArenaState, table};
ghost use Rattle.node_reclaim.specs.Pool.{PoolState};
ghost use Rattle.node_reclaim.specs.Growth.{Stays};
ghost use Rattle.node_reclaim.specs.Reclaim.{Reclaims};
ghost use Rattle.log_text.specs.declared.line.Line.{Line};
ghost use Rattle.log_text.specs.declared.line.Line.TheVariants as lines;
ghost use Rattle.log_text.specs.Spelling.{HasSpelling, IsLog};
ghost use Rattle.log_rules.specs.declared.nodes.Node.{Node};
ghost use Rattle.log_rules.specs.Tables.{IsTable};
ghost use Rattle.log_rules.specs.Boxes.{IsSide, AreSides};
ghost use Rattle.log_rules.specs.States.{state_of, table_of, box_in};
ghost use Rattle.log_rules.specs.Rules.{HasScope, IsAxiom, IsResolved, IsNewAnswer, IsAnswerBox, HoldsEverything};
ghost use Rattle.log_rules.specs.Logs.{IsValidLine, AreValid};
ghost use Rattle.refute_log.specs.Writer.{WriterState, begun, one_box, one_learned, more_nodes};
ghost use Rattle.refute_log.specs.Lines.{text_of, numbered, axiom_line, answer_line, resolvent_line, node_lines, Follows};
ghost use Rattle.refute_log.specs.Naming.{bits_of, Names, IsNumbered};

use set_meaning::Problem;

/// A law: the lines that a writer writes are valid after a log with which it goes on, by what the caller knows of the
/// sides. Of an axiom this is that no initial values in the sides satisfy the constraint; of a resolvent that the box
/// lies in that of the two it names.
pub fn lines_are_valid(p: &Problem)
    ensures header { IsValidLine p.now [] lines.Header }
    ensures nodes { (w : WriterState) (log : List Line) (more : List Node)
        → Follows w log → AreValid p.now log → IsTable (table_of log ++ more)
        → AreValid p.now (log ++ node_lines w.next_node more) }
    ensures axiom { (w : WriterState) (log : List Line) (constraint : ConId) (sides : List (VarId × ℕ))
        → Follows w log → AreSides p.now.kinds (state_of log).table (numbered sides)
        → HasScope p.now (axiom_line w.next_box constraint sides)
        → IsAxiom p.now (state_of log) (axiom_line w.next_box constraint sides)
        → IsValidLine p.now log (axiom_line w.next_box constraint sides) }
    ensures answer { (w : WriterState) (log : List Line) (values : List Value) (sides : List (VarId × ℕ))
        → Follows w log → AreSides p.now.kinds (state_of log).table (numbered sides)
        → IsNewAnswer p.now (state_of log) (answer_line w.next_box values sides)
        → IsAnswerBox p.now (state_of log) (answer_line w.next_box values sides)
        → IsValidLine p.now log (answer_line w.next_box values sides) }
    ensures resolvent { (w : WriterState) (log : List Line) (left right : ℕ) (pivot : VarId)
        (sides : List (VarId × ℕ))
        → Follows w log → AreSides p.now.kinds (state_of log).table (numbered sides)
        → pivot.0 < length p.now.kinds
        → left < w.next_box → right < w.next_box
        → IsResolved p.now (state_of log) (resolvent_line w.next_box left right pivot sides)
        → IsValidLine p.now log (resolvent_line w.next_box left right pivot sides) }
    ensures learned { (w : WriterState) (log : List Line) (k : ℕ) → Follows w log → k < w.next_box
        → IsValidLine p.now log (lines.Learned k) }
    ensures close { (w : WriterState) (log : List Line) (k : ℕ)
        → Follows w log → k < w.next_box → HoldsEverything p.now (state_of log) (lines.Close k)
        → IsValidLine p.now log (lines.Close k) }
    ensures end { (w : WriterState) (log : List Line) → Follows w log → IsValidLine p.now log lines.End }
{}

/// A law: the writer goes on with the log that has the lines of a call at its end, and its bytes are those of the log
/// with the bytes of these lines behind them.
pub fn logs_go_on()
    ensures start { Follows begun (lines.Header ∷ []) }
    ensures boxes { (w : WriterState) (log : List Line) (line : Line) → IsSome (box_in line)
        → Follows w log → Follows (one_box w) (log ++ line ∷ []) }
    ensures learned { (w : WriterState) (log : List Line) (k : ℕ) → Follows w log
        → Follows (one_learned w) (log ++ lines.Learned k ∷ []) }
    ensures nodes { (w : WriterState) (log : List Line) (more : List Node)
        → Follows w log → Follows (more_nodes (length more) w) (log ++ node_lines w.next_node more) }
    ensures table { (log : List Line) (k : ℕ) (more : List Node)
        → table_of (log ++ node_lines k more) ≡ table_of log ++ more }
    ensures text { (text : List ℕ) (log more : List Line)
        → IsLog text log → AllByRecursion HasSpelling more → IsLog (text ++ text_of more) (log ++ more) }
{}

/// A law: tags are numbers of a log's nodes as long as nodes come and go and the log grows. A node that comes under a
/// used id has no number, and the number of a ref that is there stands for it.
pub fn numbers_stay()
    ensures none { (l : LayoutState) (a : ArenaState) (nodes : List Node)
        → ((i : NodeId) (n : Stored) → map.get a.nodes i ≡ Some n → n.tag ≡ 0) → IsNumbered l a nodes }
    ensures made { (l : LayoutState) (old new : PoolState) (nodes : List Node)
        → IsReduced (table old.arena) → Stays old new → IsNumbered l old.arena nodes
        → IsNumbered l new.arena nodes }
    ensures reclaimed { (l : LayoutState) (old new : PoolState) (nodes : List Node)
        → IsReduced (table old.arena) → Reclaims old new → IsNumbered l old.arena nodes
        → IsNumbered l new.arena nodes }
    ensures longer { (l : LayoutState) (a : ArenaState) (nodes more : List Node) → IsTable nodes
        → IsNumbered l a nodes → IsNumbered l a (nodes ++ more) }
    ensures ref_made { (l : LayoutState) (old new : PoolState) (nodes : List Node) (r : Ref) (n : ℕ)
        → IsReduced (table old.arena) → Stays old new
        → IsLive (table old.arena) r → Names l (table old.arena) nodes r n
        → Names l (table new.arena) nodes r n }
    ensures ref_reclaimed { (l : LayoutState) (old new : PoolState) (nodes : List Node) (r : Ref)
        (n : ℕ) → IsReduced (table old.arena) → Reclaims old new
        → IsLive (table new.arena) r → Names l (table old.arena) nodes r n
        → Names l (table new.arena) nodes r n }
    ensures ref_longer { (l : LayoutState) (a : ArenaState) (nodes more : List Node) (r : Ref) (n : ℕ)
        → IsTable nodes → Names l (table a) nodes r n → Names l (table a) (nodes ++ more) r n }
{}

/// A law: a number that stands for a ref over the bits of a variable may be a side of this variable.
pub fn numbers_are_sides()
    ensures { (l : LayoutState) (t : Table) (nodes : List Node) (v : VarId) (r : Ref) (n : ℕ)
        → v.0 < length l.kinds → ReachesOnly t (bits_of l v) r → Names l t nodes r n
        → IsSide l.kinds nodes (v.0, n) }
{}
