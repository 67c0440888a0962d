//! Laws of tables, lines and logs.

ghost use Rattle.std.specs.Prelude.{◌≡◌, ◌↔◌, ℕ, ◌<◌, Bool, true, false, List, [], ◌∷◌, ◌++◌, Some, slice_get};
ghost use Rattle.set_meaning.specs.declared.kinds.Value.{Value};
ghost use Rattle.set_meaning.specs.Problems.{IsProblem};
ghost use Rattle.set_meaning.specs.Solutions.{IsSolution, IsCovered, AreAnswers, CoverAll};
ghost use Rattle.log_text.specs.declared.line.Line.{Line};
ghost use Rattle.log_rules.specs.declared.nodes.Node.{Node as AnyNode};
ghost use Rattle.log_rules.specs.declared.reasons.Reason.{Reason as AnyReason};
ghost use Rattle.log_rules.specs.declared.reasons.End.{End as AnyEnd};
ghost use Rattle.log_rules.specs.declared.reasons.End.TheVariants.{Complete};
ghost use Rattle.log_rules.specs.Tables.{node_at, next_node, child, walk, IsNext, IsTable, IsDeeper, Tests};
ghost use Rattle.log_rules.specs.Boxes.{Sides, InBox, AreSides};
ghost use Rattle.log_rules.specs.States.{LogState, state_of, after, table_of, boxes_of, listed_answers, ends_of};
ghost use Rattle.log_rules.specs.Rules.{IsValidAfter, IsRefusedFor, Reads};
ghost use Rattle.log_rules.specs.Logs.{IsValidLine, AreValid, EndsAs, IsAcceptedLog};

use log_text::spellings_are_apart;
use set_meaning::Problem;

/// A law of walks: no word is accepted from node 0, each from node 1, and from another node as from the child to which the word leads.
pub fn walks_go_to_children()
    ensures nothing { (table : List AnyNode) (word : List Bool) → walk table 0 word ≡ false }
    ensures everything { (table : List AnyNode) (word : List Bool) → walk table 1 word ≡ true }
    ensures child { (table : List AnyNode) (n : ℕ) (node : AnyNode) (word : List Bool)
        → IsTable table → node_at table n ≡ Some node → walk table n word ≡ walk table (child node word) word }
{}

/// A law of tables: a child is an earlier node, and tests a later place.
pub fn children_are_deeper()
    ensures lo { (table : List AnyNode) (n : ℕ) (node : AnyNode) → IsTable table → node_at table n ≡ Some node → node.lo < n }
    ensures hi { (table : List AnyNode) (n : ℕ) (node : AnyNode) → IsTable table → node_at table n ≡ Some node → node.hi < n }
    ensures deeper_lo { (table : List AnyNode) (n : ℕ) (node : AnyNode)
        → IsTable table → node_at table n ≡ Some node → IsDeeper table node.place node.lo }
    ensures deeper_hi { (table : List AnyNode) (n : ℕ) (node : AnyNode)
        → IsTable table → node_at table n ≡ Some node → IsDeeper table node.place node.hi }
    ensures known { (table : List AnyNode) (n : ℕ) (node : AnyNode) → node_at table n ≡ Some node → n < next_node table }
{}

/// A law of tables that grow: what a node of the table accepts and tests stays, and so does the node itself.
pub fn tables_grow()
    ensures empty { IsTable [] }
    ensures one_more { (table : List AnyNode) (node : AnyNode) → IsTable table → IsNext table node → IsTable (table ++ node ∷ []) }
    ensures walks { (table more : List AnyNode) (n : ℕ) (word : List Bool) → n < next_node table → walk (table ++ more) n word ≡ walk table n word }
    ensures nodes { (table more : List AnyNode) (n : ℕ) → n < next_node table → node_at (table ++ more) n ≡ node_at table n }
    ensures tests { (table more : List AnyNode) (n place : ℕ)
        → IsTable table → n < next_node table → Tests (table ++ more) n place → Tests table n place }
{}

/// A law: a log is made line by line. Of no lines the log is valid, and with one more line it is where the line is valid after it.
pub fn logs_grow_by_lines(p: &Problem)
    ensures state { (log : List Line) (line : Line) → state_of (log ++ line ∷ []) ≡ after (state_of log) line }
    ensures start { AreValid p.now [] }
    ensures one_more { (log : List Line) (line : Line) → AreValid p.now (log ++ line ∷ []) ↔ (AreValid p.now log × IsValidLine p.now log line) }
    ensures end { (log : List Line) (end : AnyEnd) → AreValid p.now log → (ends_of log ≡ end ∷ []) ↔ EndsAs log end }
{}

/// A law: a text is refused for one reason at most, and for none where it spells a valid line.
pub fn refusals_are_one(p: &Problem)
    ensures one { (s : LogState) (text : List ℕ) (first second : AnyReason)
        → IsRefusedFor p.now s text first → IsRefusedFor p.now s text second → first ≡ second }
    ensures valid { (s : LogState) (text : List ℕ) (reason : AnyReason) (line : Line)
        → IsRefusedFor p.now s text reason → Reads text (Some line) → IsValidAfter p.now s line → ⊥ }
{
    spellings_are_apart();
}

/// A law of valid logs, whoever wrote them: the nodes are a table, the sides of each box are of it, each answer is a solution that the
/// answers before it do not cover, and no box holds a solution that the listed answers do not cover.
pub fn valid_logs_are_sound(p: &Problem)
    requires { IsProblem p.now }
    ensures table { (log : List Line) → AreValid p.now log → IsTable (table_of log) }
    ensures sides { (log : List Line) (k : ℕ) (box : Sides)
        → AreValid p.now log → slice_get (boxes_of log) k ≡ Some box → AreSides p.now.kinds (table_of log) box }
    ensures answers { (log : List Line) → AreValid p.now log → AreAnswers p.now (listed_answers log) }
    ensures boxes { (log : List Line) (k : ℕ) (box : Sides) (values : List Value)
        → AreValid p.now log → slice_get (boxes_of log) k ≡ Some box → IsSolution p.now values
        → InBox p.now.kinds (table_of log) box values → IsCovered p.now (listed_answers log) values }
{}

/// A law: where a log is accepted and its last line closes it, its listed answers cover every solution, whoever wrote it. Where none is
/// listed, there is no solution.
pub fn closed_logs_cover_all(p: &Problem)
    requires { IsProblem p.now }
    ensures { (log : List Line) → IsAcceptedLog p.now log Complete → CoverAll p.now (listed_answers log) }
{}
