//! Answers that need no step of the recursion.
ghost use Rattle.std.specs.Prelude.{◌≡◌, IfSome, IfNone};
ghost use Rattle.diagram_arena.specs.Table.{IsLive, child};
ghost use Rattle.diagram_arena.specs.Arena.{table, triple_of};
ghost use Rattle.diagram_ops.specs.declared.question.Op.TheVariants as op;
ghost use Rattle.diagram_ops.specs.declared.question.Question.TheVariants as question;
ghost use Rattle.diagram_ops.specs.Steps.{shortcut_of, AreLive, HasStep, IsAnswer};

use crate::question::{Op, Question};
use diagram_arena::{Arena, Node, Ref};

/// The answer, if it is seen at once.
pub(crate) fn settled(arena: &Arena, question: Question) -> Option<Ref>
    requires { AreLive (table arena.now) question }
    ensures found { IfSome result (IsAnswer (table arena.now) question) }
    ensures step { IfNone result (HasStep (table arena.now) question) }
{
    // What is known of the nodes.
    let _ = arena.len();
    match question {
        Question::Combine(op, f, g) => shortcut(op, f, g),
        Question::Restrict(f, bit, value) => restriction(arena, f, bit, value),
    }
}

/// A ref that asks no bit up to `bit` is its own restriction; a node that asks this bit first has a
/// child that is.
fn restriction(arena: &Arena, f: Ref, bit: u32, value: bool) -> Option<Ref>
    requires { IsLive (table arena.now) f }
    ensures found { IfSome result (IsAnswer (table arena.now) (question.Restrict f bit value)) }
    ensures step { IfNone result (HasStep (table arena.now) (question.Restrict f bit value)) }
{
    match f {
        Ref::Zero => Some(f),
        Ref::One => Some(f),
        Ref::Node(id) => {
            let node = arena.node(id);
            if node.bit > bit {
                Some(f)
            } else if node.bit == bit {
                Some(child(node, value))
            } else {
                None
            }
        }
    }
}

fn child(node: &Node, value: bool) -> Ref
    ensures { result ≡ child (triple_of node.now) value }
{
    if value { node.hi } else { node.lo }
}

fn shortcut(op: Op, f: Ref, g: Ref) -> Option<Ref>
    ensures { result ≡ shortcut_of op f g }
{
    match op {
        Op::And => of_and(f, g),
        Op::Or => of_or(f, g),
        Op::Diff => of_diff(f, g),
    }
}

fn of_and(f: Ref, g: Ref) -> Option<Ref>
    ensures { result ≡ shortcut_of op.And f g }
{
    match f {
        Ref::Zero => Some(Ref::Zero),
        Ref::One => Some(g),
        Ref::Node(i) => match g {
            Ref::Zero => Some(Ref::Zero),
            Ref::One => Some(f),
            Ref::Node(j) => if i == j { Some(f) } else { None },
        },
    }
}

fn of_or(f: Ref, g: Ref) -> Option<Ref>
    ensures { result ≡ shortcut_of op.Or f g }
{
    match f {
        Ref::Zero => Some(g),
        Ref::One => Some(Ref::One),
        Ref::Node(i) => match g {
            Ref::Zero => Some(f),
            Ref::One => Some(Ref::One),
            Ref::Node(j) => if i == j { Some(f) } else { None },
        },
    }
}

fn of_diff(f: Ref, g: Ref) -> Option<Ref>
    ensures { result ≡ shortcut_of op.Diff f g }
{
    match f {
        Ref::Zero => Some(Ref::Zero),
        Ref::One => match g {
            Ref::Zero => Some(Ref::One),
            Ref::One => Some(Ref::Zero),
            Ref::Node(_) => None,
        },
        Ref::Node(i) => match g {
            Ref::Zero => Some(f),
            Ref::One => Some(Ref::Zero),
            Ref::Node(j) => if i == j { Some(Ref::Zero) } else { None },
        },
    }
}
