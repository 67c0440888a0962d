//! A step of the recursion over diagrams: the first bit that is asked, and what is left on either side of it.
ghost use Rattle.std.specs.Prelude.{◌≡◌, ◌≤◌, min};
ghost use Rattle.diagram_arena.specs.Table.{IsLive, IsReduced, depth};
ghost use Rattle.diagram_arena.specs.Arena.{table};
ghost use Rattle.diagram_ops.specs.Steps.{first, AreLive, IsNode, HasNode, HasStep, IsSplit, IsStep};

use crate::question::Question;
use diagram_arena::{Arena, Ref};

/// The first bit that a question asks.
pub(crate) fn first_bit(arena: &Arena, question: Question) -> u32
    requires live { AreLive (table arena.now) question }
    requires step { HasStep (table arena.now) question }
    ensures { result ≡ first (table arena.now) question }
{
    match question {
        Question::Combine(_, f, g) => lesser_bit(arena, f, g),
        Question::Restrict(f, _, _) => bit_of(arena, f),
    }
}

/// The first bit that `f` or `g` asks.
#[tactic(auto, using(diagram_arena::proofs::Meaning::terminals))]
fn lesser_bit(arena: &Arena, f: Ref, g: Ref) -> u32
    requires f_live { IsLive (table arena.now) f }
    requires g_live { IsLive (table arena.now) g }
    requires node { HasNode f g }
    ensures { result ≡ min (depth (table arena.now) f) (depth (table arena.now) g) }
{
    match f {
        Ref::Node(i) => match g {
            Ref::Node(j) => arena.node(i).bit.min(arena.node(j).bit),
            Ref::Zero => arena.node(i).bit,
            Ref::One => arena.node(i).bit,
        },
        Ref::Zero => bit_of(arena, g),
        Ref::One => bit_of(arena, g),
    }
}

/// The bit of a node.
pub(crate) fn bit_of(arena: &Arena, r: Ref) -> u32
    requires live { IsLive (table arena.now) r }
    requires node { IsNode r }
    ensures bit { result ≡ depth (table arena.now) r }
    ensures reduced { IsReduced (table arena.now) }
{
    match r {
        Ref::Node(i) => arena.node(i).bit,
        Ref::Zero => unreachable!(),
        Ref::One => unreachable!(),
    }
}

/// What is left of a question once its first bit is false, and once it is true.
pub(crate) fn sides(arena: &Arena, question: Question, bit: u32) -> (Question, Question)
    requires live { AreLive (table arena.now) question }
    requires step { HasStep (table arena.now) question }
    requires at { bit ≡ first (table arena.now) question }
    ensures { IsStep (table arena.now) question bit result.0 result.1 }
{
    match question {
        Question::Combine(op, f, g) => {
            let (f_lo, f_hi) = split(arena, f, bit);
            let (g_lo, g_hi) = split(arena, g, bit);
            (
                Question::Combine(op, f_lo, g_lo),
                Question::Combine(op, f_hi, g_hi),
            )
        }
        Question::Restrict(f, at, value) => {
            let (lo, hi) = split(arena, f, bit);
            (
                Question::Restrict(lo, at, value),
                Question::Restrict(hi, at, value),
            )
        }
    }
}

/// What is left of `r` once `bit` is false, and once it is true.
pub(crate) fn split(arena: &Arena, r: Ref, bit: u32) -> (Ref, Ref)
    requires live { IsLive (table arena.now) r }
    requires above { bit ≤ depth (table arena.now) r }
    ensures { IsSplit (table arena.now) r bit result.0 result.1 }
{
    match r {
        Ref::Zero => (r, r),
        Ref::One => (r, r),
        Ref::Node(id) => {
            let node = arena.node(id);
            if node.bit == bit {
                (node.lo, node.hi)
            } else {
                (r, r)
            }
        }
    }
}
