//! A problem's initial domains and constraints as diagrams.
ghost use Rattle.std.specs.Prelude.{◌≡◌, ◌<◌, List, length, Some, slice_get, IfOk, IfErr, Err};
ghost use Rattle.diagram_arena.specs.declared.nodes.Ref.{Ref as AnyRef};
ghost use Rattle.diagram_arena.specs.Table.{IsReduced};
ghost use Rattle.diagram_arena.specs.Arena.{table};
ghost use Rattle.node_reclaim.specs.Pool.{Unpins};
ghost use Rattle.problem_limits.specs.Limits.{KeepsLimits};
ghost use Rattle.node_reclaim.specs.Holders.{Gains, AreHeld, MeansTheSame};
ghost use Rattle.pin_lists.specs.Units.{AllAre};
ghost use Rattle.propagators.specs.Compiled.{pinned_by, IsCompiled};
ghost use Rattle.propagators.specs.Units.{IsOfUnit, AllReachUnits, PinsAfter};
ghost use Rattle.propagators.specs.Work.{IsGivenBack};
ghost use Rattle.node_reclaim.specs.Growth.{IsFull};

use crate::units::{Units, compile};
use bit_layout::Layout;
use diagram_arena::{Ref, Stop};
use diagram_ops::Ops;
use listed::Listed;
use pin_lists::PinList;
use set_meaning::{ConId, Problem, VarId};
use std::alloc::Global;
use std::marker::Model;

/// A compiled problem: pinned, the domain of each variable's initial values and the diagram of each constraint, with the constraint's
/// scope. It must be given back by `release` or by `leave`.
pub struct Compiled {
    start: Vec<Ref>,
    scopes: Vec<Listed<VarId>>,
    diagrams: Vec<Ref>,
    pins: PinList,
}

impl Model for Compiled {
    ghost use Rattle.std.specs.Prelude.{◌≡◌, ◌++◌};
    ghost use Rattle.propagators.specs.Compiled.{CompiledState};

    ghost Value = { CompiledState };

    ghost view = { λ k. record { start = k.start.items; scopes = k.scopes.items; diagrams = k.diagrams.items } };

    ghost invariant = { λ k. k.pins ≡ k.start.items ++ k.diagrams.items };
}

impl Compiled {
    /// Compiles the problem, whose layout is given: a unit is the domain of one variable's initial values, or the diagram of one
    /// constraint. The diagram of a constraint with a truth value is made of that of its relation: where the value is true the relation
    /// holds, and where it is false it fails.
    ///
    /// Each result is pinned. Where a unit finds no room, the nodes that no pin reaches are freed and the unit is tried once more; a second
    /// refusal is Full. So no ref that is not pinned stays, and what is pinned keeps its meaning. After Memory the pins were taken back;
    /// after Full they stay for good (`PinList::leave`). A diagram over k bits has fewer than 2^k nodes; a constraint's bits are those of
    /// its scope, at most 2,048.
    pub fn new(alloc: Global, p: &Problem, layout: &Layout, ops: &mut Ops) -> Result<Compiled, Stop>
        requires limits { KeepsLimits p.now }
        requires layout { layout.now.kinds ≡ p.now.kinds }
        ensures compiled { IfOk result (IsCompiled layout.now p.now (table ops.new.arena)) }
        ensures pins { IfOk result (λ k. Gains ops.old ops.new (pinned_by k)) }
        ensures stopped { IfErr result (PinsAfter layout.now p.now ops.old ops.new) }
        ensures full { result ≡ Err Stop.Full → IsFull ops.new }

        // What stays, and which nodes are there after Err too: those whose sets stood before, and those of units.
        ensures reduced { IsReduced (table ops.new.arena) }
        ensures limit { ops.new.arena.limit ≡ ops.old.arena.limit }
        ensures kept { (rs : List AnyRef) → AreHeld ops.old rs → MeansTheSame (table ops.old.arena) (table ops.new.arena) rs }
        ensures wanted { AllAre (table ops.old.arena) (table ops.new.arena) (IsOfUnit layout.now p.now) }
        ensures reach { AllReachUnits layout.now p.now (table ops.old.arena) (table ops.new.arena) }
    {
        // What holds of every layout.
        layout.obeys_order();
        let mut pins = PinList::new(alloc);
        match compile(alloc, p, layout, ops, &mut pins) {
            Ok(units) => {
                let Units {
                    start,
                    scopes,
                    diagrams,
                } = units;
                Ok(Compiled {
                    start,
                    scopes,
                    diagrams,
                    pins,
                })
            }
            Err(stop) => {
                give_back(ops, pins, stop);
                Err(stop)
            }
        }
    }

    /// For each variable, in file order, the domain that has all its initial values. Takes no memory.
    pub fn start(&self) -> &[Ref]
        ensures { result.now ≡ self.now.start }
    {
        self.start.as_slice()
    }

    /// The variables of the constraint, its truth value included, ascending, each once. Takes no memory.
    pub fn scope(&self, c: ConId) -> &[VarId]
        requires { c.0 < length self.now.scopes }
        ensures { slice_get self.now.scopes c.0 ≡ Some result.now }
    {
        self.scopes[c.0 as usize].items()
    }

    /// The diagram of the constraint.
    pub(crate) fn diagram(&self, c: ConId) -> Ref
        requires { c.0 < length self.now.diagrams }
        ensures { slice_get self.now.diagrams c.0 ≡ Some result }
    {
        self.diagrams[c.0 as usize]
    }

    /// Takes all pins back. Takes no memory.
    pub fn release(self, ops: &mut Ops)
        requires { AreHeld ops.old (pinned_by self) }
        ensures { Unpins ops.old ops.new (pinned_by self) }
    {
        let Compiled {
            start: _,
            scopes: _,
            diagrams: _,
            pins,
        } = self;
        pins.release(ops);
    }

    /// Lets the nodes stay pinned for good. Takes no memory.
    pub fn leave(self) {
        let Compiled {
            start: _,
            scopes: _,
            diagrams: _,
            pins,
        } = self;
        pins.leave();
    }
}

/// Spends the pins of a compilation that was stopped: where there was no room their nodes stay pinned.
fn give_back(ops: &mut Ops, pins: PinList, stop: Stop)
    requires { AreHeld ops.old pins }
    ensures { IsGivenBack stop ops.old ops.new pins }
{
    match stop {
        Stop::Full => pins.leave(),
        Stop::Memory => pins.release(ops),
    }
}
