//! The state of a search from its first `next` on: the compiled problem, a trail of the initial domains, no boxes, and
//! a queue in which every constraint has its flag.
ghost use Rattle.std.specs.Prelude.{◌≡◌, Err, IfOk};
ghost use Rattle.diagram_arena.specs.Arena.{table};
ghost use Rattle.node_reclaim.specs.Growth.{IsFull};
ghost use Rattle.node_reclaim.specs.Holders.{AreHeld};
ghost use Rattle.problem_limits.specs.Limits.{KeepsLimits};
ghost use Rattle.propagators.specs.Compiled.{pinned_by, IsCompiled};
ghost use Rattle.learn_search.specs.Stages.{IsBegun, IsWholeQueue};

use crate::agenda::{queue_of, sizes_of};
use bit_layout::Layout;
use box_clauses::BoxStore;
use constraint_queue::ConstraintQueue;
use diagram_arena::Stop;
use diagram_ops::Ops;
use domain_trail::Trail;
use propagators::Compiled;
use search_state::{first_states_are_legal, legal_states_have_trails};
use set_meaning::Problem;
use std::alloc::{AllocError, Global};

/// What a search works on: the compiled problem, the trail, the stored boxes, and the queue with the sizes by which it
/// is ordered. Where it is dropped, what it pins stays pinned.
pub(crate) struct Begun {
    pub(crate) layout: Layout,
    pub(crate) compiled: Compiled,
    pub(crate) trail: Trail,
    pub(crate) boxes: BoxStore,
    pub(crate) queue: ConstraintQueue,
    pub(crate) sizes: Vec<u64>,
}

impl Drop for Begun {
    fn drop(self) {
        let Begun {
            layout: _,
            compiled,
            trail,
            boxes,
            queue: _,
            sizes: _,
        } = self;
        compiled.leave();
        trail.leave();
        boxes.leave();
    }
}

/// The constraints that wait, and the number of nodes of each domain.
#[derive(Drop)]
struct Agenda {
    queue: ConstraintQueue,
    sizes: Vec<u64>,
}

/// Compiles the problem and begins with all initial values. For want of memory pins are taken back; where there was no
/// room for a node, those of the compilation stay.
pub(crate) fn begin(alloc: Global, p: &Problem, ops: &mut Ops) -> Result<Begun, Stop>
    requires { KeepsLimits p.now }
    ensures begun { IfOk result (IsBegun p.now ops.new) }
    ensures limit { ops.new.arena.limit ≡ ops.old.arena.limit }
    ensures full { result ≡ Err Stop.Full → IsFull ops.new }
{
    let layout = match Layout::new(alloc, p) {
        Ok(layout) => layout,
        Err(_) => return Err(Stop::Memory),
    };
    match Compiled::new(alloc, p, &layout, ops) {
        Ok(compiled) => begin_compiled(alloc, p, ops, layout, compiled),
        Err(stop) => Err(stop),
    }
}

/// Begins with the compiled problem.
fn begin_compiled(
    alloc: Global,
    p: &Problem,
    ops: &mut Ops,
    layout: Layout,
    compiled: Compiled,
) -> Result<Begun, Stop>
    requires limits { KeepsLimits p.now }
    requires compiled { IsCompiled layout p.now (table ops.old.arena) compiled }
    requires held { AreHeld ops.old (pinned_by compiled) }
    ensures begun { IfOk result (IsBegun p.now ops.new) }
    ensures limit { ops.new.arena.limit ≡ ops.old.arena.limit }
    ensures full { result ≡ Err Stop.Full → ⊥ }
{
    // What holds of every pool, and of the first state of a search.
    let _ = ops.pool();
    first_states_are_legal(p);
    legal_states_have_trails();
    let agenda = match whole_agenda(alloc, ops, &layout, p, &compiled) {
        Ok(agenda) => agenda,
        Err(_) => {
            compiled.release(ops);
            return Err(Stop::Memory);
        }
    };
    let trail = match Trail::new(alloc, ops, compiled.start()) {
        Ok(trail) => trail,
        Err(_) => {
            compiled.release(ops);
            return Err(Stop::Memory);
        }
    };
    let Agenda { queue, sizes } = agenda;
    Ok(Begun {
        layout,
        compiled,
        trail,
        boxes: BoxStore::new(alloc),
        queue,
        sizes,
    })
}

/// All constraints, flagged, by the sizes of the initial domains.
fn whole_agenda(
    alloc: Global,
    ops: &Ops,
    layout: &Layout,
    p: &Problem,
    compiled: &Compiled,
) -> Result<Agenda, AllocError>
    requires limits { KeepsLimits p.now }
    requires compiled { IsCompiled layout.now p.now (table ops.now.arena) compiled.now }
    ensures { IfOk result (λ agenda. IsWholeQueue p.now compiled.now agenda.queue) }
{
    let sizes = sizes_of(alloc, ops, layout, compiled.start())?;
    let mut queue = queue_of(alloc, ops, layout, p, compiled)?;
    queue.flag_all(sizes.as_slice());
    Ok(Agenda { queue, sizes })
}
