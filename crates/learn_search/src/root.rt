//! The root family of a problem, from its text to its rows.
ghost use Rattle.std.specs.Prelude.{◌≡◌, ◌++◌, [], Err, Some, IfOk, IfErr, OnOk};
ghost use Rattle.diagram_arena.specs.Arena.{table};
ghost use Rattle.node_reclaim.specs.Pool.{Unpins};
ghost use Rattle.node_reclaim.specs.Growth.{IsFull};
ghost use Rattle.node_reclaim.specs.Holders.{AreHeld, KeepsPins};
ghost use Rattle.pin_lists.specs.Units.{UnitsLeave};
ghost use Rattle.problem_limits.specs.Limits.{KeepsLimits};
ghost use Rattle.propagators.specs.Compiled.{pinned_by, IsCompiled};
ghost use Rattle.learn_search.specs.Nodes.{IsOfRoot, RootLeaves};
ghost use Rattle.learn_search.specs.Pinned.{PinsAfterStop, AreDomainsOfFirst};
ghost use Rattle.learn_search.specs.Roots.{IsRootOf};

use crate::narrowing::narrow;
use crate::rows::rows;
use crate::search::RootFound;
use bit_layout::Layout;
use diagram_arena::Stop;
use diagram_ops::Ops;
use pin_lists::PinList;
use propagators::Compiled;
use set_meaning::Problem;
use std::alloc::Global;

/// What is found at the root of the problem, which is compiled first. Pins are taken back, but where there was no room for a node:
/// then they stay, those of the domains on the way too.
pub(crate) fn root_of(alloc: Global, p: &Problem, ops: &mut Ops) -> Result<RootFound, Stop>
    requires { KeepsLimits p.now }
    ensures means { IfOk result (IsRootOf p.now) }
    ensures full { result ≡ Err Stop.Full → IsFull ops.new }
    ensures pins { OnOk result (KeepsPins ops.old ops.new) }
    ensures stopped { IfErr result (PinsAfterStop p.now ops.old ops.new) }
    ensures left { RootLeaves p.now ops.old ops.new }
{
    // What holds of every pool and every layout.
    let _ = ops.pool();
    let layout = Layout::new(alloc, p)?;
    layout.obeys_order();
    let compiled = match Compiled::new(alloc, p, &layout, ops) {
        Ok(compiled) => compiled,
        Err(stop) => return Err(stop),
    };
    let mut domains = PinList::new(alloc);
    match found(alloc, p, ops, &layout, &compiled, &mut domains) {
        Ok(found) => {
            give_back(ops, compiled, domains, None);
            Ok(found)
        }
        Err(stop) => {
            give_back(ops, compiled, domains, Some(stop));
            Err(stop)
        }
    }
}

/// Spends the pins of the compiled problem and of the domains. Where there was no room for a node, what was pinned stays pinned.
fn give_back(ops: &mut Ops, compiled: Compiled, domains: PinList, stop: Option<Stop>)
    requires { AreHeld ops.old (pinned_by compiled ++ domains) }
    ensures left { stop ≡ Some Stop.Full → ops.new ≡ ops.old }
    ensures taken_back { (stop ≡ Some Stop.Full → ⊥) → Unpins ops.old ops.new (pinned_by compiled ++ domains) }
{
    match stop {
        None => release(ops, compiled, domains),
        Some(Stop::Memory) => release(ops, compiled, domains),
        Some(Stop::Full) => {
            compiled.leave();
            domains.leave();
        }
    }
}

fn release(ops: &mut Ops, compiled: Compiled, domains: PinList)
    requires { AreHeld ops.old (pinned_by compiled ++ domains) }
    ensures { Unpins ops.old ops.new (pinned_by compiled ++ domains) }
{
    domains.release(ops);
    compiled.release(ops);
}

/// What is found at the root of the compiled problem. `domains`, which has none before, has the domains on the way.
fn found(
    alloc: Global,
    p: &Problem,
    ops: &mut Ops,
    layout: &Layout,
    compiled: &Compiled,
    domains: &mut PinList,
) -> Result<RootFound, Stop>
    requires limits { KeepsLimits p.now }
    requires compiled { IsCompiled layout.now p.now (table ops.old.arena) compiled.now }
    requires held { AreHeld ops.old (pinned_by compiled.now) }
    requires empty { domains.old ≡ [] }
    ensures means { IfOk result (IsRootOf p.now) }
    ensures left { UnitsLeave (IsOfRoot p.now) ops.old ops.new [] domains.new }
    ensures full { result ≡ Err Stop.Full → IsFull ops.new }
    ensures stopped { result ≡ Err Stop.Full → AreDomainsOfFirst layout.now (table ops.new.arena) domains.new }
{
    // What holds of every layout and every pool.
    layout.obeys_order();
    let _ = ops.pool();
    domains.hold_all(ops, compiled.start())?;
    if !narrow(alloc, ops, layout, p, compiled, domains)? {
        return Ok(RootFound::Unsatisfiable);
    }
    Ok(RootFound::Family(rows(alloc, ops, layout, p, domains.refs())?))
}
