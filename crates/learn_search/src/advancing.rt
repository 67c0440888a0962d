//! From one stage of a search to the next: to the first answer, and from each answer to the one after it.
ghost use Rattle.std.specs.Prelude.{◌≡◌, ◌<◌, List, [], false, IfOk, IfErr, OnOk, OnErr, IfSome, Some};
ghost use Rattle.set_meaning.specs.declared.kinds.Value.{Value as AnyValue};
ghost use Rattle.set_meaning.specs.declared.problems.Goal.TheVariants as Goal;
ghost use Rattle.problem_limits.specs.Limits.{KeepsLimits};
ghost use Rattle.search_turns.specs.States.{learned_count};
ghost use Rattle.learn_search.specs.Founds.{IsFoundOf, given_with, is_complete};
ghost use Rattle.learn_search.specs.Standings.{StandsAfter};
ghost use Rattle.learn_search.specs.Stages.{IsBegun, IsAtAnswer, IsAtSomeAnswer, IsFoundAt, IsStage, StandsAt};
ghost use Rattle.learn_search.specs.Stages.{IsEndBy, values_in_all};

use crate::answering::answer;
use crate::beginning::{Begun, begin};
use crate::search::{Found, SearchEnd};
use diagram_arena::Stop;
use diagram_ops::Ops;
use problem_rules::{answers_cover_as_in_the_rules, solutions_are_those_of_the_rules};
use search_state::answers_keep_states_legal;
use search_turns::{FindStop, Found as Reached, answers_keep_their_boxes, find, resume};
use set_meaning::{Problem, Value};
use std::alloc::Global;

/// Goes on to the next answer, which is kept with the others; the first call begins the search.
pub(crate) fn advance(
    alloc: Global,
    p: &Problem,
    ops: &mut Ops,
    begun: &mut Option<Begun>,
    answers: &mut Vec<Vec<Value>>,
    conflicts: Option<u64>,
    learned: &mut u64,
) -> Result<Found, SearchEnd>
    requires limits { KeepsLimits p.now }
    requires satisfy { p.now.goal ≡ Goal.Satisfy }
    requires stage { IsStage p.now ops.old begun.old (values_in_all answers.old.items) learned.old }
    requires capped { IfSome conflicts (λ n. learned.old < n) }
    ensures means { IfOk result (IsFoundOf p.now (values_in_all answers.old.items)) }
    ensures kept { IfOk result (λ found.
        values_in_all answers.new.items ≡ given_with (values_in_all answers.old.items) found) }
    ensures legal { IfOk result (λ found.
        StandsAfter p.now ops.new (given_with (values_in_all answers.old.items) found) found) }
    ensures stage { IfOk result (λ found. is_complete found ≡ false
        → IsStage p.now ops.new begun.new (values_in_all answers.new.items) learned.new) }
    ensures capped { OnOk result (IfSome conflicts (λ n. learned.new < n)) }
    ensures same { OnErr result (answers.new.items ≡ answers.old.items) }
    ensures limit { ops.new.arena.limit ≡ ops.old.arena.limit }
    ensures ends { IfErr result (IsEndBy ops.new conflicts learned.new) }
{
    match begun {
        Some(at) => go_on(alloc, p, ops, at, answers, conflicts, learned),
        None => set_out(alloc, p, ops, begun, answers, conflicts, learned),
    }
}

/// Begins the search, and goes on to its first answer.
fn set_out(
    alloc: Global,
    p: &Problem,
    ops: &mut Ops,
    begun: &mut Option<Begun>,
    answers: &mut Vec<Vec<Value>>,
    conflicts: Option<u64>,
    learned: &mut u64,
) -> Result<Found, SearchEnd>
    requires limits { KeepsLimits p.now }
    requires none { values_in_all answers.old.items ≡ [] }
    requires unlearned { learned.old ≡ 0 }
    requires capped { IfSome conflicts (λ n. learned.old < n) }
    ensures means { IfOk result (IsFoundOf p.now (values_in_all answers.old.items)) }
    ensures kept { IfOk result (λ found.
        values_in_all answers.new.items ≡ given_with (values_in_all answers.old.items) found) }
    ensures legal { IfOk result (λ found.
        StandsAfter p.now ops.new (given_with (values_in_all answers.old.items) found) found) }
    ensures stage { IfOk result (λ found. is_complete found ≡ false
        → IsStage p.now ops.new begun.new (values_in_all answers.new.items) learned.new) }
    ensures capped { OnOk result (IfSome conflicts (λ n. learned.new < n)) }
    ensures same { OnErr result (answers.new.items ≡ answers.old.items) }
    ensures limit { ops.new.arena.limit ≡ ops.old.arena.limit }
    ensures ends { IfErr result (IsEndBy ops.new conflicts learned.new) }
{
    match begin(alloc, p, ops) {
        Ok(fresh) => {
            let mut fresh = fresh;
            let found = first(alloc, p, ops, &mut fresh, answers, conflicts, learned);
            *begun = Some(fresh);
            found
        }
        Err(Stop::Full) => Err(SearchEnd::Nodes),
        Err(Stop::Memory) => Err(SearchEnd::Memory),
    }
}

/// From the beginning to the first answer.
fn first(
    alloc: Global,
    p: &Problem,
    ops: &mut Ops,
    begun: &mut Begun,
    answers: &mut Vec<Vec<Value>>,
    conflicts: Option<u64>,
    learned: &mut u64,
) -> Result<Found, SearchEnd>
    requires limits { KeepsLimits p.now }
    requires begun { IsBegun p.now ops.old begun.old }
    requires none { values_in_all answers.old.items ≡ [] }
    requires unlearned { learned.old ≡ 0 }
    requires capped { IfSome conflicts (λ n. learned.old < n) }
    ensures means { IfOk result (IsFoundOf p.now (values_in_all answers.old.items)) }
    ensures kept { IfOk result (λ found.
        values_in_all answers.new.items ≡ given_with (values_in_all answers.old.items) found) }
    ensures legal { IfOk result (λ found.
        StandsAfter p.now ops.new (given_with (values_in_all answers.old.items) found) found) }
    ensures stands { IfOk result (StandsAt p.now ops.new begun.new (values_in_all answers.old.items)) }
    ensures counted { OnOk result (learned.new ≡ learned_count begun.new.boxes) }
    ensures capped { OnOk result (IfSome conflicts (λ n. learned.new < n)) }
    ensures same { OnErr result (answers.new.items ≡ answers.old.items) }
    ensures limit { ops.new.arena.limit ≡ ops.old.arena.limit }
    ensures ends { IfErr result (IsEndBy ops.new conflicts learned.new) }
{
    let found = find_first(alloc, p, ops, begun, conflicts, learned)?;
    tell(alloc, p, ops, begun, answers, found)
}

/// From an answer to the one after it.
fn go_on(
    alloc: Global,
    p: &Problem,
    ops: &mut Ops,
    begun: &mut Begun,
    answers: &mut Vec<Vec<Value>>,
    conflicts: Option<u64>,
    learned: &mut u64,
) -> Result<Found, SearchEnd>
    requires limits { KeepsLimits p.now }
    requires satisfy { p.now.goal ≡ Goal.Satisfy }
    requires at { IsAtAnswer p.now ops.old begun.old (values_in_all answers.old.items) }
    requires counted { learned.old ≡ learned_count begun.old.boxes }
    requires capped { IfSome conflicts (λ n. learned.old < n) }
    ensures means { IfOk result (IsFoundOf p.now (values_in_all answers.old.items)) }
    ensures kept { IfOk result (λ found.
        values_in_all answers.new.items ≡ given_with (values_in_all answers.old.items) found) }
    ensures legal { IfOk result (λ found.
        StandsAfter p.now ops.new (given_with (values_in_all answers.old.items) found) found) }
    ensures stands { IfOk result (StandsAt p.now ops.new begun.new (values_in_all answers.old.items)) }
    ensures counted { OnOk result (learned.new ≡ learned_count begun.new.boxes) }
    ensures capped { OnOk result (IfSome conflicts (λ n. learned.new < n)) }
    ensures same { OnErr result (answers.new.items ≡ answers.old.items) }
    ensures limit { ops.new.arena.limit ≡ ops.old.arena.limit }
    ensures ends { IfErr result (IsEndBy ops.new conflicts learned.new) }
{
    let found = find_next(alloc, p, ops, begun, conflicts, learned)?;
    tell(alloc, p, ops, begun, answers, found)
}

/// Finds the first single values.
fn find_first(
    alloc: Global,
    p: &Problem,
    ops: &mut Ops,
    begun: &mut Begun,
    conflicts: Option<u64>,
    learned: &mut u64,
) -> Result<Reached, SearchEnd>
    requires limits { KeepsLimits p.now }
    requires begun { IsBegun p.now ops.old begun.old }
    requires unlearned { learned.old ≡ 0 }
    requires capped { IfSome conflicts (λ n. learned.old < n) }
    ensures found { IfOk result (IsFoundAt p.now ops.new begun.new []) }
    ensures counted { OnOk result (learned.new ≡ learned_count begun.new.boxes) }
    ensures capped { OnOk result (IfSome conflicts (λ n. learned.new < n)) }
    ensures limit { ops.new.arena.limit ≡ ops.old.arena.limit }
    ensures ends { IfErr result (IsEndBy ops.new conflicts learned.new) }
{
    // What the rules say of solutions and answers.
    solutions_are_those_of_the_rules();
    answers_cover_as_in_the_rules();
    match find(
        alloc,
        ops,
        p,
        &begun.layout,
        &begun.compiled,
        &mut begun.trail,
        &mut begun.boxes,
        &mut begun.queue,
        &mut begun.sizes,
        conflicts,
        learned,
    ) {
        Ok(found) => Ok(found),
        Err(stop) => Err(end_of(stop)),
    }
}

/// Finds the single values that come after those of an answer.
fn find_next(
    alloc: Global,
    p: &Problem,
    ops: &mut Ops,
    begun: &mut Begun,
    conflicts: Option<u64>,
    learned: &mut u64,
) -> Result<Reached, SearchEnd>
    requires limits { KeepsLimits p.now }
    requires satisfy { p.now.goal ≡ Goal.Satisfy }
    requires at { IsAtSomeAnswer p.now ops.old begun.old }
    requires counted { learned.old ≡ learned_count begun.old.boxes }
    requires capped { IfSome conflicts (λ n. learned.old < n) }
    ensures found { (given : List (List AnyValue)) → IsAtAnswer p.now ops.old begun.old given
        → IfOk result (IsFoundAt p.now ops.new begun.new given) }
    ensures counted { OnOk result (learned.new ≡ learned_count begun.new.boxes) }
    ensures capped { OnOk result (IfSome conflicts (λ n. learned.new < n)) }
    ensures limit { ops.new.arena.limit ≡ ops.old.arena.limit }
    ensures ends { IfErr result (IsEndBy ops.new conflicts learned.new) }
{
    // What the rules say of solutions and answers, and of a state when an answer is given.
    solutions_are_those_of_the_rules();
    answers_cover_as_in_the_rules();
    answers_keep_states_legal(p);
    answers_keep_their_boxes();
    match resume(
        alloc,
        ops,
        p,
        &begun.layout,
        &begun.compiled,
        &mut begun.trail,
        &mut begun.boxes,
        &mut begun.queue,
        &mut begun.sizes,
        conflicts,
        learned,
    ) {
        Ok(found) => Ok(found),
        Err(stop) => Err(end_of(stop)),
    }
}

/// Says what was found: the values are read of the domains, and kept.
fn tell(
    alloc: Global,
    p: &Problem,
    ops: &Ops,
    begun: &Begun,
    answers: &mut Vec<Vec<Value>>,
    found: Reached,
) -> Result<Found, SearchEnd>
    requires found { IsFoundAt p.now ops.now begun.now (values_in_all answers.old.items) found }
    ensures means { IfOk result (IsFoundOf p.now (values_in_all answers.old.items)) }
    ensures kept { IfOk result (λ found.
        values_in_all answers.new.items ≡ given_with (values_in_all answers.old.items) found) }
    ensures legal { IfOk result (λ found.
        StandsAfter p.now ops.now (given_with (values_in_all answers.old.items) found) found) }
    ensures stands { IfOk result (StandsAt p.now ops.now begun.now (values_in_all answers.old.items)) }
    ensures same { OnErr result (answers.new.items ≡ answers.old.items) }
    ensures ends { IfErr result (λ e. e ≡ SearchEnd.Memory) }
{
    match found {
        Reached::Single => match answer(alloc, p, ops, begun, answers) {
            Ok(values) => Ok(Found::Answer(values)),
            Err(_) => Err(SearchEnd::Memory),
        },
        Reached::Complete => Ok(Found::Complete),
    }
}

/// Why the search ends where nothing was found for this.
fn end_of(stop: FindStop) -> SearchEnd
    ensures conflicts { result ≡ SearchEnd.Conflicts → stop ≡ FindStop.Conflicts }
    ensures nodes { result ≡ SearchEnd.Nodes → stop ≡ FindStop.Full }
    ensures ended { result ≡ SearchEnd.Ended → ⊥ }
{
    match stop {
        FindStop::Conflicts => SearchEnd::Conflicts,
        FindStop::Full => SearchEnd::Nodes,
        FindStop::Memory => SearchEnd::Memory,
    }
}
