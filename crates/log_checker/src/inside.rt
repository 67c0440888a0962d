//! Whether some initial value of a variable is accepted from a node and passes a test.

ghost use Rattle.std.specs.Prelude.{◌≡◌, ◌↔◌, ◌<◌, ◌≤◌, ◌||◌, Bool, List, [], true, length, IsTrue, IfOk};
ghost use Rattle.set_meaning.specs.Problems.{IsKind};
ghost use Rattle.set_meaning.specs.Kinds.{InKind};
ghost use Rattle.set_meaning.specs.declared.kinds.Value.{Value as AnyValue};
ghost use Rattle.bit_layout.specs.Limits.{IsNarrow, counted_bits};
ghost use Rattle.bit_layout.specs.Words.{IsValueOf, width_of, word_of};
ghost use Rattle.log_rules.specs.Tables.{next_node, walk};
ghost use Rattle.log_rules.specs.Boxes.{FitsWidth};
ghost use Rattle.sweep_rules.specs.Rules.{accepts};
ghost use Rattle.sweep_states.specs.Sweeps.{Each, SomeEnds};
ghost use Rattle.log_checker.specs.Shapes.{SomeValue, own_places};
ghost use Rattle.log_checker.specs.Body.{IsKindWithin};

use crate::shapes::{Beyond, Other};
use bit_layout::{values_have_words, width};
use set_meaning::Kind;
use std::alloc::{AllocError, Global};
use sweep_rules::{Both, Shape, both_accept};
use sweep_states::read_through;
use sweep_table::{Side, Table, sides_accept};
use sweep_values::{Domain, domains_accept_values};

/// Whether each initial value that is accepted from the node `inside` is accepted from one of the other two.
pub(crate) fn is_inside(
    alloc: Global,
    kind: &Kind,
    table: &Table,
    inside: u64,
    first: u64,
    second: u64,
) -> Result<bool, AllocError>
    requires kind { IsKindWithin kind.now }
    requires inside { inside < next_node table.now }
    requires first { first < next_node table.now }
    requires second { second < next_node table.now }
    requires fits { FitsWidth table.now inside (width_of kind.now) }
    requires fits_first { FitsWidth table.now first (width_of kind.now) }
    requires fits_second { FitsWidth table.now second (width_of kind.now) }
    ensures { IfOk result (λ yes. IsTrue yes ↔ ((x : AnyValue) → InKind kind.now x → walk table.now inside (word_of kind.now x) ≡ true
        → (walk table.now first (word_of kind.now x) || walk table.now second (word_of kind.now x)) ≡ true)) }
{
    if inside == first || inside == second {
        return Ok(true);
    }
    sides_accept();
    values_have_words();
    table.obeys_rules();
    let out_first = beyond(alloc, kind, table, first)?;
    let out_second = beyond(alloc, kind, table, second)?;
    both_accept::<Beyond, Beyond>();
    let shape = Both {
        first: out_first,
        second: out_second,
    };
    let leaves = some_value(alloc, kind, table, inside, shape)?;
    Ok(!leaves)
}

/// Whether each initial value that is accepted from the node has this word.
pub(crate) fn is_only(
    alloc: Global,
    kind: &Kind,
    table: &Table,
    inside: u64,
    word: &[bool],
) -> Result<bool, AllocError>
    requires kind { IsKindWithin kind.now }
    requires inside { inside < next_node table.now }
    requires fits { FitsWidth table.now inside (width_of kind.now) }
    requires long { length word.now ≡ width_of kind.now }
    ensures { IfOk result (λ yes. IsTrue yes ↔ ((x : AnyValue) → InKind kind.now x → walk table.now inside (word_of kind.now x) ≡ true
        → word_of kind.now x ≡ word.now)) }
{
    values_have_words();
    let leaves = some_value(alloc, kind, table, inside, Other { word })?;
    Ok(!leaves)
}

/// The words that the node does not accept.
fn beyond<'a>(
    alloc: Global,
    kind: &Kind,
    table: &'a Table,
    node: u64,
) -> Result<Beyond<'a>, AllocError>
    requires kind { IsKindWithin kind.now }
    ensures { IfOk result (λ s. (s.side.table.now ≡ table.now) × (s.side.root ≡ node) × (s.side.places.items ≡ own_places (width_of kind.now))) }
{
    let side = side_of(alloc, kind, table, node)?;
    Ok(Beyond { side })
}

/// The words that the node accepts.
fn side_of<'a>(
    alloc: Global,
    kind: &Kind,
    table: &'a Table,
    node: u64,
) -> Result<Side<'a>, AllocError>
    requires kind { IsKindWithin kind.now }
    ensures { IfOk result (λ s. (s.table.now ≡ table.now) × (s.root ≡ node) × (s.places.items ≡ own_places (width_of kind.now))) }
{
    let places = places(alloc, width(kind))?;
    Ok(Side {
        table,
        root: node,
        places,
    })
}

/// The places of a word.
fn places(alloc: Global, width: u32) -> Result<Vec<Option<u64>>, AllocError>
    ensures { IfOk result (λ places. places.items ≡ own_places width) }
{
    let mut places = Vec::new(alloc);
    for place in 0..width {
        places.push(Some(u64::from(place)))?;
    }
    Ok(places)
}

/// Whether some initial value is accepted from the node and its word by the shape.
fn some_value<S: Shape + Drop>(
    alloc: Global,
    kind: &Kind,
    table: &Table,
    inside: u64,
    shape: S,
) -> Result<bool, AllocError>
    requires kind { IsKindWithin kind.now }
    requires inside { inside < next_node table.now }
    requires fits { FitsWidth table.now inside (width_of kind.now) }
    requires shape { S.valid shape }
    requires places { S.places shape ≡ width_of kind.now }
    ensures { IfOk result (λ yes. IsTrue yes ↔ SomeValue kind.now table.now inside (accepts (S.rules shape))) }
{
    domains_accept_values();
    let domain = Domain::of(alloc, kind)?;
    let yes = sweep(alloc, kind, table, inside, domain, shape)?;
    Ok(yes)
}

/// The same, where `domain` accepts just the words of the kind's initial values.
fn sweep<D: Shape + Drop, S: Shape + Drop>(
    alloc: Global,
    kind: &Kind,
    table: &Table,
    inside: u64,
    domain: D,
    shape: S,
) -> Result<bool, AllocError>
    requires kind { IsKindWithin kind.now }
    requires inside { inside < next_node table.now }
    requires fits { FitsWidth table.now inside (width_of kind.now) }
    requires domain { D.valid domain }
    requires domain_places { D.places domain ≡ width_of kind.now }
    requires values { (word : List Bool) → length word ≡ width_of kind.now → (accepts (D.rules domain) word ≡ true) ↔ ((x : AnyValue) × IsValueOf kind.now word x) }
    requires shape { S.valid shape }
    requires places { S.places shape ≡ width_of kind.now }
    ensures { IfOk result (λ yes. IsTrue yes ↔ SomeValue kind.now table.now inside (accepts (S.rules shape))) }
{
    sides_accept();
    values_have_words();
    both_accept::<D, S>();
    table.obeys_rules();
    let width = width(kind);
    let side = side_of(alloc, kind, table, inside)?;
    let both = Both {
        first: domain,
        second: shape,
    };
    let mut states = Vec::new(alloc);
    states.push(both.start())?;
    let ends = read_through(alloc, &both, 0, &side, width as usize, states.as_slice())?;
    let yes = some_accepts(&both, ends.as_slice());
    Ok(yes)
}

/// Whether the shape accepts at one of the states, after all bits.
#[tactic(auto, using(crate::proofs::Passing::no_ends))]
fn some_accepts<S: Shape>(shape: &S, states: &[S::State]) -> bool
    requires valid { S.valid shape.now }
    requires occur { Each (S.occurs shape.now (S.places shape.now)) states.now }
    ensures { IsTrue result ↔ SomeEnds (S.rules shape.now) (S.places shape.now) [] states.now }
{
    for state in states {
        if shape.accepts(*state) {
            return true;
        }
    }
    false
}
