//! The initial values of a variable as a shape.
ghost use Rattle.std.specs.Prelude.{◌≡◌, ◌↔◌, ◌+◌, ◌*◌, ◌^◌, ◌<◌, ◌≤◌, true, false, Bool, List, map, length, IfOk};
ghost use Rattle.set_meaning.specs.declared.kinds.Kind.{Kind as AnyKind};
ghost use Rattle.set_meaning.specs.declared.kinds.Value.{Value};
ghost use Rattle.set_meaning.specs.Problems.{IsKind};
ghost use Rattle.set_meaning.specs.Sets.{IsAscending};
ghost use Rattle.bit_layout.specs.Limits.{IsNarrow, counted_bits};
ghost use Rattle.bit_layout.specs.Words.{IsValueOf, bit_width, distance, least, span, width_of};
ghost use Rattle.sweep_rules.specs.Rules.{accepts};
ghost use Rattle.sweep_values.specs.Parts.{part_true};
ghost use Rattle.sweep_values.specs.Domains.{OccursAt, Rises, below, domain_rules, is_every, is_free, offsets_of, settle};

use crate::part::Part;
use bit_layout::width;
use set_meaning::Kind;
use std::alloc::{AllocError, Global};
use sweep_rules::Shape;

/// The words of the initial values of a kind. For a Boolean or a set variable that is each word of its width; for an integer variable
/// those whose number is the offset of one of its values from the least.
#[derive(Drop)]
pub struct Domain {
    offsets: Vec<u64>,
    width: u32,
    free: bool,
}

impl Domain {
    /// The shape of the words of the kind's initial values. Time and memory are linear in the integers that an integer variable lists. An
    /// `Err` is want of memory.
    pub fn of(alloc: Global, kind: &Kind) -> Result<Domain, AllocError>
        requires kind { IsKind kind.now }
        requires narrow { IsNarrow kind.now }
        requires bits { counted_bits kind.now ≤ 1048576 }
        ensures offsets { IfOk result (λ s. s.offsets.items ≡ offsets_of kind.now) }
        ensures width { IfOk result (λ s. s.width ≡ width_of kind.now) }
        ensures free { IfOk result (λ s. s.free ≡ is_free kind.now) }
        ensures valid { IfOk result (λ s. Rises s.offsets.items × (s.free ≡ false → s.width ≤ 16)) }
    {
        match kind {
            Kind::Bool => Ok(Domain {
                offsets: Vec::new(alloc),
                width: 1,
                free: true,
            }),
            Kind::Int(numbers) => {
                let domain = integers(alloc, numbers.elements(), width(kind))?;
                Ok(domain)
            }
            Kind::Set(_) => Ok(Domain {
                offsets: Vec::new(alloc),
                width: width(kind),
                free: true,
            }),
        }
    }
}

impl Domain {
    /// How many bits a word has. Takes no memory, and constant time.
    pub fn width(&self) -> u32
        ensures { result ≡ self.now.width }
    {
        self.width
    }
}

/// The shape of the words of an integer variable's values.
fn integers(alloc: Global, numbers: &[i64], width: u32) -> Result<Domain, AllocError>
    requires ascending { IsAscending numbers.now }
    requires narrow { span numbers.now ≤ 65535 }
    requires width { width ≡ bit_width (span numbers.now) }
    ensures offsets { IfOk result (λ s. s.offsets.items ≡ map (distance (least numbers.now)) numbers.now) }
    ensures width { IfOk result (λ s. s.width ≡ width) }
    ensures free { IfOk result (λ s. s.free ≡ false) }
    ensures valid { IfOk result (λ s. Rises s.offsets.items × (s.free ≡ false → s.width ≤ 16)) }
{
    let offsets = offsets(alloc, numbers)?;
    Ok(Domain {
        offsets,
        width,
        free: false,
    })
}

/// Does nothing. Its contract is the law that the shape of a kind accepts just the words of the kind's initial values.
pub fn domains_accept_values()
    ensures { (kind : AnyKind) (word : List Bool) → IsKind kind → IsNarrow kind → length word ≡ width_of kind
        → (accepts (domain_rules (offsets_of kind) (width_of kind) (is_free kind)) word ≡ true) ↔ ((x : Value) × IsValueOf kind word x) }
{}

impl Shape for Domain {
    type State = Part;

    ghost rules = { λ s. domain_rules s.offsets.items s.width s.free };

    ghost places = { λ s. s.width };

    ghost valid = { λ s. Rises s.offsets.items × (s.free ≡ false → s.width ≤ 16) };

    ghost occurs = { λ s at q. OccursAt s.width at q };

    ghost identical = { part_true };

    fn start(&self) -> Part {
        if self.free {
            return Part::Every;
        }
        settle(self.offsets.as_slice(), self.width, 0)
    }

    fn step(&self, at: usize, state: Part, value: bool) -> Part {
        match state {
            Part::Every => Part::Every,
            Part::Partly(prefix) => settle(
                self.offsets.as_slice(),
                self.width - (at as u32 + 1),
                2 * prefix + u64::from(value),
            ),
            Part::Nothing => Part::Nothing,
        }
    }

    fn accepts(&self, state: Part) -> bool {
        matches!(state, Part::Every)
    }

    fn is_lost(&self, state: Part) -> bool {
        matches!(state, Part::Nothing)
    }
}

/// Which of the numbers that begin with these binary digits are listed, where so many digits are to come.
fn settle(offsets: &[u64], left: u32, prefix: u64) -> Part
    requires rises { Rises offsets.now }
    requires short { left ≤ 16 }
    requires small { (prefix + 1) * 2 ^ left ≤ 2 ^ 16 }
    ensures { result ≡ settle offsets.now left prefix }
{
    let count = 2_u64.pow(left);
    let first = prefix * count;
    let listed = below(offsets, first + count).saturating_sub(below(offsets, first));
    if listed as u64 == count {
        return Part::Every;
    }
    if listed == 0 {
        return Part::Nothing;
    }
    Part::Partly(prefix)
}

/// How many of the ascending numbers are below `bound`, by binary search.
fn below(numbers: &[u64], bound: u64) -> usize
    requires { Rises numbers.now }
    ensures { result ≡ below numbers.now bound }
{
    numbers.partition_point(|x| *x < bound)
}

/// How far each of the ascending numbers is above the first.
fn offsets(alloc: Global, numbers: &[i64]) -> Result<Vec<u64>, AllocError>
    ensures { IfOk result (λ offsets. offsets.items ≡ map (distance (least numbers.now)) numbers.now) }
{
    let first = least(numbers);
    let offsets = distances(alloc, first, numbers)?;
    Ok(offsets)
}

/// How far each of the numbers is from `first`.
fn distances(alloc: Global, first: i64, numbers: &[i64]) -> Result<Vec<u64>, AllocError>
    ensures { IfOk result (λ distances. distances.items ≡ map (distance first) numbers.now) }
{
    numbers.iter().map(|x| x.abs_diff(first)).collect(alloc)
}

/// The first of the numbers; 0 where there are none.
fn least(numbers: &[i64]) -> i64
    ensures { result ≡ least numbers.now }
{
    match numbers {
        [first, ..] => *first,
        [] => 0,
    }
}
