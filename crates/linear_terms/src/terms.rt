//! From the terms of a linear sum to its machine.
ghost use Rattle.std.specs.Prelude.{◌≡◌, ◌↔◌, ℕ, ◌+◌, ◌*◌, ◌<◌, ◌≤◌, ◌^◌, true, ℤ, pos, ◌+ℤ◌, ◌*ℤ◌, unsigned_abs, List, [], ◌∷◌, map, length, All, IfOk, sum_by};
ghost use Rattle.std.specs.List.Sorted.{IsStrictlyIncreasing};
ghost use Rattle.set_meaning.specs.declared.kinds.Value.{Value};
ghost use Rattle.diagram_arena.specs.Table.{Word};
ghost use Rattle.bit_machine.specs.Rules.{accepts};
ghost use Rattle.bit_layout.specs.Words.{least};
ghost use Rattle.scope_words.specs.Words.{Gives, bits_at};
ghost use Rattle.linear_machine.specs.Sums.{Compares, sum_of_true};
ghost use Rattle.linear_machine.specs.Steps.{rules_of};
ghost use Rattle.linear_terms.specs.Terms.{AreTermsSmall, HasBitsOf, linear_sum};
ghost use Rattle.linear_terms.specs.Weights.{least_number, least_sum_of, weighed_sum};

use crate::sums::{add_bits, product, zeros};
use bit_layout::{Bit, Layout, integers_have_offsets, widths_are_least};
use linear_machine::{Comparison, Linear, accepts_by_its_sum};
use set_meaning::{Kind, VarId};
use std::alloc::{AllocError, Global};

/// A coefficient times the number that a variable's value counts as.
#[derive(Clone, Copy, PartialEq, Eq, Debug, Drop)]
pub struct LinearTerm {
    pub coefficient: i64,
    pub variable: VarId,
}

/// The machine over these bits that accepts where the constant and the terms together compare with 0 as asked, for every word that gives
/// values to the terms' variables. `bits` are those of a scope, ascending; each bit of a term's variable must be one of them. `kinds` are those
/// of the layout's problem.
///
/// Time is of the order of the bits, and of the bits of the terms' variables times the logarithm of their number; a variable may stand in
/// several terms. An `Err` is want of memory.
pub fn linear_over(
    alloc: Global,
    layout: &Layout,
    kinds: &[Kind],
    bits: &[Bit],
    terms: &[LinearTerm],
    constant: i128,
    comparison: Comparison,
) -> Result<Linear, AllocError>
    requires kinds { layout.now.kinds ≡ kinds.now }
    requires ascend { IsStrictlyIncreasing bits.now }
    requires known { All (λ t. t.variable.0 < length kinds.now) terms.now }
    requires listed { All (λ t. HasBitsOf layout.now bits.now t.variable) terms.now }
    requires small { AreTermsSmall terms.now constant }
    ensures places { IfOk result (λ m. length m.weights ≡ length bits.now) }
    ensures accepts { IfOk result (λ m. (values : List Value) (w : Word) → Gives layout.now (map (λ t. t.variable) terms.now) values w
        → (accepts (rules_of m) bits.now w ≡ true) ↔ Compares comparison (constant +ℤ linear_sum terms.now values)) }
{
    // What holds of every layout, of words and of machines.
    layout.obeys_order();
    integers_have_offsets();
    accepts_by_its_sum();
    let weights = weights_of(alloc, layout, kinds, bits, terms)?;
    let base = base_of(kinds, terms, constant);
    let machine = Linear::new(alloc, weights.as_slice(), base, comparison)?;
    Ok(machine)
}

/// For each bit what it adds to the sum where it is true.
fn weights_of(
    alloc: Global,
    layout: &Layout,
    kinds: &[Kind],
    bits: &[Bit],
    terms: &[LinearTerm],
) -> Result<Vec<i128>, AllocError>
    requires kinds { layout.now.kinds ≡ kinds.now }
    requires ascend { IsStrictlyIncreasing bits.now }
    requires known { All (λ t. t.variable.0 < length kinds.now) terms.now }
    requires listed { All (λ t. HasBitsOf layout.now bits.now t.variable) terms.now }
    requires coefficients { All (λ t. unsigned_abs t.coefficient ≤ 1000000000) terms.now }
    requires few { length terms.now ≤ 4194304 }
    ensures long { IfOk result (λ weights. length weights.items ≡ length bits.now) }
    ensures sums { IfOk result (λ weights. (w : Word) → sum_of_true bits.now weights.items w ≡ weighed_sum layout.now terms.now w) }
    ensures sizes { IfOk result (λ weights. sum_by unsigned_abs weights.items ≤ 2 ^ 90) }
{
    // What holds of every layout, and of widths.
    layout.obeys_order();
    widths_are_least();
    let mut weights = zeros(alloc, bits.len())?;
    add_terms(weights.as_mut_slice(), layout, kinds, bits, terms);
    Ok(weights)
}

/// Adds what each term's variable adds for each of its bits.
fn add_terms(
    weights: &mut [i128],
    layout: &Layout,
    kinds: &[Kind],
    bits: &[Bit],
    terms: &[LinearTerm],
)
    requires kinds { layout.now.kinds ≡ kinds.now }
    requires ascend { IsStrictlyIncreasing bits.now }
    requires long { length weights.old ≡ length bits.now }
    requires known { All (λ t. t.variable.0 < length kinds.now) terms.now }
    requires listed { All (λ t. HasBitsOf layout.now bits.now t.variable) terms.now }
    requires coefficients { All (λ t. unsigned_abs t.coefficient ≤ 1000000000) terms.now }
    requires few { length terms.now ≤ 4194304 }
    requires none { sum_by unsigned_abs weights.old ≡ 0 }
    ensures sums { (w : Word) → sum_of_true bits.now weights.new w ≡ weighed_sum layout.now terms.now w }
    ensures sizes { sum_by unsigned_abs weights.new ≤ length terms.now * 2 ^ 66 }
{
    for term in terms {
        add_term(weights, layout, kinds, bits, *term);
    }
}

fn add_term(weights: &mut [i128], layout: &Layout, kinds: &[Kind], bits: &[Bit], term: LinearTerm)
    requires kinds { layout.now.kinds ≡ kinds.now }
    requires ascend { IsStrictlyIncreasing bits.now }
    requires long { length weights.old ≡ length bits.now }
    requires known { term.variable.0 < length kinds.now }
    requires listed { HasBitsOf layout.now bits.now term.variable }
    requires coefficient { unsigned_abs term.coefficient ≤ 1000000000 }
    requires room { sum_by unsigned_abs weights.old ≤ 2 ^ 100 }
    ensures sums { (w : Word) → sum_of_true bits.now weights.new w ≡ (sum_of_true bits.now weights.old w +ℤ weighed_sum layout.now (term ∷ []) w) }
    ensures sizes { sum_by unsigned_abs weights.new ≤ sum_by unsigned_abs weights.old + 2 ^ 66 }
{
    layout.obeys_order();
    widths_are_least();
    add_bits(
        weights,
        bits,
        bits_of(layout, term.variable),
        &kinds[term.variable.0 as usize],
        term.coefficient,
    );
}

/// The bits of one variable, as a list.
fn bits_of(layout: &Layout, v: VarId) -> &[Bit]
    requires { v.0 < length layout.now.kinds }
    ensures { result.now ≡ bits_at layout.now v }
{
    layout.bits_of(v)
}

/// The constant, and what the terms add where all bits are false.
fn base_of(kinds: &[Kind], terms: &[LinearTerm], constant: i128) -> i128
    requires known { All (λ t. t.variable.0 < length kinds.now) terms.now }
    requires small { AreTermsSmall terms.now constant }
    ensures value { result ≡ constant +ℤ least_sum_of kinds.now terms.now }
    ensures size { unsigned_abs result ≤ 2 ^ 100 + length terms.now * 2 ^ 93 }
{
    let mut base = constant;
    for term in terms {
        base += product(
            term.coefficient,
            least_number(&kinds[term.variable.0 as usize]),
        );
    }
    base
}

/// What a value counts whose bits are all false.
fn least_number(kind: &Kind) -> i64
    ensures { result ≡ least_number kind.now }
{
    match kind {
        Kind::Bool => 0,
        Kind::Int(numbers) => least(numbers.elements()),
        Kind::Set(_) => 0,
    }
}

/// The first number, or 0 where there is none.
fn least(numbers: &[i64]) -> i64
    ensures { result ≡ least numbers.now }
{
    match numbers {
        [first, ..] => *first,
        [] => 0,
    }
}
