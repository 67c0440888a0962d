//! Weights of bits, added up.
ghost use Rattle.std.specs.Prelude.{◌≡◌, ℕ, ◌+◌, ◌*◌, ◌<◌, ◌≤◌, ◌^◌, ℤ, pos, ◌+ℤ◌, ◌*ℤ◌, unsigned_abs, if◌then◌else◌, length, slice_index, All, Contains, IfOk, sum_by};
ghost use Rattle.std.specs.List.Sorted.{IsStrictlyIncreasing};
ghost use Rattle.diagram_arena.specs.Table.{Word};
ghost use Rattle.linear_machine.specs.Sums.{sum_of_true};
ghost use Rattle.linear_terms.specs.Weights.{weigh, worth};

use bit_layout::Bit;
use set_meaning::Kind;
use std::alloc::{AllocError, Global};

/// So many zeros.
pub(crate) fn zeros(alloc: Global, count: usize) -> Result<Vec<i128>, AllocError>
    ensures long { IfOk result (λ v. length v.items ≡ count) }
    ensures none { IfOk result (λ v. sum_by unsigned_abs v.items ≡ 0) }
{
    let mut zeros = Vec::new(alloc);
    for _i in 0..count {
        zeros.push(0)?;
    }
    Ok(zeros)
}

/// Adds to the weights of a variable's bits what they count, times the coefficient.
pub(crate) fn add_bits(
    weights: &mut [i128],
    bits: &[Bit],
    own: &[Bit],
    kind: &Kind,
    coefficient: i64,
)
    requires ascend { IsStrictlyIncreasing bits.now }
    requires long { length weights.old ≡ length bits.now }
    requires listed { All (Contains bits.now) own.now }
    requires few { length own.now ≤ 1048576 }
    requires narrow { (behind : ℕ) → behind < length own.now → worth kind.now behind ≤ 2 ^ 15 }
    requires coefficient { unsigned_abs coefficient ≤ 1000000000 }
    requires room { sum_by unsigned_abs weights.old ≤ 2 ^ 100 }
    ensures sums { (w : Word) → sum_of_true bits.now weights.new w ≡ (sum_of_true bits.now weights.old w +ℤ (coefficient *ℤ pos (weigh kind.now own.now w))) }
    ensures sizes { sum_by unsigned_abs weights.new ≤ sum_by unsigned_abs weights.old + length own.now * 2 ^ 45 }
{
    for (i, bit) in own.iter().enumerate() {
        let behind = own.len() - 1 - i;
        let amount = amount(coefficient, worth(kind, behind as u32));
        add(weights, bits, *bit, amount);
    }
}

/// What a bit counts, where so many bits of the variable are behind it.
fn worth(kind: &Kind, behind: u32) -> u32
    requires { worth kind.now behind ≤ 2 ^ 15 }
    ensures { result ≡ worth kind.now behind }
{
    match kind {
        Kind::Bool => 2_u32.pow(behind),
        Kind::Int(_) => 2_u32.pow(behind),
        Kind::Set(_) => 1,
    }
}

fn amount(coefficient: i64, worth: u32) -> i128
    requires coefficient { unsigned_abs coefficient ≤ 1000000000 }
    requires worth { worth ≤ 2 ^ 15 }
    ensures value { result ≡ coefficient *ℤ pos worth }
    ensures size { unsigned_abs result ≤ 2 ^ 45 }
{
    product(coefficient, i64::from(worth))
}

/// The product of two 64-bit integers.
pub(crate) fn product(a: i64, b: i64) -> i128
    ensures value { result ≡ a *ℤ b }
    ensures size { unsigned_abs result ≡ unsigned_abs a * unsigned_abs b }
{
    i128::from(a) * i128::from(b)
}

/// Adds an amount to the weight of one bit.
fn add(weights: &mut [i128], bits: &[Bit], bit: Bit, amount: i128)
    requires ascend { IsStrictlyIncreasing bits.now }
    requires long { length weights.old ≡ length bits.now }
    requires listed { Contains bits.now bit }
    requires room { sum_by unsigned_abs weights.old + unsigned_abs amount ≤ 2 ^ 120 }
    ensures sums { (w : Word) → sum_of_true bits.now weights.new w ≡ (sum_of_true bits.now weights.old w +ℤ (if w bit then amount else pos 0)) }
    ensures sizes { sum_by unsigned_abs weights.new ≤ sum_by unsigned_abs weights.old + unsigned_abs amount }
{
    let place = place_of(bits, bit);
    weights[place] += amount;
}

/// Where the bit stands in the list.
fn place_of(bits: &[Bit], bit: Bit) -> usize
    requires ascend { IsStrictlyIncreasing bits.now }
    requires listed { Contains bits.now bit }
    ensures within { result < length bits.now }
    ensures here { slice_index bits.now result ≡ bit }
{
    match bits.binary_search(&bit) {
        Ok(place) => place,
        Err(_) => unreachable!(),
    }
}
