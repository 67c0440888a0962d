//! The machine of the words of initial values.
ghost use Rattle.std.specs.Prelude.{◌≡◌, ◌<◌, ◌≤◌, ◌-◌, ◌++◌, ◌↔◌, ◌≤ℤ◌, true, List, IfOk, OnOk, length, All};
ghost use Rattle.set_meaning.specs.declared.problems.VarId.{VarId};
ghost use Rattle.set_meaning.specs.declared.kinds.Kind.TheVariants as kinds;
ghost use Rattle.set_meaning.specs.Problems.{IsKind};
ghost use Rattle.set_meaning.specs.Sets.{IsAscending};
ghost use Rattle.diagram_arena.specs.Table.{Word};
ghost use Rattle.bit_layout.specs.Words.{distance, least, span, width_of};
ghost use Rattle.bit_layout.specs.Limits.{IsNarrow};
ghost use Rattle.bit_machine.specs.Rules.{accepts};
ghost use Rattle.scope_words.specs.Words.{AreBitsOf};
ghost use Rattle.table_machine.specs.Tables.{rules, AreTables};
ghost use Rattle.table_machine.specs.Values.{GivesInitialValues, AreBitsOfSome, offsets, IsReadingAt, IsReadingOf, AreReadingsOf, Grows};

use crate::laws::word_laws;
use crate::machine::TableMachine;
use crate::states::{Reading, State};
use bit_layout::{Bit, Layout};
use scope_words::bits_of_a_scope_are_one;
use set_meaning::Kind;
use std::alloc::{AllocError, Global};

impl TableMachine {
    /// The machine that accepts just the words over these bits that are words of initial values: it reads the bits of each integer variable
    /// as the offset of one of its values, and passes over those of Booleans and sets, whose words all are words of values. The bits must
    /// be all bits of some variables, in order, and the kinds those of the layout's problem.
    ///
    /// It takes memory for the offsets of each integer variable with bits, and time in proportion to these and to the bits. An `Err` is
    /// want of memory.
    pub fn initial_values(
        alloc: Global,
        layout: &Layout,
        kinds: &[Kind],
        bits: &[Bit],
    ) -> Result<TableMachine, AllocError>
        requires kinds { layout.now.kinds ≡ kinds.now }
        requires bits { AreBitsOfSome layout.now bits.now }
        ensures valid { IfOk result AreTables }
        ensures places { IfOk result (λ m. length m.readings ≡ length bits.now) }
        ensures accepts { IfOk result (λ m. (scope : List VarId) (w : Word) → AreBitsOf layout.now scope bits.now
            → All (λ v. v.0 < length layout.now.kinds) scope
            → (accepts (rules m) bits.now w ≡ true) ↔ GivesInitialValues layout.now scope w) }
    {
        word_laws();
        bits_of_a_scope_are_one();
        layout.obeys_order();
        read_initial_values(alloc, layout, kinds, bits)
    }
}

/// The machine that reads these bits so.
fn read_initial_values(
    alloc: Global,
    layout: &Layout,
    kinds: &[Kind],
    bits: &[Bit],
) -> Result<TableMachine, AllocError>
    requires kinds { layout.now.kinds ≡ kinds.now }
    requires bits { All (λ b. b < length layout.now.places) bits.now }
    ensures readings { IfOk result (λ m. AreReadingsOf layout.now m.words bits.now m.readings) }
    ensures start { IfOk result (λ m. m.start ≡ State.Free) }
{
    // What holds of every layout.
    layout.obeys_order();
    let mut words = Vec::new(alloc);
    let mut readings = Vec::new(alloc);
    for bit in bits {
        readings.push(reading_of(&mut words, layout, kinds, *bit)?)?;
    }
    Ok(TableMachine::of(words, readings, State::Free))
}

/// How a bit is read. The offsets are appended where it is the first bit of an integer variable.
fn reading_of(
    words: &mut Vec<u64>,
    layout: &Layout,
    kinds: &[Kind],
    bit: Bit,
) -> Result<Reading, AllocError>
    requires kinds { layout.now.kinds ≡ kinds.now }
    requires bit { bit < length layout.now.places }
    ensures reading { IfOk result (IsReadingOf layout.now words.new.items bit) }
    ensures grows { OnOk result (Grows words.old.items words.new.items) }
{
    // What holds of every layout.
    layout.obeys_order();
    let (variable, position) = layout.place(bit);
    let rest = layout.width(variable) - 1 - position;
    reading_at(words, &kinds[variable.0 as usize], position, rest)
}

/// How the bit at a position of the words of a variable of this kind is read; `rest` bits come after it.
fn reading_at(
    words: &mut Vec<u64>,
    kind: &Kind,
    position: u32,
    rest: u32,
) -> Result<Reading, AllocError>
    requires kind { IsKind kind.now }
    requires narrow { IsNarrow kind.now }
    requires rest { rest ≡ width_of kind.now - 1 - position }
    ensures reading { IfOk result (IsReadingAt kind.now words.new.items position) }
    ensures grows { OnOk result (Grows words.old.items words.new.items) }
{
    match kind {
        Kind::Bool => Ok(Reading::Passed),
        Kind::Int(numbers) => int_reading_at(words, numbers.elements(), position, rest),
        Kind::Set(_) => Ok(Reading::Passed),
    }
}

/// How the bit at a position of the words of an integer variable is read.
fn int_reading_at(
    words: &mut Vec<u64>,
    numbers: &[i64],
    position: u32,
    rest: u32,
) -> Result<Reading, AllocError>
    requires ascending { IsAscending numbers.now }
    requires narrow { span numbers.now ≤ 65535 }
    requires rest { rest ≡ width_of (kinds.Int numbers.now) - 1 - position }
    ensures reading { IfOk result (IsReadingAt (kinds.Int numbers.now) words.new.items position) }
    ensures grows { OnOk result (Grows words.old.items words.new.items) }
{
    if position != 0 {
        return Ok(Reading::Next { rest });
    }
    let from = words.len();
    push_offsets(words, numbers)?;
    Ok(Reading::First {
        from,
        to: words.len(),
        rest,
    })
}

/// Appends how far each of the numbers is above the least of them.
fn push_offsets(words: &mut Vec<u64>, numbers: &[i64]) -> Result<(), AllocError>
    requires ascending { IsAscending numbers.now }
    requires narrow { span numbers.now ≤ 65535 }
    ensures { OnOk result (words.new.items ≡ words.old.items ++ offsets numbers.now) }
{
    word_laws();
    let least = least(numbers);
    for number in numbers {
        words.push(offset(least, *number))?;
    }
    Ok(())
}

/// The first of the ascending numbers; 0 where there are none.
fn least(numbers: &[i64]) -> i64
    ensures { result ≡ least numbers.now }
{
    numbers.first().copied().unwrap_or(0)
}

/// How far `number` is above `least`.
fn offset(least: i64, number: i64) -> u64
    requires up { least ≤ℤ number }
    requires near { distance least number ≤ 65535 }
    ensures { result ≡ distance least number }
{
    (number - least) as u64
}
