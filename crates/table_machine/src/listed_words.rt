//! The machine of one table.
ghost use Rattle.std.specs.Prelude.{◌≡◌, ℕ, ◌+◌, ◌<◌, ◌≤◌, ◌^◌, ◌↔◌, true, List, IfOk, length, All, Contains};
ghost use Rattle.diagram_arena.specs.Table.{Word};
ghost use Rattle.bit_layout.specs.Words.{number};
ghost use Rattle.bit_machine.specs.Rules.{accepts};
ghost use Rattle.table_machine.specs.Tables.{rules, AreTables};
ghost use Rattle.table_machine.specs.Marked.{marks_in, at_marks, marked_reading, marked_readings, first_state};

use crate::machine::TableMachine;
use crate::states::{Reading, State};
use std::alloc::{AllocError, Global};

impl TableMachine {
    /// The machine that accepts just the words whose bits at the marked places, read as a binary number, the first the most significant,
    /// are one of the listed numbers. `marks` has an item for each bit that is read, and at most 64 are marked; other bits are passed over. The
    /// list may be in any order, with numbers that stand more than once, each below 2 to the power of the number of marks.
    ///
    /// Time is in proportion to the marks and to the list, times a logarithm. An `Err` is want of memory.
    pub fn one_of(
        alloc: Global,
        words: Vec<u64>,
        marks: &[bool],
    ) -> Result<TableMachine, AllocError>
        requires few { marks_in marks.now ≤ 64 }
        requires below { All (λ n. n < 2 ^ marks_in marks.now) words.items }
        ensures valid { IfOk result AreTables }
        ensures places { IfOk result (λ m. length m.readings ≡ length marks.now) }
        ensures accepts { IfOk result (λ m. (bits : List ℕ) (w : Word) → length bits ≡ length marks.now
            → (accepts (rules m) bits w ≡ true) ↔ Contains words.items (number (at_marks marks.now bits w))) }
    {
        let mut words = words;
        words.sort_unstable();
        words.dedup();
        let total = marks_in(marks);
        let count = words.len();
        let readings = marked_readings(alloc, marks, total, count)?;
        let start = first_state(total, count);
        Ok(TableMachine::of(words, readings, start))
    }
}

/// How many places are marked.
fn marks_in(marks: &[bool]) -> u32
    requires { marks_in marks.now ≤ 64 }
    ensures { result ≡ marks_in marks.now }
{
    let mut count = 0;
    for mark in marks {
        count += u32::from(*mark);
    }
    count
}

/// How the bit at each place is read.
fn marked_readings(
    alloc: Global,
    marks: &[bool],
    total: u32,
    count: usize,
) -> Result<Vec<Reading>, AllocError>
    requires few { marks_in marks.now ≤ 64 }
    requires total { total ≡ marks_in marks.now }
    ensures { IfOk result (λ readings. readings.items ≡ marked_readings total count marks.now) }
{
    let mut readings = Vec::new(alloc);
    let mut rest = total;
    for mark in marks {
        rest -= u32::from(*mark);
        readings.push(marked_reading(total, count, *mark, rest))?;
    }
    Ok(readings)
}

fn marked_reading(total: u32, count: usize, mark: bool, rest: u32) -> Reading
    requires { rest ≤ 64 }
    ensures { result ≡ marked_reading total count mark rest }
{
    if mark {
        if rest + 1 == total {
            Reading::First {
                from: 0,
                to: count,
                rest,
            }
        } else {
            Reading::Next { rest }
        }
    } else {
        Reading::Passed
    }
}

fn first_state(total: u32, count: usize) -> State
    ensures { result ≡ first_state total count }
{
    if total == 0 && count == 0 {
        State::Lost
    } else {
        State::Free
    }
}
