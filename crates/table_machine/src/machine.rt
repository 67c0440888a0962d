//! The machine.
ghost use Rattle.std.specs.Prelude.{◌≡◌, ◌+◌, ◌≤◌, ◌<◌, length};
ghost use Rattle.bit_layout.specs.Words.{digit};
ghost use Rattle.table_machine.specs.Tables.{rules, cut, half, narrowed, after, begun, continued, is_free, AreTables, OccursAt, IsCut, CanRead};
ghost use Rattle.table_machine.specs.Comparisons.{state_true};

use crate::states::{Reading, State};
use bit_machine::Machine;
use std::marker::Model;

/// A machine that reads its bits as the digits of words, and accepts where each word is listed in its table. Contracts see it as
/// the listed words, as binary numbers, table after table, and how the bit at each place is read.
///
/// A step takes time logarithmic in the length of a table. A state within a word is a range of the words that are listed, unless all
/// or none of those that begin with what was read are: where a table has all numbers up to one, at most three states occur at a place.
#[derive(Drop)]
pub struct TableMachine {
    words: Vec<u64>,
    readings: Vec<Reading>,
    start: State,
}

impl Model for TableMachine {
    ghost use Rattle.table_machine.specs.Tables.{Tables};

    ghost Value = { Tables };

    ghost view = { λ m. record { words = m.words.items; readings = m.readings.items; start = m.start } };
}

impl TableMachine {
    pub(crate) fn of(words: Vec<u64>, readings: Vec<Reading>, start: State) -> TableMachine
        ensures { result ≡ record { words = words.items; readings = readings.items; start = start } }
    {
        TableMachine {
            words,
            readings,
            start,
        }
    }
}

impl Machine for TableMachine {
    type State = State;

    ghost rules = { rules };

    ghost places = { λ m. length m.readings };

    ghost valid = { AreTables };

    ghost occurs = { OccursAt };

    ghost identical = { state_true };

    fn start(&self) -> State {
        self.start
    }

    fn step(&self, at: usize, state: State, value: bool) -> State {
        after(self.words.as_slice(), self.readings[at], state, value)
    }

    fn accepts(&self, state: State) -> bool {
        match state {
            State::Free => true,
            State::Lost => false,
            State::Within { .. } => false,
        }
    }
}

/// The state after a bit that is read so.
fn after(words: &[u64], reading: Reading, state: State, value: bool) -> State
    requires { CanRead words.now reading state }
    ensures { result ≡ after words.now reading state value }
{
    match reading {
        Reading::Passed => state,
        Reading::First { from, to, rest } => begun(words, from, to, rest, state, value),
        Reading::Next { rest } => continued(words, rest, state, value),
    }
}

/// The state after the first bit of a word.
fn begun(words: &[u64], from: usize, to: usize, rest: u32, state: State, value: bool) -> State
    requires { IsCut words.now rest from to }
    ensures { result ≡ begun words.now from to rest state value }
{
    match state {
        State::Free => half(words, rest, from, to, value),
        State::Lost => State::Lost,
        State::Within { .. } => State::Lost,
    }
}

/// The state after a later bit of a word.
fn continued(words: &[u64], rest: u32, state: State, value: bool) -> State
    requires { CanRead words.now (Reading.Next rest) state }
    ensures { result ≡ continued words.now rest state value }
{
    match state {
        State::Free => State::Free,
        State::Lost => State::Lost,
        State::Within { from, to } => half(words, rest, from, to, value),
    }
}

/// The state where of a part of the list the words are left whose next bit is this; after it come `rest` bits.
fn half(words: &[u64], rest: u32, from: usize, to: usize, value: bool) -> State
    requires { IsCut words.now rest from to }
    ensures { result ≡ half words.now rest from to value }
{
    let middle = cut(words, rest, from, to);
    if value {
        narrowed(rest, middle, to)
    } else {
        narrowed(rest, from, middle)
    }
}

/// From which position on, of a part of the list, the next bit of the words is true.
fn cut(words: &[u64], rest: u32, from: usize, to: usize) -> usize
    requires { IsCut words.now rest from to }
    ensures value { result ≡ cut words.now rest from to }
    ensures low { from ≤ result }
    ensures high { result ≤ to }
{
    from + words[from..to].partition_point(|word| !digit(*word, rest))
}

/// The binary digit after which `rest` digits come.
fn digit(word: u64, rest: u32) -> bool
    requires { rest < 64 }
    ensures { result ≡ digit word rest }
{
    (word >> rest) % 2 == 1
}

/// The state in which a part of the list is left, and `rest` bits are to come.
fn narrowed(rest: u32, from: usize, to: usize) -> State
    requires up { from ≤ to }
    requires narrow { rest < 64 }
    ensures { result ≡ narrowed rest from to }
{
    let count = (to - from) as u64;
    if count == 0 {
        State::Lost
    } else if count == 1 << rest {
        State::Free
    } else {
        State::Within { from, to }
    }
}
