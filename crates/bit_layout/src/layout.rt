//! The layout of a problem: its bits in their order.
ghost use Rattle.std.specs.Prelude.{◌≡◌, ℕ, ◌+◌, ◌<◌, ◌≤◌, ◌↔◌, ◌++◌, map, take, drop, length, IfOk, IfNone, OnOk, IsSomeAnd, Some, slice_get, sum_by, All, Contains};
ghost use Rattle.std.specs.List.{AllZip, range_with_len};
ghost use Rattle.std.specs.List.Sorted.{IsStrictlyIncreasing, IsStrictlySortedBy};
ghost use Rattle.set_meaning.specs.declared.kinds.Value.{Value as AnyValue};
ghost use Rattle.set_meaning.specs.Kinds.{InKind};
ghost use Rattle.set_meaning.specs.Problems.{IsKind};
ghost use Rattle.bit_layout.specs.declared.places.Place.{Place};
ghost use Rattle.bit_layout.specs.Words.{width_of};
ghost use Rattle.bit_layout.specs.Limits.{IsNarrow, AreWithinLimits, counted_bits};
ghost use Rattle.bit_layout.specs.Order.{IsOrder, IsLayout, element_at, width_at, bit_at, StandsFor, word_at, IsValueAt, place_cmp};
ghost use Rattle.bit_layout.specs.Body.{places_of, file_places, starts_of};

use crate::places::Place;
use crate::words;
use set_meaning::{Kind, Problem, Value, VarId};
use std::alloc::{AllocError, Global};
use std::marker::Model;

/// A bit, by its number in the order of all bits of a problem, counted from 0.
pub type Bit = u32;

/// All bits of a problem in one order, and the words of its variables' values: this project's own order. Contracts
/// see it as the kinds of the variables and, for each bit, the place that it stands for.
#[derive(Drop)]
pub struct Layout {
    kinds: Vec<Kind>,
    places: Vec<Place>,
    bits: Vec<Bit>,
    starts: Vec<u32>,
}

impl Model for Layout {
    ghost use Rattle.bit_layout.specs.Order.{LayoutState};

    ghost Value = { LayoutState };

    ghost use Rattle.bit_layout.specs.Body.{state, IsKept};

    ghost view = { state };

    ghost invariant = { IsKept };
}

impl Layout {
    /// The layout of the problem, whose kinds are within the limits: integer variables with at most 65,535 between
    /// their least and greatest value, and at most 1,048,576 bits in all, each variable counted as at least one. It
    /// keeps a copy of the kinds, and takes time of the order of the bits times the logarithm of their number, and
    /// time and memory for the integers and elements that the kinds list. An `Err` is want of memory.
    pub fn new(alloc: Global, p: &Problem) -> Result<Layout, AllocError>
        requires { AreWithinLimits p.now.kinds }
        ensures kinds { IfOk result (λ layout. layout.kinds ≡ p.now.kinds) }
        ensures order { IfOk result (λ layout. IsOrder layout.kinds layout.places) }
    {
        let kinds = copies(alloc, p.kinds.items())?;
        let listed = file_places(alloc, kinds.as_slice())?;
        let mut places = Vec::from_slice(alloc, listed.as_slice())?;
        places.sort_unstable();
        let bits = bits_in_file_order(alloc, listed.as_slice(), places.as_slice())?;
        let starts = starts_of(alloc, kinds.as_slice())?;
        Ok(Layout {
            kinds,
            places,
            bits,
            starts,
        })
    }

    /// Does nothing. Its contract is what holds of every layout.
    pub fn obeys_order(&self)
        ensures { IsLayout self.now }
    {
        // What is known of the layout.
        let _ = &self.kinds;
    }

    /// How many bits there are. Takes no memory, and constant time.
    pub fn bits(&self) -> u32
        ensures value { result ≡ length self.now.places }
        ensures total { result ≡ sum_by width_of self.now.kinds }
        ensures few { result ≤ 1048576 }
    {
        self.places.len() as u32
    }

    /// How many bits a word of the variable has: none where it has one initial value only. Takes no memory,
    /// and constant time.
    pub fn width(&self, v: VarId) -> u32
        requires { v.0 < length self.now.kinds }
        ensures { result ≡ width_at self.now v }
    {
        words::width(&self.kinds[v.0 as usize])
    }

    /// The bit at a position of the variable's words, counted from 0. Takes no memory, and constant time.
    pub fn bit(&self, v: VarId, position: u32) -> Bit
        requires { position < width_at self.now v }
        ensures value { result ≡ bit_at self.now v position }
        ensures place { StandsFor self.now result v position }
    {
        self.bits[(self.starts[v.0 as usize] + position) as usize]
    }

    /// The variable to which a bit belongs, and its position in that variable's words. Takes no memory, and constant
    /// time.
    pub fn place(&self, bit: Bit) -> (VarId, u32)
        requires { bit < length self.now.places }
        ensures place { StandsFor self.now bit result.0 result.1 }
        ensures known { result.0.0 < length self.now.kinds }
        ensures within { result.1 < width_at self.now result.0 }
        ensures value { bit_at self.now result.0 result.1 ≡ bit }
    {
        let place = &self.places[bit as usize];
        (place.variable, place.position)
    }

    /// The variable, the position and the element for which a bit stands. Takes no memory, and constant time.
    pub fn place_at(&self, bit: Bit) -> &Place
        requires { bit < length self.now.places }
        ensures { slice_get self.now.places bit ≡ Some result.now }
    {
        &self.places[bit as usize]
    }

    /// The bits of the variable, ascending: one for each position of its words. Takes no memory, and constant time.
    pub fn bits_of(&self, v: VarId) -> &[Bit]
        requires { v.0 < length self.now.kinds }
        ensures long { length result.now ≡ width_at self.now v }
        ensures each { (i : ℕ) → i < width_at self.now v → slice_get result.now i ≡ Some (bit_at self.now v i) }
        ensures ascending { IsStrictlyIncreasing result.now }
    {
        part(
            self.bits.as_slice(),
            self.starts[v.0 as usize],
            self.width(v),
        )
    }

    /// The word of one of the variable's initial values. That of a set takes one look-up in it for each element of the
    /// universe. An `Err` is want of memory.
    pub fn word_of(&self, alloc: Global, v: VarId, value: &Value) -> Result<Vec<bool>, AllocError>
        requires { IsSomeAnd (slice_get self.now.kinds v.0) (λ k. InKind k value.now) }
        ensures word { IfOk result (λ word. word.items ≡ word_at self.now v value.now) }
        ensures long { IfOk result (λ word. length word.items ≡ width_at self.now v) }
        ensures back { IfOk result (λ word. IsValueAt self.now v word.items value.now) }
    {
        words::word_of(alloc, &self.kinds[v.0 as usize], value)
    }

    /// The initial value of the variable whose word this is; None exactly where it is no initial value's, as a word
    /// between the integers of a domain with holes. A set takes memory for its elements. An `Err` is want of memory.
    pub fn value_of(
        &self,
        alloc: Global,
        v: VarId,
        word: &[bool],
    ) -> Result<Option<Value>, AllocError>
        requires known { v.0 < length self.now.kinds }
        requires long { length word.now ≡ width_at self.now v }
        ensures value { IfOk result (λ found. (x : AnyValue) → (found ≡ Some x) ↔ IsValueAt self.now v word.now x) }
        ensures none { IfOk result (λ found. IfNone found ((x : AnyValue) → IsValueAt self.now v word.now x → ⊥)) }
    {
        words::value_of(alloc, &self.kinds[v.0 as usize], word)
    }
}

/// The `width` bits from number `start` of the list on.
fn part(bits: &[Bit], start: u32, width: u32) -> &[Bit]
    requires { start + width ≤ length bits.now }
    ensures { result.now ≡ take width (drop start bits.now) }
{
    &bits[start as usize..][..width as usize]
}

/// Equal kinds, with memory of their own.
fn copies(alloc: Global, kinds: &[Kind]) -> Result<Vec<Kind>, AllocError>
    ensures { IfOk result (λ copies. copies.items ≡ kinds.now) }
{
    let mut copies = Vec::new(alloc);
    for kind in kinds {
        copies.push(copy(alloc, kind)?)?;
    }
    Ok(copies)
}

fn copy(alloc: Global, kind: &Kind) -> Result<Kind, AllocError>
    ensures { IfOk result (λ copy. copy ≡ kind.now) }
{
    match kind {
        Kind::Bool => Ok(Kind::Bool),
        Kind::Int(numbers) => Ok(Kind::Int(numbers.copy(alloc)?)),
        Kind::Set(universe) => Ok(Kind::Set(universe.copy(alloc)?)),
    }
}

/// The places of all variables, in file order.
fn file_places(alloc: Global, kinds: &[Kind]) -> Result<Vec<Place>, AllocError>
    requires { AreWithinLimits kinds.now }
    ensures { IfOk result (λ places. places.items ≡ file_places kinds.now) }
{
    let mut places = Vec::new(alloc);
    for (v, kind) in kinds.iter().enumerate() {
        push_places(&mut places, VarId(v as u32), kind)?;
    }
    Ok(places)
}

/// Appends the places of a variable of this kind.
fn push_places(places: &mut Vec<Place>, variable: VarId, kind: &Kind) -> Result<(), AllocError>
    requires kind { IsKind kind.now }
    requires narrow { IsNarrow kind.now }
    requires bits { counted_bits kind.now ≤ 1048576 }
    ensures { OnOk result (places.new.items ≡ places.old.items ++ places_of variable.0 kind.now) }
{
    for position in 0..words::width(kind) {
        let element = element_at(kind, position);
        places.push(Place {
            element,
            variable,
            position,
        })?;
    }
    Ok(())
}

fn element_at(kind: &Kind, position: u32) -> Option<i64>
    ensures { result ≡ element_at kind.now position }
{
    match kind {
        Kind::Bool => None,
        Kind::Int(_) => None,
        Kind::Set(universe) => universe.elements().get(position as usize).copied(),
    }
}

/// For each listed place where it stands in the sorted list.
fn bits_in_file_order(
    alloc: Global,
    listed: &[Place],
    sorted: &[Place],
) -> Result<Vec<Bit>, AllocError>
    requires sorted { IsStrictlySortedBy place_cmp sorted.now }
    requires all { All (Contains sorted.now) listed.now }
    requires few { length sorted.now ≤ 1048576 }
    ensures { IfOk result (λ bits. AllZip (λ p bit. slice_get sorted.now bit ≡ Some p) listed.now bits.items) }
{
    let mut bits = Vec::new(alloc);
    for place in listed {
        bits.push(bit_of(place, sorted))?;
    }
    Ok(bits)
}

/// Where the place stands in the sorted list.
fn bit_of(place: &Place, sorted: &[Place]) -> Bit
    requires sorted { IsStrictlySortedBy place_cmp sorted.now }
    requires there { Contains sorted.now place.now }
    requires few { length sorted.now ≤ 1048576 }
    ensures { slice_get sorted.now result ≡ Some place.now }
{
    match sorted.binary_search(place) {
        Ok(bit) => bit as u32,
        Err(_) => unreachable!(),
    }
}

/// For each variable how many places come before its own, in file order.
fn starts_of(alloc: Global, kinds: &[Kind]) -> Result<Vec<u32>, AllocError>
    requires { AreWithinLimits kinds.now }
    ensures { IfOk result (λ starts. starts.items ≡ starts_of kinds.now) }
{
    let mut starts = Vec::new(alloc);
    let mut start = 0;
    for kind in kinds {
        starts.push(start)?;
        start += words::width(kind);
    }
    Ok(starts)
}
