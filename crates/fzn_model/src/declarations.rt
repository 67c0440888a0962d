//! The rules on declarations: on their names, types, lengths and output annotations.

ghost use Rattle.std.specs.Prelude.{◌≡◌, ◌↔◌, ◌⊎◌, ◌<◌, if◌then◌else◌, false, Some, None, IsTrue, IfOk};
ghost use Rattle.std.specs.Option.{option_map};
ghost use Rattle.fzn_parser.specs.declared.tree.TypeForm.TheVariants as types;
ghost use Rattle.fzn_model.specs.declared.faults.ModelFault.TheVariants as faults;
ghost use Rattle.fzn_model.specs.Limits.{span_limit, universe_limit};
ghost use Rattle.fzn_model.specs.Items.{ident_in, numbers_in_type, numbers_of, type_in};
ghost use Rattle.fzn_model.specs.Outputs.{dims_shown, shows_scalar};
ghost use Rattle.fzn_model.specs.FaultsOf.{AreTooManyBits, HasLargeUniverse, InDeclaration, IsBadOutput, IsDeclaredTwice, IsDomain, IsEmptyDomain, IsFloatType, IsLength, IsUnbounded, IsUniverse, IsWideDomain, IsWideUniverse, IsWrongLength, declared_numbers, length_of};
ghost use Rattle.fzn_model.specs.FirstFault.{AtPlaces, IsFirstOf};
ghost use Rattle.fzn_model.specs.State.{AreSoFar};
ghost use Rattle.fzn_model.specs.DeclarationRules.{AreBounds, AreElementsAt, HasNumberFault, IsDomainOf, IsHidden, IsUniverseOf};

use crate::earlier::earlier;
use crate::extents::{Extent, extent_of};
use crate::faults::ModelFault;
use crate::literals::number_fault;
use crate::outputs::{dims_by, output_in, shows_scalar};
use crate::so_far::SoFar;
use crate::weights::{is_too_much, weight_of};
use fzn_parser::{Ann, Form, Ident, Item, Num, Number, SetForm, TypeExpr, TypeForm};
use std::alloc::{AllocError, Global};

/// How far the greatest value of an integer variable may be above the least.
const SPAN_LIMIT: u64 = 65_535;

/// The most elements of the universe of a set variable.
const UNIVERSE_LIMIT: u128 = 512;

/// The first fault in the item's declaration, but for its expression: its name, type, length and output annotation,
/// and the bits of its variable with those before. An item that declares no name has none.
pub(crate) fn fault_in_declaration(
    alloc: Global,
    so_far: &SoFar,
    before: &[Item],
    item: &Item,
) -> Result<Option<ModelFault>, AllocError>
    requires { AreSoFar before.now so_far.now }
    ensures { IfOk result (IsFirstOf (InDeclaration before.now item.now)) }
{
    let form = &item.form;
    let name = earlier(
        declared_twice(so_far, before, item),
        too_many_bits(alloc, so_far, before, item)?,
    );
    let bounds = earlier(bad_domain(alloc, item)?, bad_universe(alloc, item)?);
    let sort = earlier(
        earlier(unbounded(form), float_type(item)),
        earlier(declared_number(form), bounds),
    );
    let shape = earlier(wrong_length(form), bad_output(alloc, form)?);
    Ok(earlier(name, earlier(sort, shape)))
}

/// The fault, where that holds.
pub(crate) fn fault_if(holds: bool, fault: ModelFault) -> Option<ModelFault>
    ensures { result ≡ if holds then Some fault else None }
{
    if holds { Some(fault) } else { None }
}

// ---- names

/// An earlier item declares the name.
fn declared_twice(so_far: &SoFar, before: &[Item], item: &Item) -> Option<ModelFault>
    requires { AreSoFar before.now so_far.now }
    ensures { IsFirstOf (AtPlaces faults.DeclaredTwice (IsDeclaredTwice before.now item.now)) result }
{
    match ident_in(&item.form) {
        Some(ident) => fault_if(
            so_far.declared.known(ident.name.items()).is_some(),
            ModelFault::DeclaredTwice { at: ident.at },
        ),
        None => None,
    }
}

fn ident_in(form: &Form) -> Option<&Ident>
    ensures { option_map (λ ident. ident.now) result ≡ ident_in form.now }
{
    match form {
        Form::Param { name, .. } => Some(name),
        Form::Variable { name, .. } => Some(name),
        Form::Array { name, .. } => Some(name),
        _ => None,
    }
}

// ---- lengths

/// An array's length is not that of its literal.
fn wrong_length(form: &Form) -> Option<ModelFault>
    ensures { IsFirstOf (AtPlaces faults.WrongCount (IsWrongLength form.now)) result }
{
    match form {
        Form::Array {
            length,
            name,
            items,
            ..
        } => fault_if(
            !is_length(length, items.items().len()),
            ModelFault::WrongCount { at: name.at },
        ),
        _ => None,
    }
}

/// Whether the number is the length of so many items: a negative one is that of none.
fn is_length(number: &Number, count: usize) -> bool
    ensures { IsTrue result ↔ IsLength number.now count }
{
    match number.num {
        Num::Int(x) => length_of(x) == count as u64,
        Num::Large => false,
        Num::Float => false,
    }
}

fn length_of(x: i64) -> u64
    ensures { result ≡ length_of x }
{
    if x < 0 { 0 } else { x.unsigned_abs() }
}

// ---- types

/// A scalar variable has no bound on its integers.
fn unbounded(form: &Form) -> Option<ModelFault>
    ensures { IsFirstOf (AtPlaces faults.Unbounded (IsUnbounded form.now)) result }
{
    match form {
        Form::Variable { sort, .. } => fault_if(
            is_unbounded(&sort.form),
            ModelFault::Unbounded { at: sort.at },
        ),
        _ => None,
    }
}

fn is_unbounded(form: &TypeForm) -> bool
    ensures { IsTrue result ↔ ((form.now ≡ types.Int) ⊎ (form.now ≡ types.SetOfInt)) }
{
    matches!(form, TypeForm::Int | TypeForm::SetOfInt)
}

/// The type is that of floats.
fn float_type(item: &Item) -> Option<ModelFault>
    ensures { IsFirstOf (AtPlaces faults.Float (IsFloatType item.now)) result }
{
    match type_in(&item.form) {
        Some(sort) => fault_if(is_float(&sort.form), ModelFault::Float { at: sort.at }),
        None => None,
    }
}

fn type_in(form: &Form) -> Option<&TypeExpr>
    ensures { option_map (λ t. t.now) result ≡ type_in form.now }
{
    match form {
        Form::Param { sort, .. } => Some(sort),
        Form::Variable { sort, .. } => Some(sort),
        Form::Array { sort, .. } => Some(sort),
        _ => None,
    }
}

fn is_float(form: &TypeForm) -> bool
    ensures { IsTrue result ↔ (form.now ≡ types.Float) }
{
    matches!(form, TypeForm::Float)
}

// ---- numbers

/// A number of the type, or the length of an array, is a float or too large.
fn declared_number(form: &Form) -> Option<ModelFault>
    ensures { IsFirstOf (HasNumberFault (declared_numbers form.now)) result }
{
    match form {
        Form::Param { sort, .. } => number_in_type(&sort.form),
        Form::Variable { sort, .. } => number_in_type(&sort.form),
        Form::Array { length, sort, .. } => {
            earlier(number_in_type(&sort.form), number_fault(length))
        }
        _ => None,
    }
}

fn number_in_type(form: &TypeForm) -> Option<ModelFault>
    ensures { IsFirstOf (HasNumberFault (numbers_in_type form.now)) result }
{
    match form {
        TypeForm::Within(literal) => number_in_set(literal),
        TypeForm::SetWithin(literal) => number_in_set(literal),
        _ => None,
    }
}

pub(crate) fn number_in_set(literal: &SetForm) -> Option<ModelFault>
    ensures { IsFirstOf (HasNumberFault (numbers_of literal.now)) result }
{
    match literal {
        SetForm::Range(low, high) => earlier(number_fault(low), number_fault(high)),
        SetForm::List(numbers) => number_among(numbers.items()),
    }
}

/// The first fault of the numbers, wherever they stand.
fn number_among(numbers: &[Number]) -> Option<ModelFault>
    ensures { IsFirstOf (HasNumberFault numbers.now) result }
{
    let mut first = None;
    for number in numbers {
        first = earlier(first, number_fault(number));
    }
    first
}

// ---- bounds

/// An integer variable has no value, or its greatest value is too far above the least.
fn bad_domain(alloc: Global, item: &Item) -> Result<Option<ModelFault>, AllocError>
    ensures { IfOk result (IsFirstOf (λ f. AtPlaces faults.EmptyDomain (IsEmptyDomain item.now) f ⊎ AtPlaces faults.IntTooWide (IsWideDomain item.now) f)) }
{
    match domain_in(alloc, &item.form)? {
        Some(domain) => Ok(earlier(
            fault_if(
                is_empty(domain.extent),
                ModelFault::EmptyDomain { at: domain.at },
            ),
            fault_if(
                spans_too_much(domain.extent),
                ModelFault::IntTooWide { at: domain.at },
            ),
        )),
        None => Ok(None),
    }
}

fn is_empty(extent: Extent) -> bool
    ensures { IsTrue result ↔ (extent.count ≡ 0) }
{
    extent.count == 0
}

fn spans_too_much(extent: Extent) -> bool
    ensures { IsTrue result ↔ (span_limit < extent.span) }
{
    extent.span > SPAN_LIMIT
}

/// A universe has too many elements, or one that is too large in size.
fn bad_universe(alloc: Global, item: &Item) -> Result<Option<ModelFault>, AllocError>
    ensures { IfOk result (IsFirstOf (λ f. AtPlaces faults.SetTooWide (IsWideUniverse item.now) f ⊎ AtPlaces faults.ElementRange (HasLargeUniverse item.now) f)) }
{
    match universe_in(alloc, &item.form)? {
        Some(universe) => Ok(earlier(
            fault_if(
                is_wide(universe.extent),
                ModelFault::SetTooWide { at: universe.at },
            ),
            fault_if(
                universe.extent.has_large,
                ModelFault::ElementRange { at: universe.at },
            ),
        )),
        None => Ok(None),
    }
}

fn is_wide(extent: Extent) -> bool
    ensures { IsTrue result ↔ (universe_limit < extent.count) }
{
    extent.count > UNIVERSE_LIMIT
}

/// The extent of the elements that bound a scalar variable, and the place of their literal.
#[derive(Clone, Copy, Debug)]
struct Bounds {
    at: usize,
    extent: Extent,
}

/// The numbers of an integer variable's domain, where they are known.
fn domain_in(alloc: Global, form: &Form) -> Result<Option<Bounds>, AllocError>
    ensures { IfOk result (AreBounds (IsDomain form.now)) }
{
    match form {
        Form::Variable { sort, .. } => domain_of(alloc, sort),
        _ => Ok(None),
    }
}

fn domain_of(alloc: Global, sort: &TypeExpr) -> Result<Option<Bounds>, AllocError>
    ensures { IfOk result (AreBounds (IsDomainOf sort.now)) }
{
    match &sort.form {
        TypeForm::Within(literal) => bounds_by(alloc, sort.at, literal),
        _ => Ok(None),
    }
}

/// The elements of a set variable's universe, where they are known.
fn universe_in(alloc: Global, form: &Form) -> Result<Option<Bounds>, AllocError>
    ensures { IfOk result (AreBounds (IsUniverse form.now)) }
{
    match form {
        Form::Variable { sort, .. } => universe_of(alloc, sort),
        _ => Ok(None),
    }
}

fn universe_of(alloc: Global, sort: &TypeExpr) -> Result<Option<Bounds>, AllocError>
    ensures { IfOk result (AreBounds (IsUniverseOf sort.now)) }
{
    match &sort.form {
        TypeForm::SetWithin(literal) => bounds_by(alloc, sort.at, literal),
        _ => Ok(None),
    }
}

fn bounds_by(alloc: Global, at: usize, literal: &SetForm) -> Result<Option<Bounds>, AllocError>
    ensures { IfOk result (AreBounds (AreElementsAt at literal.now)) }
{
    match extent_of(alloc, literal)? {
        Some(extent) => Ok(Some(Bounds { at, extent })),
        None => Ok(None),
    }
}

// ---- bits

/// With the variable the variables so far have too many bits or values.
fn too_many_bits(
    alloc: Global,
    so_far: &SoFar,
    before: &[Item],
    item: &Item,
) -> Result<Option<ModelFault>, AllocError>
    requires { AreSoFar before.now so_far.now }
    ensures { IfOk result (IsFirstOf (AtPlaces faults.TooManyBits (AreTooManyBits before.now item.now))) }
{
    match &item.form {
        Form::Variable { sort, name, .. } => match weight_of(alloc, &sort.form)? {
            Some(weight) => Ok(fault_if(
                is_too_much(so_far.counts, weight),
                ModelFault::TooManyBits { at: name.at },
            )),
            None => Ok(None),
        },
        _ => Ok(None),
    }
}

// ---- output annotations

/// The first output annotation of a scalar variable or of an array of variables does not show it.
fn bad_output(alloc: Global, form: &Form) -> Result<Option<ModelFault>, AllocError>
    ensures { IfOk result (IsFirstOf (AtPlaces faults.BadOutput (IsBadOutput form.now))) }
{
    match form {
        Form::Variable { anns, .. } => Ok(bad_output_of_scalar(anns.items())),
        Form::Array {
            is_var,
            anns,
            items,
            ..
        } => {
            if !*is_var {
                return Ok(None);
            }
            bad_output_of_array(alloc, items.items().len(), anns.items())
        }
        _ => Ok(None),
    }
}

fn bad_output_of_scalar(anns: &[Ann]) -> Option<ModelFault>
    ensures { IsFirstOf (AtPlaces faults.BadOutput (IsHidden (λ a. shows_scalar a ≡ false) anns.now)) result }
{
    match output_in(anns) {
        Some(ann) => fault_if(!shows_scalar(ann), ModelFault::BadOutput { at: ann.at }),
        None => None,
    }
}

fn bad_output_of_array(
    alloc: Global,
    count: usize,
    anns: &[Ann],
) -> Result<Option<ModelFault>, AllocError>
    ensures { IfOk result (IsFirstOf (AtPlaces faults.BadOutput (IsHidden (λ a. dims_shown count a ≡ None) anns.now))) }
{
    match output_in(anns) {
        Some(ann) => Ok(fault_if(
            dims_by(alloc, count, ann)?.is_none(),
            ModelFault::BadOutput { at: ann.at },
        )),
        None => Ok(None),
    }
}
