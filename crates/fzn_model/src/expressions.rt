//! The first fault in the expressions of an item.

ghost use Rattle.std.specs.Prelude.{◌≡◌, ◌⊎◌, ℕ, ◌<◌, map, option_to_list, None, Some, List, [], ◌∷◌, ℤ, slice_get, IfOk};
ghost use Rattle.std.specs.List.{flat_map};
ghost use Rattle.std.specs.Option.{option_map};
ghost use Rattle.fzn_parser.specs.declared.tree.BasicForm.TheVariants as basics;
ghost use Rattle.fzn_model.specs.declared.faults.ModelFault.TheVariants as variants;
ghost use Rattle.fzn_model.specs.FirstFault.{IsFirstOf};
ghost use Rattle.fzn_model.specs.Entities.{elements_of, Naming};
ghost use Rattle.fzn_model.specs.FaultsOf.{InExpressions};
ghost use Rattle.fzn_model.specs.Items.{objective_in, parts_of};
ghost use Rattle.fzn_model.specs.Extents.{IsExtent};
ghost use Rattle.fzn_model.specs.PartFaults.{IsFound, IsNotAsked, IsSeen, IsSingle, OfArray, OfAsked, OfElements, OfExpression, OfForm, OfItem, OfPart, OfPast, OfSome, Told, elements_at, found_then, item_shape, nothing_found, size_of, with_shapes};
ghost use Rattle.fzn_model.specs.Shapes.{array_shape, shapes_named};
ghost use Rattle.set_meaning.specs.declared.rows.Shape.TheVariants.{OneOf, ConstantOf};
ghost use Rattle.fzn_model.specs.State.{AreSoFar, naming_of};
ghost use Rattle.fzn_model.specs.Shared.{entity_in};

use crate::arguments::argument_shapes;
use crate::declarations::number_in_set;
use crate::declared::Declared;
use crate::earlier::earlier;
use crate::entities::sort_of;
use crate::extents::{Extent, extent_of};
use crate::faults::ModelFault;
use crate::known::Known;
use crate::names::named;
use crate::so_far::SoFar;
use crate::typing::{Typing, constant, has_typing};
use fzn_parser::{Basic, BasicForm, Expr, Form, GoalForm, Item, Num, SetForm};
use set_meaning::{Shape, Sort};
use std::alloc::{AllocError, Global};

/// The most elements of a constant set.
const CONSTANT_SET_LIMIT: u128 = 65_536;

/// The most elements of all constant sets in constraints, each occurrence counted.
const ALL_CONSTANT_SETS_LIMIT: u128 = 16_777_216;

/// What is seen in one part of an expression.
#[derive(Clone, Copy, Debug)]
struct Seen {
    /// The first of its faults.
    fault: Option<ModelFault>,
    /// How many elements its constant sets have.
    elements: u128,
}

/// What is found in some parts of expressions, one after another.
#[derive(Clone, Copy, Debug)]
struct Found {
    /// The first of their own faults.
    fault: Option<ModelFault>,
    /// The first of the faults of those at which the elements of constant sets in constraints pass their limit.
    past: Option<ModelFault>,
    /// The elements of constant sets up to the last of them.
    elements: u128,
}

// ---- items

/// The first fault in the expressions of the item, which stands behind the items `before`. An `Err` is want of memory.
pub(crate) fn fault_in_expressions(
    alloc: Global,
    so_far: &SoFar,
    before: &[Item],
    item: &Item,
) -> Result<Option<ModelFault>, AllocError>
    requires { AreSoFar before.now so_far.now }
    ensures { IfOk result (IsFirstOf (InExpressions before.now item.now)) }
{
    let _ = before;
    let start = u128::from(so_far.counts.elements);
    fault_in_form(alloc, &so_far.declared, start, &item.form)
}

/// The first fault in the expressions of an item, where `start` elements of constant sets came before it.
fn fault_in_form(
    alloc: Global,
    declared: &Declared,
    start: u128,
    form: &Form,
) -> Result<Option<ModelFault>, AllocError>
    ensures { IfOk result (IsFirstOf (OfItem (naming_of declared.now) start form.now)) }
{
    match form {
        Form::Predicate => Ok(None),
        Form::Param { sort, value, .. } => {
            fault_in_value(alloc, declared, constant_asked(sort_of(&sort.form)), value)
        }
        Form::Variable { sort, value, .. } => {
            fault_in_given(
                alloc,
                declared,
                one_asked(sort_of(&sort.form)),
                start,
                value,
            )
        }
        Form::Array {
            is_var,
            sort,
            items_at,
            items,
            ..
        } => {
            let shape = array_asked(*is_var, sort_of(&sort.form));
            let found = found_in_array(alloc, declared, shape, 0, *items_at, items.items())?;
            Ok(found.fault)
        }
        Form::Constraint { name, args, .. } => {
            fault_in_arguments(alloc, declared, start, name.name.items(), args.items())
        }
        Form::Solve { goal, .. } => fault_in_goal(alloc, declared, goal),
    }
}

fn fault_in_goal(
    alloc: Global,
    declared: &Declared,
    goal: &GoalForm,
) -> Result<Option<ModelFault>, AllocError>
    ensures { IfOk result (IsFirstOf (OfSome (OfAsked (naming_of declared.now)) (map (λ e. (None, e)) (option_to_list (objective_in goal.now))))) }
{
    match goal {
        GoalForm::Satisfy => Ok(None),
        GoalForm::Minimize(objective) => fault_in_value(alloc, declared, None, objective),
        GoalForm::Maximize(objective) => fault_in_value(alloc, declared, None, objective),
    }
}

/// The first fault in the arguments of a constraint of this name.
fn fault_in_arguments(
    alloc: Global,
    declared: &Declared,
    start: u128,
    name: &[u8],
    args: &[Expr],
) -> Result<Option<ModelFault>, AllocError>
    ensures { IfOk result (IsFirstOf (λ f. OfSome (OfAsked (naming_of declared.now)) (with_shapes (shapes_named name.now) args.now) f
        ⊎ OfPast (naming_of declared.now) start (flat_map parts_of args.now) f)) }
{
    let shapes = shapes_named(alloc, name)?;
    let found = found_in_arguments(alloc, declared, shapes.as_slice(), start, args)?;
    Ok(earlier(found.fault, found.past))
}

/// The first fault in the value that a variable is given, if any.
fn fault_in_given(
    alloc: Global,
    declared: &Declared,
    shape: Option<Shape>,
    start: u128,
    value: &Option<Expr>,
) -> Result<Option<ModelFault>, AllocError>
    ensures { IfOk result (IsFirstOf (λ f. OfSome (OfAsked (naming_of declared.now)) (map (λ e. (shape, e)) (option_to_list value.now)) f
        ⊎ OfPast (naming_of declared.now) start (flat_map parts_of (option_to_list value.now)) f)) }
{
    match value {
        None => Ok(None),
        Some(value) => {
            let found = found_in_expression(alloc, declared, shape, start, value)?;
            Ok(earlier(found.fault, found.past))
        }
    }
}

/// The first fault in an expression outside constraints.
fn fault_in_value(
    alloc: Global,
    declared: &Declared,
    shape: Option<Shape>,
    value: &Expr,
) -> Result<Option<ModelFault>, AllocError>
    ensures { IfOk result (IsFirstOf (OfSome (OfAsked (naming_of declared.now)) ((shape, value.now) ∷ []))) }
{
    let found = found_in_expression(alloc, declared, shape, 0, value)?;
    Ok(found.fault)
}

fn constant_asked(sort: Option<Sort>) -> Option<Shape>
    ensures { result ≡ option_map ConstantOf sort }
{
    sort.map(Shape::ConstantOf)
}

fn one_asked(sort: Option<Sort>) -> Option<Shape>
    ensures { result ≡ option_map OneOf sort }
{
    sort.map(Shape::OneOf)
}

fn array_asked(is_var: bool, sort: Option<Sort>) -> Option<Shape>
    ensures { result ≡ option_map (array_shape is_var) sort }
{
    if is_var {
        return sort.map(Shape::ManyOf);
    }
    sort.map(Shape::ConstantsOf)
}

/// The shapes that the arguments of a constraint of this name have; none where no relation has the name.
fn shapes_named(alloc: Global, name: &[u8]) -> Result<Vec<Shape>, AllocError>
    ensures { IfOk result (λ shapes. shapes.items ≡ shapes_named name.now) }
{
    match named(name) {
        None => Ok(Vec::new(alloc)),
        Some(named) => argument_shapes(alloc, named),
    }
}

// ---- expressions

fn found_in_arguments(
    alloc: Global,
    declared: &Declared,
    shapes: &[Shape],
    start: u128,
    args: &[Expr],
) -> Result<Found, AllocError>
    ensures { IfOk result (IsFound (OfSome (OfAsked (naming_of declared.now)) (with_shapes shapes.now args.now)) (naming_of declared.now)
        start (flat_map parts_of args.now)) }
{
    let mut found = nothing(start);
    for (i, arg) in args.iter().enumerate() {
        let shape = shape_at(shapes, i);
        let next = found_in_expression(alloc, declared, shape, found.elements, arg)?;
        found = both(found, next);
    }
    Ok(found)
}

/// The shape that is asked of the argument at `i`, if any.
fn shape_at(shapes: &[Shape], i: usize) -> Option<Shape>
    ensures { result ≡ slice_get shapes.now i }
{
    shapes.get(i).copied()
}

/// What is found in an expression of which this shape is asked, if any.
fn found_in_expression(
    alloc: Global,
    declared: &Declared,
    shape: Option<Shape>,
    start: u128,
    expression: &Expr,
) -> Result<Found, AllocError>
    ensures { IfOk result (IsFound (OfExpression (naming_of declared.now) shape expression.now) (naming_of declared.now) start (parts_of expression.now)) }
{
    match expression {
        Expr::One(part) => found_in_part(alloc, declared, shape, start, part),
        Expr::List { at, items } => found_in_array(
            alloc,
            declared,
            shape,
            start,
            *at,
            items.items(),
        ),
    }
}

/// What is found in an array that stands at this place.
fn found_in_array(
    alloc: Global,
    declared: &Declared,
    shape: Option<Shape>,
    start: u128,
    at: usize,
    items: &[Basic],
) -> Result<Found, AllocError>
    ensures { IfOk result (IsFound (OfArray (naming_of declared.now) shape at items.now) (naming_of declared.now) start items.now) }
{
    let found = found_in_items(alloc, declared, item_shape(shape), start, items)?;
    Ok(Found {
        fault: earlier(stray(at, shape), found.fault),
        past: found.past,
        elements: found.elements,
    })
}

/// The fault of an array that stands where a single term is asked.
fn stray(at: usize, shape: Option<Shape>) -> Option<ModelFault>
    ensures { IsFirstOf (Told (variants.WrongType at) (IsSingle shape)) result }
{
    match shape {
        Some(Shape::OneOf(_)) => Some(ModelFault::WrongType { at }),
        Some(Shape::ConstantOf(_)) => Some(ModelFault::WrongType { at }),
        _ => None,
    }
}

/// What is asked of the items of an array of which this is asked.
fn item_shape(shape: Option<Shape>) -> Option<Shape>
    ensures { result ≡ item_shape shape }
{
    match shape {
        Some(Shape::ManyOf(sort)) => Some(Shape::OneOf(sort)),
        Some(Shape::ConstantsOf(sort)) => Some(Shape::ConstantOf(sort)),
        _ => None,
    }
}

fn found_in_items(
    alloc: Global,
    declared: &Declared,
    shape: Option<Shape>,
    start: u128,
    items: &[Basic],
) -> Result<Found, AllocError>
    ensures { IfOk result (IsFound (OfSome (OfPart (naming_of declared.now) shape) items.now) (naming_of declared.now) start items.now) }
{
    let mut found = nothing(start);
    for item in items {
        let next = found_in_part(alloc, declared, shape, found.elements, item)?;
        found = both(found, next);
    }
    Ok(found)
}

/// What is found before any part.
fn nothing(start: u128) -> Found
    ensures { result ≡ nothing_found start }
{
    Found {
        fault: None,
        past: None,
        elements: start,
    }
}

/// What is found in some parts and then in others.
fn both(found: Found, next: Found) -> Found
    ensures { result ≡ found_then found next }
{
    Found {
        fault: earlier(found.fault, next.fault),
        past: earlier(found.past, next.past),
        elements: next.elements,
    }
}

fn found_in_part(
    alloc: Global,
    declared: &Declared,
    shape: Option<Shape>,
    start: u128,
    part: &Basic,
) -> Result<Found, AllocError>
    ensures { IfOk result (IsFound (OfPart (naming_of declared.now) shape part.now) (naming_of declared.now) start (part.now ∷ [])) }
{
    let seen = seen_in(alloc, declared, shape, part)?;
    let elements = start.saturating_add(seen.elements);
    Ok(Found {
        fault: seen.fault,
        past: past_limit(part.at, elements),
        elements,
    })
}

/// The fault of a part at which the elements of constant sets pass their limit.
fn past_limit(at: usize, elements: u128) -> Option<ModelFault>
    ensures { IsFirstOf (Told (variants.SetTooWide at) (16777216 < elements)) result }
{
    if elements > ALL_CONSTANT_SETS_LIMIT {
        return Some(ModelFault::SetTooWide { at });
    }
    None
}

// ---- one part

/// What a part of an expression has, of which this shape is asked, if any. At most one name is looked up.
fn seen_in(
    alloc: Global,
    declared: &Declared,
    shape: Option<Shape>,
    part: &Basic,
) -> Result<Seen, AllocError>
    ensures { IfOk result (IsSeen (OfPart (naming_of declared.now) shape part.now) (elements_at (naming_of declared.now) part.now.form)) }
{
    match &part.form {
        BasicForm::Bool(_) => Ok(Seen {
            fault: unsuited(part.at, shape, constant(Sort::Boolean)),
            elements: 0,
        }),
        BasicForm::Num(num) => Ok(Seen {
            fault: fault_of_number(part.at, shape, *num),
            elements: 0,
        }),
        BasicForm::Set(literal) => seen_in_set(alloc, part.at, shape, literal),
        BasicForm::Name(name) => Ok(seen_in_name(part.at, shape, declared.known(name.items()))),
    }
}

fn fault_of_number(at: usize, shape: Option<Shape>, num: Num) -> Option<ModelFault>
    ensures { (naming : Naming) → IsFirstOf (OfForm naming shape at (basics.Num num)) result }
{
    match num {
        Num::Int(_) => unsuited(at, shape, constant(Sort::Integer)),
        Num::Large => earlier(
            unsuited(at, shape, constant(Sort::Integer)),
            Some(ModelFault::NumberTooLarge { at }),
        ),
        Num::Float => Some(ModelFault::Float { at }),
    }
}

fn seen_in_name(at: usize, shape: Option<Shape>, known: Option<&Known>) -> Seen
    ensures { (naming : Naming) (name : List ℕ) → naming name ≡ option_map (λ k. entity_in k.now.entity) known.entry
        → IsSeen (OfForm naming shape at (basics.Name name)) (elements_at naming (basics.Name name)) result }
{
    match known {
        None => Seen {
            fault: Some(ModelFault::Undeclared { at }),
            elements: 0,
        },
        Some(known) => Seen {
            fault: unsuited(at, shape, known.typing),
            elements: known.elements,
        },
    }
}

fn seen_in_set(
    alloc: Global,
    at: usize,
    shape: Option<Shape>,
    literal: &SetForm,
) -> Result<Seen, AllocError>
    ensures { IfOk result (λ seen. (naming : Naming) →
        IsSeen (OfForm naming shape at (basics.Set literal.now)) (elements_at naming (basics.Set literal.now)) seen) }
{
    let own = earlier(
        unsuited(at, shape, constant(Sort::IntegerSet)),
        number_in_set(literal),
    );
    let seen = seen_in_elements(alloc, at, literal)?;
    Ok(Seen {
        fault: earlier(own, seen.fault),
        elements: seen.elements,
    })
}

/// The fault of a part that is not what the shape asks.
fn unsuited(at: usize, shape: Option<Shape>, typing: Typing) -> Option<ModelFault>
    ensures { IsFirstOf (Told (variants.WrongType at) (IsNotAsked shape typing)) result }
{
    match shape {
        None => None,
        Some(asked) => {
            if has_typing(asked, typing) {
                return None;
            }
            Some(ModelFault::WrongType { at })
        }
    }
}

// ---- the elements of a literal

/// The first fault of the elements of a set literal, and how many there are. No range is made.
fn seen_in_elements(alloc: Global, at: usize, literal: &SetForm) -> Result<Seen, AllocError>
    ensures { IfOk result (IsSeen (OfElements at (elements_of literal.now)) (size_of (elements_of literal.now))) }
{
    match extent_of(alloc, literal)? {
        Some(extent) => Ok(Seen {
            fault: fault_of_extent(at, extent),
            elements: extent.count,
        }),
        None => Ok(Seen {
            fault: None,
            elements: 0,
        }),
    }
}

/// The first fault of a constant set of this extent.
fn fault_of_extent(at: usize, extent: Extent) -> Option<ModelFault>
    ensures { (elements : List ℤ) → IsExtent elements extent → IsFirstOf (OfElements at (Some elements)) result }
{
    if extent.count > CONSTANT_SET_LIMIT {
        return Some(ModelFault::SetTooWide { at });
    }
    if extent.has_large {
        return Some(ModelFault::ElementRange { at });
    }
    None
}
