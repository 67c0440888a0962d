//! The output annotations of items.

ghost use Rattle.std.specs.Prelude.{◌≡◌, ◌-◌, ◌^◌, ◌||◌, min, map, Some, IfOk};
ghost use Rattle.std.specs.Option.{option_map};
ghost use Rattle.fzn_model.specs.Lists.{each_of};
ghost use Rattle.fzn_model.specs.Outputs.{annotation_of, argument_of, dims_in, dims_shown, fit, if_fit, is_output_array, is_output_var, output_in, shows_scalar, size_of};

use crate::dims::{dim_of_set, size_of_dim};
use fzn_parser::{Ann, AnnArg, AnnForm};
use set_meaning::Dim;
use std::alloc::{AllocError, Global};

/// The most dimensions of a shown array.
const DIMENSION_LIMIT: usize = 6;

/// The first output annotation; None where there is none.
pub(crate) fn output_in(anns: &[Ann]) -> Option<&Ann>
    ensures { option_map (λ a. annotation_of a.now) result ≡ output_in anns.now }
{
    for ann in anns {
        if is_output(ann) {
            return Some(ann);
        }
    }
    None
}

fn is_output(ann: &Ann) -> bool
    ensures { result ≡ (is_output_var (annotation_of ann.now) || is_output_array (annotation_of ann.now)) }
{
    is_output_var(ann) || is_output_array(ann)
}

fn is_output_var(ann: &Ann) -> bool
    ensures { result ≡ is_output_var (annotation_of ann.now) }
{
    ann.name.items() == b"output_var".as_slice()
}

fn is_output_array(ann: &Ann) -> bool
    ensures { result ≡ is_output_array (annotation_of ann.now) }
{
    ann.name.items() == b"output_array".as_slice()
}

/// Whether the annotation shows a scalar variable.
pub(crate) fn shows_scalar(ann: &Ann) -> bool
    ensures { result ≡ shows_scalar (annotation_of ann.now) }
{
    is_output_var(ann) && ann.args.is_none()
}

/// The dimensions under which the annotation shows an array of `count` items; None where it does not show such an
/// array.
pub(crate) fn dims_by(
    alloc: Global,
    count: usize,
    ann: &Ann,
) -> Result<Option<Vec<Dim>>, AllocError>
    ensures { IfOk result (λ dims. option_map (λ d. d.items) dims ≡ dims_shown count (annotation_of ann.now)) }
{
    if !is_output_array(ann) {
        return Ok(None);
    }
    match dims_in(alloc, ann)? {
        Some(dims) => Ok(if_fit(count, dims)),
        None => Ok(None),
    }
}

fn if_fit(count: usize, dims: Vec<Dim>) -> Option<Vec<Dim>>
    ensures { option_map (λ d. d.items) result ≡ if_fit count dims.items }
{
    if fit(count, dims.as_slice()) {
        Some(dims)
    } else {
        None
    }
}

/// The dimensions that an annotation's one argument lists; None where it has another number of arguments, or one that
/// is no list of set literals without floats and large integers.
fn dims_in(alloc: Global, ann: &Ann) -> Result<Option<Vec<Dim>>, AllocError>
    ensures { IfOk result (λ dims. option_map (λ d. d.items) dims ≡ dims_in (annotation_of ann.now).args) }
{
    match &ann.args {
        Some(args) => dims_in_arguments(alloc, args.as_slice()),
        None => Ok(None),
    }
}

fn dims_in_arguments(alloc: Global, args: &[AnnArg]) -> Result<Option<Vec<Dim>>, AllocError>
    ensures { IfOk result (λ dims. option_map (λ d. d.items) dims ≡ dims_in (Some (map argument_of args.now))) }
{
    match args {
        [arg] => dims_of_argument(alloc, arg),
        _ => Ok(None),
    }
}

fn dims_of_argument(alloc: Global, arg: &AnnArg) -> Result<Option<Vec<Dim>>, AllocError>
    ensures { IfOk result (λ dims. option_map (λ d. d.items) dims ≡ (argument_of arg.now).dims) }
{
    match &arg.form {
        AnnForm::List(args) => each_dim(alloc, args.as_slice()),
        _ => Ok(None),
    }
}

fn each_dim(alloc: Global, args: &[AnnArg]) -> Result<Option<Vec<Dim>>, AllocError>
    ensures { IfOk result (λ dims. option_map (λ d. d.items) dims ≡ each_of (λ a. a.dim) (map argument_of args.now)) }
{
    let mut dims = Vec::new(alloc);
    for arg in args {
        match dim_of_argument(alloc, arg)? {
            Some(dim) => dims.push(dim)?,
            None => return Ok(None),
        }
    }
    Ok(Some(dims))
}

/// The dimension that a set literal is; None of any other argument.
fn dim_of_argument(alloc: Global, arg: &AnnArg) -> Result<Option<Dim>, AllocError>
    ensures { IfOk result (λ dim. dim ≡ (argument_of arg.now).dim) }
{
    match &arg.form {
        AnnForm::Set(literal) => dim_of_set(alloc, literal),
        _ => Ok(None),
    }
}

/// Whether these are one to six dimensions, of as many items.
fn fit(count: usize, dims: &[Dim]) -> bool
    ensures { result ≡ fit count dims.now }
{
    let rank = dims.len();
    1 <= rank && rank <= DIMENSION_LIMIT && size_of(dims) == count as u128
}

/// How many items an array of these dimensions has; the greatest number where there are more.
#[tactic(auto, using(crate::proofs::Sizes::saturates))]
fn size_of(dims: &[Dim]) -> u128
    ensures { result ≡ min (size_of dims.now) (2 ^ 128 - 1) }
{
    let mut size: u128 = 1;
    for dim in dims {
        size = size.saturating_mul(size_of_dim(dim));
    }
    size
}
