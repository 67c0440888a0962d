//! What the arguments of a constraint are asked to be.

ghost use Rattle.std.specs.Prelude.{◌≡◌, ◌++◌, length, IfOk, OnOk};
ghost use Rattle.set_meaning.specs.Rows.{shapes_of};
ghost use Rattle.fzn_model.specs.Shapes.{argument_shapes};

use crate::names::ConstraintName;
use set_meaning::{Row, Shape, Sort, row_of};
use std::alloc::{AllocError, Global};

/// The shapes of the arguments of a constraint of this name, in order: two or three of its relation, and one more
/// Boolean where the name is reified.
pub(crate) fn argument_shapes(alloc: Global, name: ConstraintName) -> Result<Vec<Shape>, AllocError>
    ensures { IfOk result (λ shapes. shapes.items ≡ argument_shapes name) }
{
    let mut shapes = shapes_of(alloc, row_of(name.relation))?;
    if name.is_reified {
        shapes.push(Shape::OneOf(Sort::Boolean))?;
    }
    Ok(shapes)
}

fn shapes_of(alloc: Global, row: Row) -> Result<Vec<Shape>, AllocError>
    ensures { IfOk result (λ shapes. shapes.items ≡ shapes_of row) }
{
    let mut shapes = Vec::new(alloc);
    shapes.push(row.first)?;
    shapes.push(row.second)?;
    match row.third {
        Some(third) => shapes.push(third)?,
        None => {}
    }
    Ok(shapes)
}
