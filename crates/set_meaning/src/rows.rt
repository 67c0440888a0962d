//! The arguments of each relation, a row for each, and whether a constraint has those of its relation.

ghost use Rattle.std.specs.Prelude.{◌≡◌, ◌↔◌, IsTrue, IfSome, All};
ghost use Rattle.std.specs.List.{AllZip};
ghost use Rattle.set_meaning.specs.Rows.{AreOfOneLength, ArePaired, FitsRow, HasShape, HasSort, IsConstantOf, IsValueOf, linear, plain, reifiable, row_of, shapes_of, sort_of_kind};

use crate::kinds::{Kind, Value};
use crate::problems::{Arg, Constraint, Relation, Term};

/// What a term stands for.
#[derive(Clone, Copy, Debug, PartialEq, Eq)]
pub enum Sort {
    Boolean,
    Integer,
    IntegerSet,
}

/// What an argument has to be.
#[derive(Clone, Copy, Debug, PartialEq, Eq)]
pub enum Shape {
    /// A term of the sort.
    OneOf(Sort),
    /// An array of terms of the sort.
    ManyOf(Sort),
    /// A constant of the sort.
    ConstantOf(Sort),
    /// An array of constants of the sort.
    ConstantsOf(Sort),
}

/// The two or three arguments of a relation.
#[derive(Clone, Copy, Debug, PartialEq, Eq)]
pub struct Row {
    pub first: Shape,
    pub second: Shape,
    pub third: Option<Shape>,
    /// Whether one more Boolean may name the truth value of the relation.
    pub reifiable: bool,
    /// Whether the first two arguments are arrays of one length.
    pub paired: bool,
}

/// The arguments that the relation has, by the table of this project's profile of the FlatZinc builtins (MiniZinc
/// Handbook).
pub fn row_of(relation: Relation) -> Row
    ensures { result ≡ row_of relation }
{
    let (truth, truths) = (Shape::OneOf(Sort::Boolean), Shape::ManyOf(Sort::Boolean));
    let (number, numbers) = (Shape::OneOf(Sort::Integer), Shape::ManyOf(Sort::Integer));
    let (set, sets) = (
        Shape::OneOf(Sort::IntegerSet),
        Shape::ManyOf(Sort::IntegerSet),
    );
    match relation {
        Relation::SetEq => reifiable(set, set),
        Relation::SetNe => reifiable(set, set),
        Relation::SetLt => reifiable(set, set),
        Relation::SetLe => reifiable(set, set),
        Relation::SetSubset => reifiable(set, set),
        Relation::SetSuperset => reifiable(set, set),
        Relation::SetIn => reifiable(number, set),
        Relation::SetUnion => plain(set, set, Some(set)),
        Relation::SetIntersect => plain(set, set, Some(set)),
        Relation::SetDiff => plain(set, set, Some(set)),
        Relation::SetSymdiff => plain(set, set, Some(set)),
        Relation::SetCard => plain(set, number, None),
        Relation::ArraySetElement => plain(number, sets, Some(set)),
        Relation::IntEq => reifiable(number, number),
        Relation::IntNe => reifiable(number, number),
        Relation::IntLe => reifiable(number, number),
        Relation::IntLt => reifiable(number, number),
        Relation::IntLinEq => linear(),
        Relation::IntLinLe => linear(),
        Relation::IntLinNe => linear(),
        Relation::IntPlus => plain(number, number, Some(number)),
        Relation::IntTimes => plain(number, number, Some(number)),
        Relation::IntMin => plain(number, number, Some(number)),
        Relation::IntMax => plain(number, number, Some(number)),
        Relation::IntAbs => plain(number, number, None),
        Relation::ArrayIntElement => plain(number, numbers, Some(number)),
        Relation::BoolEq => reifiable(truth, truth),
        Relation::BoolLe => reifiable(truth, truth),
        Relation::BoolLt => reifiable(truth, truth),
        Relation::BoolNot => plain(truth, truth, None),
        Relation::BoolAnd => plain(truth, truth, Some(truth)),
        Relation::BoolOr => plain(truth, truth, Some(truth)),
        Relation::BoolXor => plain(truth, truth, Some(truth)),
        Relation::BoolClause => plain(truths, truths, None),
        Relation::ArrayBoolAnd => plain(truths, truth, None),
        Relation::ArrayBoolOr => plain(truths, truth, None),
        Relation::Bool2Int => plain(truth, number, None),
        Relation::ArrayBoolElement => plain(number, truths, Some(truth)),
    }
}

fn plain(first: Shape, second: Shape, third: Option<Shape>) -> Row
    ensures { result ≡ plain first second third }
{
    Row {
        first,
        second,
        third,
        reifiable: false,
        paired: false,
    }
}

fn reifiable(first: Shape, second: Shape) -> Row
    ensures { result ≡ reifiable first second }
{
    Row {
        first,
        second,
        third: None,
        reifiable: true,
        paired: false,
    }
}

/// Constants, as many integers, and one more constant.
fn linear() -> Row
    ensures { result ≡ linear }
{
    Row {
        first: Shape::ConstantsOf(Sort::Integer),
        second: Shape::ManyOf(Sort::Integer),
        third: Some(Shape::ConstantOf(Sort::Integer)),
        reifiable: true,
        paired: true,
    }
}

/// Whether the constraint has the arguments of its relation, over variables of these kinds, and names a truth value
/// only where the relation is reifiable. It looks at each term once.
pub fn fits_row(kinds: &[Kind], c: &Constraint) -> bool
    ensures { IsTrue result ↔ FitsRow kinds.now c.now }
{
    let row = row_of(c.relation);
    if !have_shapes(kinds, row, c.args.items()) {
        return false;
    }
    if !fits_pairing(row, c.args.items()) {
        return false;
    }
    fits_reif(kinds, row, &c.reif)
}

fn have_shapes(kinds: &[Kind], row: Row, args: &[Arg]) -> bool
    ensures { IsTrue result ↔ AllZip (HasShape kinds.now) (shapes_of row) args.now }
{
    match args {
        [a, b] => match row.third {
            Some(_) => false,
            None => has_shape(kinds, row.first, a) && has_shape(kinds, row.second, b),
        },
        [a, b, c] => match row.third {
            Some(third) => {
                has_shape(kinds, row.first, a)
                    && has_shape(kinds, row.second, b)
                    && has_shape(kinds, third, c)
            }
            None => false,
        },
        _ => false,
    }
}

fn fits_pairing(row: Row, args: &[Arg]) -> bool
    ensures { IsTrue result ↔ (IsTrue row.paired → ArePaired args.now) }
{
    if !row.paired {
        return true;
    }
    are_paired(args)
}

fn are_paired(args: &[Arg]) -> bool
    ensures { IsTrue result ↔ ArePaired args.now }
{
    match args {
        [a, b, ..] => are_of_one_length(a, b),
        _ => false,
    }
}

fn are_of_one_length(a: &Arg, b: &Arg) -> bool
    ensures { IsTrue result ↔ AreOfOneLength a.now b.now }
{
    match (a, b) {
        (Arg::Many(cs), Arg::Many(xs)) => cs.items().len() == xs.items().len(),
        _ => false,
    }
}

fn fits_reif(kinds: &[Kind], row: Row, reif: &Option<Term>) -> bool
    ensures { IsTrue result ↔ IfSome reif.now (λ t. IsTrue row.reifiable × HasSort kinds.now Sort.Boolean t) }
{
    match reif {
        None => true,
        Some(term) => row.reifiable && has_sort(kinds, Sort::Boolean, term),
    }
}

fn has_shape(kinds: &[Kind], shape: Shape, arg: &Arg) -> bool
    ensures { IsTrue result ↔ HasShape kinds.now shape arg.now }
{
    match arg {
        Arg::One(term) => match shape {
            Shape::OneOf(sort) => has_sort(kinds, sort, term),
            Shape::ConstantOf(sort) => is_constant_of(sort, term),
            Shape::ManyOf(_) => false,
            Shape::ConstantsOf(_) => false,
        },
        Arg::Many(terms) => match shape {
            Shape::OneOf(_) => false,
            Shape::ConstantOf(_) => false,
            Shape::ManyOf(sort) => all_have_sort(kinds, sort, terms.items()),
            Shape::ConstantsOf(sort) => are_constants_of(sort, terms.items()),
        },
    }
}

fn all_have_sort(kinds: &[Kind], sort: Sort, terms: &[Term]) -> bool
    ensures { IsTrue result ↔ All (HasSort kinds.now sort) terms.now }
{
    terms.iter().all(|term| has_sort(kinds, sort, term))
}

fn are_constants_of(sort: Sort, terms: &[Term]) -> bool
    ensures { IsTrue result ↔ All (IsConstantOf sort) terms.now }
{
    terms.iter().all(|term| is_constant_of(sort, term))
}

fn is_constant_of(sort: Sort, term: &Term) -> bool
    ensures { IsTrue result ↔ IsConstantOf sort term.now }
{
    match term {
        Term::Const(value) => is_of_sort(sort, value),
        Term::Var(_) => false,
    }
}

fn has_sort(kinds: &[Kind], sort: Sort, term: &Term) -> bool
    ensures { IsTrue result ↔ HasSort kinds.now sort term.now }
{
    match term {
        Term::Const(value) => is_of_sort(sort, value),
        Term::Var(variable) => match kinds.get(variable.0 as usize) {
            Some(kind) => is_kind_of(sort, kind),
            None => false,
        },
    }
}

fn is_kind_of(sort: Sort, kind: &Kind) -> bool
    ensures { IsTrue result ↔ (sort_of_kind kind.now ≡ sort) }
{
    match kind {
        Kind::Bool => matches!(sort, Sort::Boolean),
        Kind::Int(_) => matches!(sort, Sort::Integer),
        Kind::Set(_) => matches!(sort, Sort::IntegerSet),
    }
}

fn is_of_sort(sort: Sort, value: &Value) -> bool
    ensures { IsTrue result ↔ IsValueOf sort value.now }
{
    match value {
        Value::Bool(_) => matches!(sort, Sort::Boolean),
        Value::Int(_) => matches!(sort, Sort::Integer),
        Value::Set(set) => {
            let _ = set.elements();
            matches!(sort, Sort::IntegerSet)
        }
    }
}
