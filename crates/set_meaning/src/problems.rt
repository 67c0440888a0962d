use crate::kinds::{Kind, Value};
use crate::sets::SetValue;
use listed::Listed;

/// The bytes of a text.
pub type Text = Listed<u8>;

/// A variable, by its place in the problem's list of kinds.
#[derive(Clone, Copy, Debug, PartialEq, Eq, PartialOrd, Ord, Hash)]
pub struct VarId(pub u32);

/// A constraint, by its place in the problem's list of constraints.
#[derive(Clone, Copy, Debug, PartialEq, Eq, PartialOrd, Ord, Hash)]
pub struct ConId(pub u32);

/// A box, by its place in the order in which boxes are stored.
#[derive(Clone, Copy, Debug, PartialEq, Eq, PartialOrd, Ord, Hash)]
pub struct BoxId(pub u32);

/// A constant or a variable.
#[derive(Drop, Debug)]
pub enum Term {
    Const(Value),
    Var(VarId),
}

/// An argument of a constraint: a term, or an array of terms.
#[derive(Drop, Debug)]
pub enum Arg {
    One(Term),
    Many(Listed<Term>),
}

/// What a constraint says of its arguments, one variant a name of the language. In the names below `a`, `b` and `c`
/// are of the sort that the name begins with, `x`, `n` and the `b` before an array are integers, `ps`, `ns` and `as`
/// are arrays of terms, `cs` is an array of integer constants, `xs` an array of as many integers, and `k` an integer
/// constant. A relation that is marked as reifiable may have one more Boolean, which is then its truth value.
#[derive(Clone, Copy, Debug, PartialEq, Eq)]
pub enum Relation {
    /// `set_eq(a, b)`: a is b. Reifiable.
    SetEq,
    /// `set_ne(a, b)`: a is not b. Reifiable.
    SetNe,
    /// `set_lt(a, b)`: the ascending list of a is lexicographically before that of b, a proper prefix being before.
    /// Reifiable.
    SetLt,
    /// `set_le(a, b)`: a is before b, or is b. Reifiable.
    SetLe,
    /// `set_subset(a, b)`: each element of a is in b. Reifiable.
    SetSubset,
    /// `set_superset(a, b)`: each element of b is in a. Reifiable.
    SetSuperset,
    /// `set_in(x, a)`: x is an element of a. Reifiable.
    SetIn,
    /// `set_union(a, b, c)`: c is the union of a and b.
    SetUnion,
    /// `set_intersect(a, b, c)`: c is the intersection of a and b.
    SetIntersect,
    /// `set_diff(a, b, c)`: c is a without the elements of b.
    SetDiff,
    /// `set_symdiff(a, b, c)`: c has what is in just one of a and b.
    SetSymdiff,
    /// `set_card(a, n)`: a has n elements.
    SetCard,
    /// `array_set_element(b, as, c)` and `array_var_set_element`: b is from 1 to the length, and the b-th of as is c.
    ArraySetElement,
    /// `int_eq(a, b)`: a = b. Reifiable.
    IntEq,
    /// `int_ne(a, b)`: a differs from b. Reifiable.
    IntNe,
    /// `int_le(a, b)`: a is at most b. Reifiable.
    IntLe,
    /// `int_lt(a, b)`: a is less than b. Reifiable.
    IntLt,
    /// `int_lin_eq(cs, xs, k)`: the sum of the products is k. Reifiable.
    IntLinEq,
    /// `int_lin_le(cs, xs, k)`: the sum of the products is at most k. Reifiable.
    IntLinLe,
    /// `int_lin_ne(cs, xs, k)`: the sum of the products differs from k. Reifiable.
    IntLinNe,
    /// `int_plus(a, b, c)`: a + b = c.
    IntPlus,
    /// `int_times(a, b, c)`: a * b = c.
    IntTimes,
    /// `int_min(a, b, c)`: c is the less of a and b.
    IntMin,
    /// `int_max(a, b, c)`: c is the greater of a and b.
    IntMax,
    /// `int_abs(a, b)`: b is the absolute value of a.
    IntAbs,
    /// `array_int_element(b, as, c)` and `array_var_int_element`: b is from 1 to the length, and the b-th of as is c.
    ArrayIntElement,
    /// `bool_eq(a, b)`: a is b. Reifiable.
    BoolEq,
    /// `bool_le(a, b)`: a is false or b is true. Reifiable.
    BoolLe,
    /// `bool_lt(a, b)`: a is false and b is true. Reifiable.
    BoolLt,
    /// `bool_not(a, b)`: a differs from b.
    BoolNot,
    /// `bool_and(a, b, c)`: c is a and b.
    BoolAnd,
    /// `bool_or(a, b, c)`: c is a or b.
    BoolOr,
    /// `bool_xor(a, b, c)`: c is whether just one of a and b is true.
    BoolXor,
    /// `bool_clause(ps, ns)`: some of ps is true or some of ns is false.
    BoolClause,
    /// `array_bool_and(as, c)`: c is whether all of as are true.
    ArrayBoolAnd,
    /// `array_bool_or(as, c)`: c is whether some of as is true.
    ArrayBoolOr,
    /// `bool2int(a, b)`: b is 1 where a is true and 0 otherwise.
    Bool2Int,
    /// `array_bool_element(b, as, c)` and `array_var_bool_element`: b is from 1 to the length, and the b-th of as is c.
    ArrayBoolElement,
}

/// A relation over arguments. Where `reif` is given, the constraint says that it is the truth value of the relation.
#[derive(Drop, Debug)]
pub struct Constraint {
    pub relation: Relation,
    pub args: Listed<Arg>,
    pub reif: Option<Term>,
}

/// What is asked of a solution: nothing more, or an integer variable's least or greatest value.
#[derive(Clone, Copy, Debug)]
pub enum Goal {
    Satisfy,
    Minimize(VarId),
    Maximize(VarId),
}

/// One dimension of a shown array, as it was written: a range, or a list of integers.
#[derive(Drop, Debug)]
pub enum Dim {
    Range(i64, i64),
    List(SetValue),
}

/// What a block of output shows under a name: one term where there are no dimensions, else an array of terms.
#[derive(Drop, Debug)]
pub struct Shown {
    pub name: Text,
    pub terms: Listed<Term>,
    pub dims: Listed<Dim>,
}

/// A problem. Variable number v has kind number v and name number v; the name of an unnamed variable is the empty text.
#[derive(Drop, Debug)]
pub struct Problem {
    pub kinds: Listed<Kind>,
    pub names: Listed<Text>,
    pub constraints: Listed<Constraint>,
    pub goal: Goal,
    pub shown: Listed<Shown>,
}

/// Bounds on a variable's value: for a set, the elements in every value and those in some value.
#[derive(Drop, Debug)]
pub enum Bounds {
    Bool(bool, bool),
    Int(i64, i64),
    Set(SetValue, SetValue),
}
