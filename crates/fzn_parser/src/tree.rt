//! The syntax tree of a model. It follows the grammar; each `at` is the place of the first token of its part, which is
//! the number of bytes before that token.

use listed::Listed;
use sqlite_items::Items;

/// The bytes of a name.
pub type Text = Listed<u8>;

/// A model: its items in the order of the text. The last one, and no other, is the solve item.
#[derive(Drop, Debug)]
pub struct Tree {
    pub items: Listed<Item>,
}

/// An item of a model.
#[derive(Drop, Debug)]
pub struct Item {
    pub at: usize,
    pub form: Form,
}

/// What an item says.
#[derive(Drop, Debug)]
pub enum Form {
    /// A predicate item, which has no effect. Nothing of it is kept.
    Predicate,
    /// `sort: name anns = value;`.
    Param {
        sort: TypeExpr,
        name: Ident,
        anns: Listed<Ann>,
        value: Expr,
    },
    /// `var sort: name anns;`, or with `= value` before the semicolon.
    Variable {
        sort: TypeExpr,
        name: Ident,
        anns: Listed<Ann>,
        value: Option<Expr>,
    },
    /// `array [1..length] of sort: name anns = [items];`, with `var` before the sort where the elements are variables.
    Array {
        length: Number,
        is_var: bool,
        sort: TypeExpr,
        name: Ident,
        anns: Listed<Ann>,
        /// The place of the `[` before the items.
        items_at: usize,
        items: Listed<Basic>,
    },
    /// `constraint name(args) anns;`.
    Constraint {
        name: Ident,
        args: Listed<Expr>,
        anns: Listed<Ann>,
    },
    /// `solve anns goal;`.
    Solve {
        anns: Listed<Ann>,
        goal: GoalForm,
    },
}

/// The goal of a model.
#[derive(Drop, Debug)]
pub enum GoalForm {
    Satisfy,
    Minimize(Expr),
    Maximize(Expr),
}

/// A name and its place.
#[derive(Drop, Debug)]
pub struct Ident {
    pub at: usize,
    pub name: Text,
}

/// A type. Its place is that of the word `bool`, `int` or `float`, or of the set literal.
#[derive(Drop, Debug)]
pub struct TypeExpr {
    pub at: usize,
    pub form: TypeForm,
}

/// What a type says.
#[derive(Drop, Debug)]
pub enum TypeForm {
    Bool,
    Int,
    Float,
    /// `set of int`.
    SetOfInt,
    /// The numbers of a set literal.
    Within(SetForm),
    /// `set of` a set literal: its subsets.
    SetWithin(SetForm),
}

/// A number, so far as it is told.
#[derive(Clone, Copy, Debug, PartialEq, Eq)]
pub enum Num {
    /// An integer of at most 1,000,000,000 in size.
    Int(i64),
    /// A larger integer.
    Large,
    Float,
}

/// A number and its place.
#[derive(Clone, Copy, Debug, PartialEq, Eq)]
pub struct Number {
    pub at: usize,
    pub num: Num,
}

/// A set literal.
#[derive(Drop, Debug)]
pub enum SetForm {
    /// `low..high`.
    Range(Number, Number),
    /// The numbers in braces.
    List(Listed<Number>),
}

/// An expression that is no array.
#[derive(Drop, Debug)]
pub struct Basic {
    pub at: usize,
    pub form: BasicForm,
}

/// What an expression says that is no array.
#[derive(Drop, Debug)]
pub enum BasicForm {
    Bool(bool),
    Num(Num),
    Set(SetForm),
    Name(Text),
}

/// An expression: a basic one, or an array, whose place is that of its `[`.
#[derive(Drop, Debug)]
pub enum Expr {
    One(Basic),
    List { at: usize, items: Listed<Basic> },
}

/// An annotation. It has no arguments where no `(` follows its name, and an empty list of them in `name()`.
#[cycle(annotations)]
#[derive(Drop, Debug)]
pub struct Ann {
    pub at: usize,
    pub name: Text,
    pub args: Option<Items<AnnArg>>,
}

/// An argument of an annotation.
#[cycle(annotations)]
#[derive(Drop, Debug)]
pub struct AnnArg {
    pub at: usize,
    pub form: AnnForm,
}

/// What an argument of an annotation says.
#[cycle(annotations)]
#[derive(Drop, Debug)]
pub enum AnnForm {
    Bool(bool),
    Num(Num),
    Set(SetForm),
    Str,
    Call(Ann),
    List(Items<AnnArg>),
}
