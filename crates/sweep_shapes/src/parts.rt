//! Parts of constraints.
ghost use Rattle.std.specs.Prelude.{◌≡◌, ℤ, pos, List, IsTrue, IfSome, Contains};
ghost use Rattle.set_meaning.specs.declared.kinds.Kind.TheVariants as sorts;
ghost use Rattle.set_meaning.specs.declared.kinds.Value.TheVariants as values;
ghost use Rattle.set_meaning.specs.declared.problems.Term.TheVariants as terms;
ghost use Rattle.set_meaning.specs.declared.problems.Arg.TheVariants as arguments;
ghost use Rattle.set_meaning.specs.Relations.{variables_of};
ghost use Rattle.sweep_shapes.specs.Readings.{IsArrayTruth, IsPick};
ghost use Rattle.sweep_shapes.specs.Slots.{AreSetVariables, AsksFor, IsCardinality, IsMembership, IsSetVariable};

use set_meaning::{Arg, Constraint, Kind, Relation, Term, Value, VarId};

/// The truth value that the constraint asks of its relation; None where a variable names it.
pub(crate) fn truth_asked(reif: &Option<Term>) -> Option<bool>
    ensures { IfSome result (λ truth. AsksFor truth reif.now) }
{
    match reif {
        None => Some(true),
        Some(term) => constant_truth(term),
    }
}

fn constant_truth(term: &Term) -> Option<bool>
    ensures { IfSome result (λ truth. term.now ≡ terms.Const (values.Bool truth)) }
{
    match term {
        Term::Const(value) => bool_in(value),
        Term::Var(_) => None,
    }
}

fn bool_in(value: &Value) -> Option<bool>
    ensures { IfSome result (λ truth. value.now ≡ values.Bool truth) }
{
    match value {
        Value::Bool(truth) => Some(*truth),
        Value::Int(_) => None,
        Value::Set(_) => None,
    }
}

/// The element and the set, where the constraint is that the set has a constant as its element.
pub(crate) fn membership(c: &Constraint) -> Option<(i64, &Term)>
    ensures { IfSome result (λ m. IsMembership c.now m.0 m.1.now) }
{
    match c.relation {
        Relation::SetIn => {}
        _ => return None,
    }
    match c.args.items() {
        [first, second] => match (constant_integer(first), one_term(second)) {
            (Some(member), Some(set)) => Some((member, set)),
            _ => None,
        },
        _ => None,
    }
}

/// The size and the set variable, where the constraint is that the set has a constant number of elements, which is not
/// negative.
pub(crate) fn cardinality(c: &Constraint) -> Option<(u64, VarId)>
    ensures { IfSome result (λ m. IsCardinality c.now (pos m.0) (terms.Var m.1)) }
{
    match c.relation {
        Relation::SetCard => {}
        _ => return None,
    }
    match c.args.items() {
        [first, second] => match (constant_size(second), one_variable(first)) {
            (Some(size), Some(set)) => Some((size, set)),
            _ => None,
        },
        _ => None,
    }
}

fn constant_size(arg: &Arg) -> Option<u64>
    ensures { IfSome result (λ n. arg.now ≡ arguments.One (terms.Const (values.Int (pos n)))) }
{
    match constant_integer(arg) {
        Some(x) if x >= 0 => Some(x as u64),
        _ => None,
    }
}

fn one_variable(arg: &Arg) -> Option<VarId>
    ensures { IfSome result (λ v. arg.now ≡ arguments.One (terms.Var v)) }
{
    match one_term(arg) {
        Some(term) => variable_in(term),
        None => None,
    }
}

/// The number of elements and the set, where the constraint is that the set has a constant number of elements.
pub(crate) fn size(c: &Constraint) -> Option<(i64, &Term)>
    ensures { IfSome result (λ m. IsCardinality c.now m.0 m.1.now) }
{
    match c.relation {
        Relation::SetCard => {}
        _ => return None,
    }
    match c.args.items() {
        [first, second] => match (constant_integer(second), one_term(first)) {
            (Some(n), Some(set)) => Some((n, set)),
            _ => None,
        },
        _ => None,
    }
}

/// The place, the items and the last argument, where the arguments are a constant place, an array, and one more term.
pub(crate) fn pick(c: &Constraint) -> Option<(i64, &[Term], &Term)>
    ensures { IfSome result (λ m. IsPick c.now m.0 m.1.now m.2.now) }
{
    match c.args.items() {
        [first, second, third] => {
            match (constant_integer(first), many_terms(second), one_term(third)) {
                (Some(place), Some(items), Some(x)) => Some((place, items, x)),
                _ => None,
            }
        }
        _ => None,
    }
}

/// The items and the truth value, where the arguments are an array and a constant truth value.
pub(crate) fn array_truth(c: &Constraint) -> Option<(&[Term], bool)>
    ensures { IfSome result (λ m. IsArrayTruth c.now m.0.now m.1) }
{
    match c.args.items() {
        [first, second] => match (many_terms(first), constant_bool(second)) {
            (Some(items), Some(truth)) => Some((items, truth)),
            _ => None,
        },
        _ => None,
    }
}

fn constant_bool(arg: &Arg) -> Option<bool>
    ensures { IfSome result (λ b. arg.now ≡ arguments.One (terms.Const (values.Bool b))) }
{
    match one_term(arg) {
        Some(term) => constant_truth(term),
        None => None,
    }
}

fn many_terms(arg: &Arg) -> Option<&[Term]>
    ensures { IfSome result (λ ts. arg.now ≡ arguments.Many ts.now) }
{
    match arg {
        Arg::Many(terms) => Some(terms.items()),
        Arg::One(_) => None,
    }
}

fn constant_integer(arg: &Arg) -> Option<i64>
    ensures { IfSome result (λ x. arg.now ≡ arguments.One (terms.Const (values.Int x))) }
{
    match one_term(arg) {
        Some(Term::Const(value)) => int_in(value),
        _ => None,
    }
}

fn int_in(value: &Value) -> Option<i64>
    ensures { IfSome result (λ x. value.now ≡ values.Int x) }
{
    match value {
        Value::Int(x) => Some(*x),
        Value::Bool(_) => None,
        Value::Set(_) => None,
    }
}

fn one_term(arg: &Arg) -> Option<&Term>
    ensures { IfSome result (λ t. arg.now ≡ arguments.One t.now) }
{
    match arg {
        Arg::One(term) => Some(term),
        Arg::Many(_) => None,
    }
}

/// A variable whose values are tried one after another: the one that names the truth value, or else the integer that is to
/// be an element or the number of elements of a set or a place of an array, or the truth value of all or some of an array.
/// None where there is none.
pub(crate) fn tried_first(c: &Constraint) -> Option<VarId>
    ensures { IfSome result (Contains (variables_of c.now)) }
{
    if let Some(v) = truth_variable(c) {
        return Some(v);
    }
    match c.relation {
        Relation::SetIn => argument_variable(c, 0),
        Relation::SetCard => argument_variable(c, 1),
        Relation::ArraySetElement => argument_variable(c, 0),
        Relation::ArrayIntElement => argument_variable(c, 0),
        Relation::ArrayBoolElement => argument_variable(c, 0),
        Relation::ArrayBoolAnd => argument_variable(c, 1),
        Relation::ArrayBoolOr => argument_variable(c, 1),
        _ => None,
    }
}

fn truth_variable(c: &Constraint) -> Option<VarId>
    ensures { IfSome result (Contains (variables_of c.now)) }
{
    match &c.reif {
        Some(term) => variable_in(term),
        None => None,
    }
}

/// The variable that is the argument of this number, counted from 0; None where that is no variable.
fn argument_variable(c: &Constraint, i: usize) -> Option<VarId>
    ensures { IfSome result (Contains (variables_of c.now)) }
{
    match c.args.items().get(i) {
        Some(arg) => one_variable(arg),
        None => None,
    }
}

fn variable_in(term: &Term) -> Option<VarId>
    ensures { IfSome result (λ v. term.now ≡ terms.Var v) }
{
    match term {
        Term::Const(_) => None,
        Term::Var(v) => Some(*v),
    }
}

/// Whether all the variables are set variables.
pub(crate) fn are_sets(kinds: &[Kind], variables: &[VarId]) -> bool
    ensures { IsTrue result → AreSetVariables kinds.now variables.now }
{
    for v in variables {
        if !is_set(kinds, *v) {
            return false;
        }
    }
    true
}

fn is_set(kinds: &[Kind], v: VarId) -> bool
    ensures { IsTrue result → IsSetVariable kinds.now v }
{
    match kinds.get(v.0 as usize) {
        Some(kind) => is_set_kind(kind),
        None => false,
    }
}

fn is_set_kind(kind: &Kind) -> bool
    ensures { IsTrue result → (universe : List ℤ) × (kind.now ≡ sorts.Set universe) }
{
    match kind {
        Kind::Set(_) => true,
        Kind::Bool => false,
        Kind::Int(_) => false,
    }
}
