//! The names of constraints.

ghost use Rattle.std.specs.Prelude.{◌≡◌};
ghost use Rattle.std.specs.Option.{option_map};
ghost use Rattle.fzn_model.specs.Names.{name_of, other_name_of, reified_name_of, relation_called, relation_called_reified, is_called, is_called_reified, named, reified};

use set_meaning::Relation;

/// What the name of a constraint says.
#[derive(Clone, Copy, Debug, PartialEq, Eq)]
pub struct ConstraintName {
    pub relation: Relation,
    /// Whether one more argument, a Boolean, is the truth value of the relation.
    pub is_reified: bool,
}

/// All relations.
const ALL: [Relation; 38] = [
    Relation::SetEq,
    Relation::SetNe,
    Relation::SetLt,
    Relation::SetLe,
    Relation::SetSubset,
    Relation::SetSuperset,
    Relation::SetIn,
    Relation::SetUnion,
    Relation::SetIntersect,
    Relation::SetDiff,
    Relation::SetSymdiff,
    Relation::SetCard,
    Relation::ArraySetElement,
    Relation::IntEq,
    Relation::IntNe,
    Relation::IntLe,
    Relation::IntLt,
    Relation::IntLinEq,
    Relation::IntLinLe,
    Relation::IntLinNe,
    Relation::IntPlus,
    Relation::IntTimes,
    Relation::IntMin,
    Relation::IntMax,
    Relation::IntAbs,
    Relation::ArrayIntElement,
    Relation::BoolEq,
    Relation::BoolLe,
    Relation::BoolLt,
    Relation::BoolNot,
    Relation::BoolAnd,
    Relation::BoolOr,
    Relation::BoolXor,
    Relation::BoolClause,
    Relation::ArrayBoolAnd,
    Relation::ArrayBoolOr,
    Relation::Bool2Int,
    Relation::ArrayBoolElement,
];

/// What `name` says as the name of a constraint; None where no relation has the name.
///
/// Source: the FlatZinc builtins of the MiniZinc Handbook, in the profile that docs/FORMATS.md gives.
pub fn named(name: &[u8]) -> Option<ConstraintName>
    ensures { result ≡ named name.now }
{
    match relation_called(name) {
        Some(relation) => Some(ConstraintName {
            relation,
            is_reified: false,
        }),
        None => reified(name),
    }
}

fn reified(name: &[u8]) -> Option<ConstraintName>
    ensures { result ≡ option_map reified (relation_called_reified name.now) }
{
    match relation_called_reified(name) {
        Some(relation) => Some(ConstraintName {
            relation,
            is_reified: true,
        }),
        None => None,
    }
}

#[tactic(auto, unfolding(crate::specs::Names::relation_called))]
fn relation_called(name: &[u8]) -> Option<Relation>
    ensures { result ≡ relation_called name.now }
{
    ALL.iter().copied().find(|r| is_called(name, *r))
}

#[tactic(auto, unfolding(crate::specs::Names::relation_called_reified))]
fn relation_called_reified(name: &[u8]) -> Option<Relation>
    ensures { result ≡ relation_called_reified name.now }
{
    ALL.iter().copied().find(|r| is_called_reified(name, *r))
}

fn is_called(name: &[u8], relation: Relation) -> bool
    ensures { result ≡ is_called name.now relation }
{
    if name_of(relation) == name {
        return true;
    }
    match other_name_of(relation) {
        Some(other) => other == name,
        None => false,
    }
}

fn is_called_reified(name: &[u8], relation: Relation) -> bool
    ensures { result ≡ is_called_reified name.now relation }
{
    match reified_name_of(relation) {
        Some(other) => other == name,
        None => false,
    }
}

fn name_of(relation: Relation) -> &'static [u8]
    ensures { result.now ≡ name_of relation }
{
    match relation {
        Relation::SetEq => b"set_eq",
        Relation::SetNe => b"set_ne",
        Relation::SetLt => b"set_lt",
        Relation::SetLe => b"set_le",
        Relation::SetSubset => b"set_subset",
        Relation::SetSuperset => b"set_superset",
        Relation::SetIn => b"set_in",
        Relation::SetUnion => b"set_union",
        Relation::SetIntersect => b"set_intersect",
        Relation::SetDiff => b"set_diff",
        Relation::SetSymdiff => b"set_symdiff",
        Relation::SetCard => b"set_card",
        Relation::ArraySetElement => b"array_set_element",
        Relation::IntEq => b"int_eq",
        Relation::IntNe => b"int_ne",
        Relation::IntLe => b"int_le",
        Relation::IntLt => b"int_lt",
        Relation::IntLinEq => b"int_lin_eq",
        Relation::IntLinLe => b"int_lin_le",
        Relation::IntLinNe => b"int_lin_ne",
        Relation::IntPlus => b"int_plus",
        Relation::IntTimes => b"int_times",
        Relation::IntMin => b"int_min",
        Relation::IntMax => b"int_max",
        Relation::IntAbs => b"int_abs",
        Relation::ArrayIntElement => b"array_int_element",
        Relation::BoolEq => b"bool_eq",
        Relation::BoolLe => b"bool_le",
        Relation::BoolLt => b"bool_lt",
        Relation::BoolNot => b"bool_not",
        Relation::BoolAnd => b"bool_and",
        Relation::BoolOr => b"bool_or",
        Relation::BoolXor => b"bool_xor",
        Relation::BoolClause => b"bool_clause",
        Relation::ArrayBoolAnd => b"array_bool_and",
        Relation::ArrayBoolOr => b"array_bool_or",
        Relation::Bool2Int => b"bool2int",
        Relation::ArrayBoolElement => b"array_bool_element",
    }
}

/// The other name of an element relation.
fn other_name_of(relation: Relation) -> Option<&'static [u8]>
    ensures { option_map (λ s. s.now) result ≡ other_name_of relation }
{
    match relation {
        Relation::ArraySetElement => Some(b"array_var_set_element"),
        Relation::ArrayIntElement => Some(b"array_var_int_element"),
        Relation::ArrayBoolElement => Some(b"array_var_bool_element"),
        _ => None,
    }
}

/// The name of a reifiable relation in its reified form.
fn reified_name_of(relation: Relation) -> Option<&'static [u8]>
    ensures { option_map (λ s. s.now) result ≡ reified_name_of relation }
{
    match relation {
        Relation::SetEq => Some(b"set_eq_reif"),
        Relation::SetNe => Some(b"set_ne_reif"),
        Relation::SetLt => Some(b"set_lt_reif"),
        Relation::SetLe => Some(b"set_le_reif"),
        Relation::SetSubset => Some(b"set_subset_reif"),
        Relation::SetSuperset => Some(b"set_superset_reif"),
        Relation::SetIn => Some(b"set_in_reif"),
        Relation::IntEq => Some(b"int_eq_reif"),
        Relation::IntNe => Some(b"int_ne_reif"),
        Relation::IntLe => Some(b"int_le_reif"),
        Relation::IntLt => Some(b"int_lt_reif"),
        Relation::IntLinEq => Some(b"int_lin_eq_reif"),
        Relation::IntLinLe => Some(b"int_lin_le_reif"),
        Relation::IntLinNe => Some(b"int_lin_ne_reif"),
        Relation::BoolEq => Some(b"bool_eq_reif"),
        Relation::BoolLe => Some(b"bool_le_reif"),
        Relation::BoolLt => Some(b"bool_lt_reif"),
        _ => None,
    }
}
