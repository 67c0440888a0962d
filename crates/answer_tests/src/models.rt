//! Small models made by chance: Booleans, integers of few values and sets of at most four elements, and constraints of
//! every relation.
use crate::chance::Chance;
use std::alloc::{AllocError, Global};

/// A domain, and how many values it has.
type Domain = (&'static str, usize);

const BOOLS: [Domain; 1] = [("bool", 2)];

const INTS: [Domain; 6] = [
    ("0..3", 4),
    ("-1..2", 4),
    ("{-2,1,3}", 3),
    ("0..1", 2),
    ("{0,2,5}", 3),
    ("-3..3", 7),
];

const SETS: [Domain; 6] = [
    ("set of 1..2", 4),
    ("set of 1..3", 8),
    ("set of {1,3,4}", 8),
    ("set of {-1,2}", 4),
    ("set of 1..4", 16),
    ("set of 0..0", 2),
];

const TRUTHS: [&str; 2] = ["true", "false"];

const NUMBERS: [&str; 5] = ["-1", "0", "1", "2", "3"];

const CONSTANT_SETS: [&str; 6] = ["{}", "{1}", "{2,3}", "1..3", "{1,2,4}", "{-1,0}"];

/// Constraints of sets, with a letter for each argument by its sort.
const OF_SETS: [&str; 24] = [
    "set_eq(S, S)",
    "set_ne(S, S)",
    "set_lt(S, S)",
    "set_le(S, S)",
    "set_subset(S, S)",
    "set_superset(S, S)",
    "set_in(I, S)",
    "set_union(S, S, S)",
    "set_intersect(S, S, S)",
    "set_diff(S, S, S)",
    "set_symdiff(S, S, S)",
    "set_card(S, I)",
    "set_card(S, 1)",
    "set_card(S, 2)",
    "set_eq_reif(S, S, B)",
    "set_ne_reif(S, S, B)",
    "set_lt_reif(S, S, B)",
    "set_le_reif(S, S, B)",
    "set_subset_reif(S, S, B)",
    "set_superset_reif(S, S, B)",
    "set_in_reif(I, S, B)",
    "array_var_set_element(I, [S,S], S)",
    "array_var_set_element(I, [S,S,S], S)",
    "array_set_element(I, [{1},{2},{}], S)",
];

/// Constraints of integers.
const OF_INTS: [&str; 24] = [
    "int_eq(I, I)",
    "int_ne(I, I)",
    "int_ne(I, I)",
    "int_le(I, I)",
    "int_lt(I, I)",
    "int_lin_eq([1,2], [I,I], 3)",
    "int_lin_eq([1,1,-1], [I,I,I], 1)",
    "int_lin_le([2,-1,1], [I,I,I], 2)",
    "int_lin_ne([1,1], [I,I], 2)",
    "int_plus(I, I, I)",
    "int_times(I, I, I)",
    "int_min(I, I, I)",
    "int_max(I, I, I)",
    "int_abs(I, I)",
    "int_eq_reif(I, I, B)",
    "int_ne_reif(I, I, B)",
    "int_le_reif(I, I, B)",
    "int_lt_reif(I, I, B)",
    "int_lin_eq_reif([1,-1], [I,I], 1, B)",
    "int_lin_le_reif([1,1], [I,I], 2, B)",
    "int_lin_ne_reif([1,-2], [I,I], 0, B)",
    "array_var_int_element(I, [I,I,2], I)",
    "array_int_element(I, [2,0,1], I)",
    "bool2int(B, I)",
];

/// Constraints of Booleans.
const OF_BOOLS: [&str; 24] = [
    "bool_eq(B, B)",
    "bool_le(B, B)",
    "bool_lt(B, B)",
    "bool_not(B, B)",
    "bool_and(B, B, B)",
    "bool_or(B, B, B)",
    "bool_xor(B, B, B)",
    "bool_eq_reif(B, B, B)",
    "bool_le_reif(B, B, B)",
    "bool_lt_reif(B, B, B)",
    "bool_clause([B,B], [B])",
    "bool_clause([B], [B,B])",
    "bool_clause([B,B], [])",
    "bool_clause([], [B,B])",
    "bool_clause([B,B,B], [])",
    "bool_clause([B], [B])",
    "bool_clause([], [B,B,B])",
    "bool_clause([B,B], [B,B])",
    "array_bool_and([B,B], B)",
    "array_bool_and([B,B,B], B)",
    "array_bool_or([B,B], B)",
    "array_bool_or([B,B,B], B)",
    "array_var_bool_element(I, [B,B], B)",
    "array_var_bool_element(I, [B,true,B], B)",
];

/// How many variables there are of each sort.
#[derive(Clone, Copy)]
struct Counts {
    bools: usize,
    ints: usize,
    sets: usize,
}

/// One of the domains.
fn domain(chance: &mut Chance, domains: &[Domain]) -> Domain {
    match domains.get(chance.below(domains.len())) {
        Some(domain) => *domain,
        None => ("bool", 2),
    }
}

/// Appends a variable, with the letter of its sort and this number.
fn push_variable(
    alloc: Global,
    text: &mut String,
    domain: &str,
    sort: &str,
    number: usize,
) -> Result<(), AllocError> {
    let line = format!(in alloc; "var {domain}: {sort}{number} :: output_var;\n")?;
    text.push_str(line.as_str())
}

/// Appends up to this number of variables, which have at most 1,024 assignments.
fn push_variables(
    alloc: Global,
    text: &mut String,
    chance: &mut Chance,
    most: usize,
) -> Result<Counts, AllocError> {
    let mut counts = Counts {
        bools: 0,
        ints: 0,
        sets: 0,
    };
    let mut assignments: usize = 1;
    for _ in 0..most {
        let (sort, (values, count), number) = match chance.below(4) {
            0 => ("i", domain(chance, &INTS), counts.ints),
            1 => ("s", domain(chance, &SETS), counts.sets),
            _ => ("b", domain(chance, &BOOLS), counts.bools),
        };
        let more = assignments.saturating_mul(count);
        if more <= 1_024 {
            push_variable(alloc, text, values, sort, number)?;
            assignments = more;
            counts = with(counts, sort);
        }
    }
    Ok(counts)
}

/// One variable of that sort more.
fn with(counts: Counts, sort: &str) -> Counts {
    let mut counts = counts;
    if sort == "i" {
        counts.ints = counts.ints.saturating_add(1);
    } else if sort == "s" {
        counts.sets = counts.sets.saturating_add(1);
    } else {
        counts.bools = counts.bools.saturating_add(1);
    }
    counts
}

/// Appends a variable of the sort, or now and then a constant, and always where there is no variable.
fn push_argument(
    alloc: Global,
    text: &mut String,
    chance: &mut Chance,
    sort: &str,
    count: usize,
    constants: &[&'static str],
) -> Result<(), AllocError> {
    if count == 0 || chance.below(8) == 0 {
        return text.push_str(chance.word(constants));
    }
    let number = chance.below(count);
    let name = format!(in alloc; "{sort}{number}")?;
    text.push_str(name.as_str())
}

/// Appends the constraint with an argument for each letter.
fn push_constraint(
    alloc: Global,
    text: &mut String,
    chance: &mut Chance,
    counts: Counts,
    constraint: &str,
) -> Result<(), AllocError> {
    text.push_str("constraint ")?;
    for sign in constraint.chars() {
        match sign {
            'S' => push_argument(alloc, text, chance, "s", counts.sets, &CONSTANT_SETS)?,
            'I' => push_argument(alloc, text, chance, "i", counts.ints, &NUMBERS)?,
            'B' => push_argument(alloc, text, chance, "b", counts.bools, &TRUTHS)?,
            other => text.push(other)?,
        }
    }
    text.push_str(";\n")
}

/// A constraint of a sort of which there are variables, for the most part.
fn constraint(chance: &mut Chance, counts: Counts) -> &'static str {
    let all = counts
        .bools
        .saturating_add(counts.ints)
        .saturating_add(counts.sets);
    let at = chance.below(all.saturating_add(1));
    if at < counts.sets {
        chance.word(&OF_SETS)
    } else if at - counts.sets < counts.ints {
        chance.word(&OF_INTS)
    } else {
        chance.word(&OF_BOOLS)
    }
}

/// The model of this seed: up to ten variables, and up to ten constraints.
pub(crate) fn model(alloc: Global, seed: u64) -> Result<String, AllocError> {
    let mut chance = Chance::new(seed);
    let mut text = String::new(alloc);
    let most = chance.below(9).saturating_add(2);
    let counts = push_variables(alloc, &mut text, &mut chance, most)?;
    let constraints = chance.below(11);
    for _ in 0..constraints {
        let constraint = constraint(&mut chance, counts);
        push_constraint(alloc, &mut text, &mut chance, counts, constraint)?;
    }
    text.push_str("solve satisfy;\n")?;
    Ok(text)
}
