// Small models made by chance, from a seed.
use std::alloc::{AllocError, Global};

/// A linear congruential generator (the constants of the example in the C standard).
#[derive(Drop)]
pub struct Chance {
    state: u64,
}

impl Chance {
    pub fn new(seed: u64) -> Chance {
        Chance { state: seed }
    }

    /// A number below `count`, or 0 where this is 0.
    pub fn below(&mut self, count: usize) -> usize {
        let state = self.state % 2_147_483_648;
        self.state = (state * 1_103_515_245 + 12_345) % 2_147_483_648;
        if count == 0 {
            return 0;
        }
        (self.state / 65_536) as usize % count
    }

    /// One of the words.
    fn word(&mut self, words: &[&'static str]) -> &'static str {
        match words.get(self.below(words.len())) {
            Some(word) => *word,
            None => "",
        }
    }
}

/// 1,024 assignments.
const VARIABLES: &str =
    "var set of 1..2: s :: output_var; var set of 1..3: t :: output_var; var 0..3: x :: output_var; var -1..2: y :: output_var; var bool: b :: output_var;\n";

const SETS: [&str; 7] = ["s", "t", "s", "t", "t", "{1}", "{2,3}"];

const INTS: [&str; 7] = ["x", "y", "x", "y", "x", "1", "2"];

const BOOLS: [&str; 5] = ["b", "b", "b", "true", "false"];

/// Constraints, with a letter for each argument by its sort.
const CONSTRAINTS: [&str; 40] = [
    "set_eq(S, S)",
    "set_ne(S, S)",
    "set_lt(S, S)",
    "set_le(S, S)",
    "set_subset(S, S)",
    "set_superset(S, S)",
    "set_in(I, S)",
    "set_union(S, S, S)",
    "set_intersect(S, S, S)",
    "set_diff(S, S, S)",
    "set_symdiff(S, S, S)",
    "set_card(S, I)",
    "set_eq_reif(S, S, B)",
    "set_lt_reif(S, S, B)",
    "set_subset_reif(S, S, B)",
    "set_in_reif(I, S, B)",
    "int_eq(I, I)",
    "int_ne(I, I)",
    "int_le(I, I)",
    "int_lt(I, I)",
    "int_lin_eq([1,2], [I,I], 3)",
    "int_lin_le([2,-1,1], [I,I,I], 2)",
    "int_lin_ne([1,1], [I,I], 2)",
    "int_plus(I, I, I)",
    "int_times(I, I, I)",
    "int_min(I, I, I)",
    "int_max(I, I, I)",
    "int_abs(I, I)",
    "int_eq_reif(I, I, B)",
    "int_le_reif(I, I, B)",
    "int_lin_eq_reif([1,-1], [I,I], 1, B)",
    "bool_eq(B, B)",
    "bool_le(B, B)",
    "bool_not(B, B)",
    "bool_xor(B, B, B)",
    "bool_clause([B,B], [B])",
    "array_bool_and([B,B], B)",
    "bool2int(B, I)",
    "array_var_int_element(I, [I,I,2], I)",
    "array_var_set_element(I, [S,S], S)",
];

/// Appends the constraint with an argument for each letter.
fn push_constraint(
    text: &mut Vec<u8>,
    constraint: &str,
    chance: &mut Chance,
) -> Result<(), AllocError> {
    text.extend_from_slice(b"constraint ")?;
    for byte in constraint.as_bytes() {
        match *byte {
            b'S' => text.extend_from_slice(chance.word(&SETS).as_bytes())?,
            b'I' => text.extend_from_slice(chance.word(&INTS).as_bytes())?,
            b'B' => text.extend_from_slice(chance.word(&BOOLS).as_bytes())?,
            other => text.push(other)?,
        }
    }
    text.extend_from_slice(b";\n")?;
    Ok(())
}

/// A model of five variables and up to five constraints.
pub fn model(alloc: Global, chance: &mut Chance) -> Result<Vec<u8>, AllocError> {
    let mut text = Vec::from_slice(alloc, VARIABLES.as_bytes())?;
    for _ in 0..chance.below(6) {
        let constraint = chance.word(&CONSTRAINTS);
        push_constraint(&mut text, constraint, chance)?;
    }
    text.extend_from_slice(b"solve satisfy;")?;
    Ok(text)
}
