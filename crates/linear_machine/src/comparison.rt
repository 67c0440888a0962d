//! How a sum is to compare with 0.
ghost use Rattle.std.specs.Prelude.{◌≡◌};
ghost use Rattle.linear_machine.specs.Steps.{all_at_most_zero, all_zero, compares, shared_answer};

/// How a sum is to compare with 0.
#[derive(Clone, Copy, PartialEq, Eq, Debug, Drop)]
pub enum Comparison {
    /// It is 0.
    Equal,
    /// It is not 0.
    Different,
    /// It is 0 or negative.
    AtMost,
}

impl Comparison {
    /// Whether the sum compares so with 0.
    pub(crate) fn holds(self, sum: i128) -> bool
        ensures { result ≡ compares self sum }
    {
        match self {
            Comparison::Equal => sum == 0,
            Comparison::Different => sum != 0,
            Comparison::AtMost => sum <= 0,
        }
    }

    /// The answer that all sums from `low` to `high` share, where they do.
    pub(crate) fn shared_answer(self, low: i128, high: i128) -> Option<bool>
        ensures { result ≡ shared_answer self low high }
    {
        match self {
            Comparison::Equal => all_zero(low, high),
            Comparison::Different => all_zero(low, high).map(|zero| !zero),
            Comparison::AtMost => all_at_most_zero(low, high),
        }
    }
}

/// Whether all numbers from `low` to `high` are 0, or none is.
fn all_zero(low: i128, high: i128) -> Option<bool>
    ensures { result ≡ all_zero low high }
{
    if 0 < low || high < 0 {
        return Some(false);
    }
    if low == 0 && high == 0 {
        return Some(true);
    }
    None
}

/// Whether all numbers from `low` to `high` are at most 0, or none is.
fn all_at_most_zero(low: i128, high: i128) -> Option<bool>
    ensures { result ≡ all_at_most_zero low high }
{
    if 0 < low {
        return Some(false);
    }
    if 0 < high {
        return None;
    }
    Some(true)
}
