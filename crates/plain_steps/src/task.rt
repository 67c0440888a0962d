//! A problem over explicit lists of values.

ghost use Rattle.std.specs.Prelude.{◌≡◌, length, slice_index};
ghost use Rattle.plain_steps.specs.Task.{Plain};

use crate::Set;

/// A problem: the initial sets of its variables, as lists of values, and its constraints, numbered from 0.
pub trait Task {
    ghost plain: { Self → Plain };

    /// The initial set of each variable.
    fn sets(&self) -> &[Set]
        ensures { result.now ≡ (plain self.now).sets };

    /// How many constraints there are.
    fn count(&self) -> usize
        ensures { result ≡ (plain self.now).count };

    /// Whether the constraint speaks of the variable.
    fn speaks_of(&self, constraint: usize, variable: usize) -> bool
        ensures { result ≡ (plain self.now).scope constraint variable };

    /// Whether the values, one for each variable, satisfy the constraint. The values of
    /// variables that it does not speak of count as 0.
    fn holds(&self, constraint: usize, values: &[u32]) -> bool
        requires { length values.now ≡ length (plain self.now).sets }
        ensures { result ≡ (plain self.now).holds constraint (λ v. slice_index values.now v) };
}
