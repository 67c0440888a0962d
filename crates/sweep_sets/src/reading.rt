//! How the bits of elements are read.
ghost use Rattle.std.specs.Prelude.{◌≡◌, ◌≤◌, ◌<◌, length};
ghost use Rattle.sweep_sets.specs.Rules.{after};
ghost use Rattle.sweep_sets.specs.Reading.{between, closed, first_element};

use crate::marks::Marks;
use crate::rules::{Progress, Rule};

/// What a bit says: into which sets it puts its element where it is true, and the number of this element in the list of
/// all.
#[derive(Clone, Copy, Debug)]
pub struct Entry {
    pub marks: Marks,
    pub element: usize,
}

/// What a reading keeps: what is known from the elements that are closed, and which sets have the one at hand so far.
#[derive(Clone, Copy, PartialEq, Eq, PartialOrd, Ord, Debug)]
pub struct Seen {
    pub progress: Progress,
    pub marks: Marks,
}

/// The number of the first bit's element, or the end where there are no bits.
pub(crate) fn first_element(end: usize, entries: &[Entry]) -> usize
    ensures { result ≡ first_element end entries.now }
{
    match entries {
        [] => end,
        [first, ..] => first.element,
    }
}

/// The constants of the elements with numbers from `from` to before `to`.
pub(crate) fn between(constants: &[Marks], from: usize, to: usize) -> &[Marks]
    requires order { from ≤ to }
    requires within { to ≤ length constants.now }
    ensures { result.now ≡ between constants.now from to }
{
    &constants[from..to]
}

/// Closes the elements with these constants, of the first of which something was seen.
pub(crate) fn closed(rule: Rule, seen: Seen, ended: &[Marks]) -> Seen
    ensures { result ≡ closed rule seen ended.now }
{
    match ended {
        [] => seen,
        [first, rest @ ..] => {
            let progress = rule.close(seen.progress, seen.marks.joined(*first));
            Seen {
                progress: after(rule, progress, rest),
                marks: Marks::none(),
            }
        }
    }
}

/// What is known after these elements.
fn after(rule: Rule, progress: Progress, elements: &[Marks]) -> Progress
    ensures { result ≡ after rule progress elements.now }
{
    let mut progress = progress;
    for marks in elements {
        progress = rule.close(progress, *marks);
    }
    progress
}
