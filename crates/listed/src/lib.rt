//! A `Vec` that contracts see as the plain list of its items.
//!
//! A public type whose values are compared with those of a definition holds its lists in this type, so that two values
//! are equal exactly where their lists are, whatever capacity or place in memory the vectors behind them have.
#![tactic(auto)]

ghost use Rattle.std.specs.Prelude.{◌≡◌, List};

use std::marker::Model;

/// A list of items that is made once from a `Vec` and then only read.
#[derive(Drop, Debug)]
pub struct Listed<T> {
    vec: Vec<T>,
}

impl<T> Model for Listed<T> {
    ghost Value = { List T };

    ghost view = { λ list. list.vec.items };
}

impl<T> Listed<T> {
    /// The list of the items of `items`, in their order. Takes no memory.
    pub fn of(items: Vec<T>) -> Self
        ensures { result ≡ items.items }
    {
        Listed { vec: items }
    }

    /// The items, in order. Takes no memory.
    pub fn items(&self) -> &[T]
        ensures { result.now ≡ self.now }
    {
        self.vec.as_slice()
    }
}
