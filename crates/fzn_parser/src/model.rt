//! All items of a model.

ghost use Rattle.std.specs.Prelude.{◌≡◌, length, []};
ghost use Rattle.fzn_parser.specs.Grammar.{signs};
ghost use Rattle.fzn_parser.specs.Reading.{Gives, is_solve, at_end, model, with_items};

use crate::faults::{SyntaxFault, What};
use crate::items::item_at;
use crate::tree::{Form, Item};
use fzn_reader::Token;
use std::alloc::Global;

fn is_solve(form: &Form) -> bool
    ensures { result ≡ is_solve form.now }
{
    match form {
        Form::Solve { .. } => true,
        _ => false,
    }
}

/// That the text ends here: the items, if no token is left.
fn end_at(text: &[u8], tokens: &[Token], items: Vec<Item>) -> Result<Vec<Item>, SyntaxFault>
    ensures { Gives (λ v. v.items) result (with_items items.items (at_end (signs text.now tokens.now))) }
{
    let _ = text;
    match tokens {
        [] => Ok(items),
        [token, ..] => Err(SyntaxFault::Expected {
            at: token.from,
            what: What::End,
        }),
    }
}

/// The items that the tokens spell, the solve item last.
pub fn items_of(alloc: Global, text: &[u8], tokens: &[Token]) -> Result<Vec<Item>, SyntaxFault>
    ensures { Gives (λ v. v.items) result
        (with_items [] (model (length text.now) 100 (signs text.now tokens.now))) }
{
    let mut tokens = tokens;
    let mut items = Vec::new(alloc);
    'items: loop {
        let (item, rest) = item_at(alloc, text, tokens)?;
        let is_last = is_solve(&item.form);
        items.push(item)?;
        if is_last {
            return end_at(text, rest, items);
        }
        tokens = rest;
    }
}
