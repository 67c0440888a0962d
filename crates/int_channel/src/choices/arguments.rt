//! The terms of arguments.
ghost use Rattle.std.specs.Prelude.{◌≡◌, ◌∷◌, [], All};
ghost use Rattle.std.specs.List.{flat_map};
ghost use Rattle.set_meaning.specs.declared.problems.Arg.TheVariants as arg;
ghost use Rattle.set_meaning.specs.Relations.{terms_of};
ghost use Rattle.problem_limits.specs.Limits.{IsSmallTerm};
ghost use Rattle.int_channel.specs.Choices.{AreItemsAndTerm, AreManyTerms, ArePlaceItemsAndTerm, AreThreeTerms, AreTwoTerms, IsOneTerm};

use set_meaning::{Arg, Term};

#[derive(Drop)]
pub(super) struct TwoTerms<'a> {
    pub(super) first: &'a Term,
    pub(super) second: &'a Term,
}

#[derive(Drop)]
pub(super) struct ThreeTerms<'a> {
    pub(super) first: &'a Term,
    pub(super) second: &'a Term,
    pub(super) third: &'a Term,
}

/// The two terms that the arguments are.
pub(super) fn two_terms(args: &[Arg]) -> TwoTerms
    requires shape { AreTwoTerms args.now }
    requires small { All IsSmallTerm (flat_map terms_of args.now) }
    ensures args { args.now ≡ arg.One result.first.now ∷ arg.One result.second.now ∷ [] }
    ensures first { IsSmallTerm result.first.now }
    ensures second { IsSmallTerm result.second.now }
{
    match args {
        [first, second] => TwoTerms {
            first: term(first),
            second: term(second),
        },
        _ => unreachable!(),
    }
}

/// The three terms that the arguments are.
pub(super) fn three_terms(args: &[Arg]) -> ThreeTerms
    requires shape { AreThreeTerms args.now }
    requires small { All IsSmallTerm (flat_map terms_of args.now) }
    ensures args { args.now ≡ arg.One result.first.now ∷ arg.One result.second.now ∷ arg.One result.third.now ∷ [] }
    ensures first { IsSmallTerm result.first.now }
    ensures second { IsSmallTerm result.second.now }
    ensures third { IsSmallTerm result.third.now }
{
    match args {
        [first, second, third] => ThreeTerms {
            first: term(first),
            second: term(second),
            third: term(third),
        },
        _ => unreachable!(),
    }
}

#[derive(Drop)]
pub(super) struct ItemsAndTerm<'a> {
    pub(super) items: &'a [Term],
    pub(super) term: &'a Term,
}

#[derive(Drop)]
pub(super) struct PlaceItemsAndTerm<'a> {
    pub(super) place: &'a Term,
    pub(super) items: &'a [Term],
    pub(super) item: &'a Term,
}

/// The array and the term that the arguments are.
pub(super) fn items_and_term(args: &[Arg]) -> ItemsAndTerm
    requires { AreItemsAndTerm args.now }
    ensures { args.now ≡ arg.Many result.items.now ∷ arg.One result.term.now ∷ [] }
{
    match args {
        [first, second] => ItemsAndTerm {
            items: items(first),
            term: term(second),
        },
        _ => unreachable!(),
    }
}

/// The term, the array and the other term that the arguments are.
pub(super) fn place_items_and_term(args: &[Arg]) -> PlaceItemsAndTerm
    requires { ArePlaceItemsAndTerm args.now }
    ensures { args.now ≡ arg.One result.place.now ∷ arg.Many result.items.now ∷ arg.One result.item.now ∷ [] }
{
    match args {
        [first, second, third] => PlaceItemsAndTerm {
            place: term(first),
            items: items(second),
            item: term(third),
        },
        _ => unreachable!(),
    }
}

fn items(argument: &Arg) -> &[Term]
    requires { AreManyTerms argument.now }
    ensures { argument.now ≡ arg.Many result.now }
{
    match argument {
        Arg::One(_) => unreachable!(),
        Arg::Many(terms) => terms.items(),
    }
}

fn term(argument: &Arg) -> &Term
    requires { IsOneTerm argument.now }
    ensures { argument.now ≡ arg.One result.now }
{
    match argument {
        Arg::One(term) => term,
        Arg::Many(_) => unreachable!(),
    }
}
