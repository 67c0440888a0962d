//! What stands for terms while a text is read. Constant sets are shared, and so are arrays: a use of a name takes no
//! memory that grows with what it stands for.

ghost use Rattle.std.specs.Prelude.{◌≡◌, length, map, sum_by, IfOk};
ghost use Rattle.fzn_model.specs.FaultsOf.{set_size};
ghost use Rattle.fzn_model.specs.ProblemOf.{terms_in};
ghost use Rattle.fzn_model.specs.Shared.{arg_in, set_in, term_in};

use crate::short_range::ShortRange;
use listed::Listed;
use set_meaning::{Arg, Relation, SetValue, Term, Value, VarId};
use std::alloc::{AllocError, Global};
use std::rc::Rc;

/// A constant set. A range keeps its ends alone, and all uses of a list share its elements.
#[derive(Drop, Debug)]
pub(crate) enum SharedSet {
    Range(ShortRange),
    List(Rc<SetValue>),
}

impl SharedSet {
    /// The same set, whose elements are shared.
    pub(crate) fn share(&self) -> Result<SharedSet, AllocError>
        ensures { IfOk result (λ copy. set_in copy ≡ set_in self.now) }
    {
        match self {
            SharedSet::Range(range) => Ok(SharedSet::Range(*range)),
            SharedSet::List(set) => Ok(SharedSet::List(set.clone()?)),
        }
    }

    /// The set, with memory of its own.
    pub(crate) fn made(&self, alloc: Global) -> Result<SetValue, AllocError>
        ensures { IfOk result (λ set. set ≡ set_in self.now) }
    {
        match self {
            SharedSet::Range(range) => range.made(alloc),
            SharedSet::List(set) => set.copy(alloc),
        }
    }

    fn size(&self) -> u64
        ensures { result ≡ length (set_in self.now) }
    {
        match self {
            SharedSet::Range(range) => range.size(),
            SharedSet::List(set) => set.elements().len() as u64,
        }
    }
}

/// A constant or a variable.
#[derive(Drop, Debug)]
pub(crate) enum SharedTerm {
    Bool(bool),
    Int(i64),
    Set(SharedSet),
    Var(VarId),
}

impl SharedTerm {
    /// The same term, whose set is shared.
    pub(crate) fn share(&self) -> Result<SharedTerm, AllocError>
        ensures { IfOk result (λ copy. term_in copy ≡ term_in self.now) }
    {
        match self {
            SharedTerm::Bool(truth) => Ok(SharedTerm::Bool(*truth)),
            SharedTerm::Int(x) => Ok(SharedTerm::Int(*x)),
            SharedTerm::Set(set) => Ok(SharedTerm::Set(set.share()?)),
            SharedTerm::Var(variable) => Ok(SharedTerm::Var(*variable)),
        }
    }

    /// The term, with memory of its own.
    pub(crate) fn made(&self, alloc: Global) -> Result<Term, AllocError>
        ensures { IfOk result (λ term. term ≡ term_in self.now) }
    {
        match self {
            SharedTerm::Bool(truth) => Ok(Term::Const(Value::Bool(*truth))),
            SharedTerm::Int(x) => Ok(Term::Const(Value::Int(*x))),
            SharedTerm::Set(set) => Ok(Term::Const(Value::Set(set.made(alloc)?))),
            SharedTerm::Var(variable) => Ok(Term::Var(*variable)),
        }
    }

    /// How many elements the term has, where it is a constant set.
    pub(crate) fn set_size(&self) -> u64
        ensures { result ≡ set_size (term_in self.now) }
    {
        match self {
            SharedTerm::Set(set) => set.size(),
            _ => 0,
        }
    }
}

/// An argument: a term, or an array of terms, which all uses of its name share.
#[derive(Drop, Debug)]
pub(crate) enum SharedArg {
    One(SharedTerm),
    Many(Rc<Vec<SharedTerm>>),
}

impl SharedArg {
    /// An array of these terms.
    pub(crate) fn array(alloc: Global, terms: Vec<SharedTerm>) -> Result<SharedArg, AllocError>
        ensures { IfOk result (λ array. arg_in array ≡ Arg.Many (map term_in terms.items)) }
    {
        match Rc::new(alloc, terms) {
            Ok(terms) => Ok(SharedArg::Many(terms)),
            Err(_) => Err(AllocError),
        }
    }

    /// The same argument, whose terms are shared.
    pub(crate) fn share(&self) -> Result<SharedArg, AllocError>
        ensures { IfOk result (λ copy. arg_in copy ≡ arg_in self.now) }
    {
        match self {
            SharedArg::One(term) => Ok(SharedArg::One(term.share()?)),
            SharedArg::Many(terms) => Ok(SharedArg::Many(terms.clone()?)),
        }
    }

    /// The argument, with memory of its own.
    pub(crate) fn made(&self, alloc: Global) -> Result<Arg, AllocError>
        ensures { IfOk result (λ arg. arg ≡ arg_in self.now) }
    {
        match self {
            SharedArg::One(term) => Ok(Arg::One(term.made(alloc)?)),
            SharedArg::Many(terms) => Ok(Arg::Many(Listed::of(made_terms(
                alloc,
                terms.as_slice(),
            )?))),
        }
    }

    /// How many terms the argument has.
    pub(crate) fn count(&self) -> usize
        ensures { result ≡ length (terms_in (arg_in self.now)) }
    {
        match self {
            SharedArg::One(_) => 1,
            SharedArg::Many(terms) => terms.len(),
        }
    }

    /// How many elements its constant sets have together.
    pub(crate) fn elements(&self) -> u128
        ensures { result ≡ sum_by set_size (terms_in (arg_in self.now)) }
    {
        match self {
            SharedArg::One(term) => u128::from(term.set_size()),
            SharedArg::Many(terms) => set_sizes(terms.as_slice()),
        }
    }
}

/// The terms, with memory of their own.
pub(crate) fn made_terms(alloc: Global, terms: &[SharedTerm]) -> Result<Vec<Term>, AllocError>
    ensures { IfOk result (λ made. made.items ≡ map term_in terms.now) }
{
    let mut made = Vec::with_capacity(alloc, terms.len())?;
    for term in terms {
        made.push(term.made(alloc)?)?;
    }
    Ok(made)
}

fn set_sizes(terms: &[SharedTerm]) -> u128
    ensures { result ≡ sum_by set_size (map term_in terms.now) }
{
    let mut total = 0u128;
    for term in terms {
        total += u128::from(term.set_size());
    }
    total
}

/// A relation over arguments, and the term that is its truth value where it is reified.
#[derive(Drop, Debug)]
pub(crate) struct SharedConstraint {
    pub relation: Relation,
    pub args: Vec<SharedArg>,
    pub reif: Option<SharedTerm>,
}
