//! Why a text has no problem.

use fzn_parser::SyntaxFault;
use fzn_reader::LexFault;
use std::alloc::{AllocError, AllocFailed};
use thiserror::Error;

/// Why a model has no problem, with the place of the fault, which is the number of bytes before it. The variants
/// stand in the order in which faults at one place are told.
#[derive(Clone, Copy, Debug, PartialEq, Eq, Error)]
pub enum ModelFault {
    /// A name is used that no earlier item declares. The place is the name.
    #[error("undeclared")]
    Undeclared { at: usize },
    /// A declared name is declared again. The place is the name.
    #[error("declared twice")]
    DeclaredTwice { at: usize },
    /// An expression has not the sort that its place asks for, or is an array where a single term is asked, or the
    /// other way round, or a variable stands where a constant must. The place is the expression.
    #[error("wrong type")]
    WrongType { at: usize },
    /// No relation has the constraint's name. The place is the name.
    #[error("unknown constraint")]
    UnknownConstraint { at: usize },
    /// The number of arguments is wrong, or the two lists of a linear constraint differ in length, or an array's
    /// length is not that of its literal. The place is the name of the constraint or of the array.
    #[error("wrong count")]
    WrongCount { at: usize },
    /// A scalar is `var int` or `var set of int`. The place is the word `int`.
    #[error("unbounded")]
    Unbounded { at: usize },
    /// A float type or a float outside annotations. The place is the word `float` or the literal.
    #[error("float")]
    Float { at: usize },
    /// An integer of more than 1,000,000,000 in size outside annotations. The place is the literal.
    #[error("number too large")]
    NumberTooLarge { at: usize },
    /// An integer variable has no value. The place is the set literal.
    #[error("empty domain")]
    EmptyDomain { at: usize },
    /// The greatest value of an integer variable is more than 65,535 above the least. The place is the set literal.
    #[error("integer too wide")]
    IntTooWide { at: usize },
    /// A universe has more than 512 elements, or a constant set more than 65,536: the place is the set literal. Or
    /// the constant sets in constraints have more than 16,777,216 together: the place is the occurrence that passes
    /// this number.
    #[error("set too wide")]
    SetTooWide { at: usize },
    /// An element of a universe or of a constant set is more than 1,000,000 in size. The place is the set literal.
    #[error("element out of range")]
    ElementRange { at: usize },
    /// The variables of a constraint have more than 2,048 bits. The place is the constraint's name.
    #[error("scope too wide")]
    ScopeTooWide { at: usize },
    /// The variables so far have more than 1,048,576 bits, each counted as at least one, or the integer variables so
    /// far more than 67,108,864 values in all. The place is the variable's name, or the constant objective.
    #[error("too many bits")]
    TooManyBits { at: usize },
    /// The constraint is the 100,001st, or the terms so far are more than 4,194,304. The place is the name of the
    /// constraint, or of the variable that is given a value.
    #[error("too many constraints")]
    TooManyConstraints { at: usize },
    /// The first output annotation of a scalar variable or of an array of variables does not show it. The place is the
    /// annotation's name.
    #[error("bad output annotation")]
    BadOutput { at: usize },
    /// The objective is no integer variable or constant. The place is the expression.
    #[error("objective is not an integer")]
    ObjectiveNotInt { at: usize },
    /// There was not enough memory.
    #[error("out of memory")]
    Memory,
}

/// Why a text has no problem: its first fault. A text passes one stage as a whole before the next begins.
#[derive(Clone, Copy, Debug, PartialEq, Eq, Error)]
pub enum FileFault {
    /// It has no tokens.
    #[error("no tokens")]
    Lex(LexFault),
    /// Its tokens are no model.
    #[error("no model")]
    Syntax(SyntaxFault),
    /// Its model has no problem.
    #[error("no problem")]
    Model(ModelFault),
    /// There was not enough memory, in any stage.
    #[error("out of memory")]
    Memory,
}

impl From<AllocError> for ModelFault {
    ghost use Rattle.std.specs.Prelude.{◌≡◌};
    ghost use Rattle.fzn_model.specs.declared.faults.ModelFault.TheVariants.{Memory};

    ghost from_gives = { λ _ e. e ≡ Memory };

    fn from(_: AllocError) -> ModelFault {
        ModelFault::Memory
    }
}

impl<T: Drop> From<AllocFailed<T>> for ModelFault {
    ghost use Rattle.std.specs.Prelude.{◌≡◌};
    ghost use Rattle.fzn_model.specs.declared.faults.ModelFault.TheVariants.{Memory};

    ghost from_gives = { λ _ e. e ≡ Memory };

    fn from(_: AllocFailed<T>) -> ModelFault {
        ModelFault::Memory
    }
}

impl From<AllocError> for FileFault {
    ghost use Rattle.std.specs.Prelude.{◌≡◌};
    ghost use Rattle.fzn_model.specs.declared.faults.FileFault.TheVariants.{Memory};

    ghost from_gives = { λ _ e. e ≡ Memory };

    fn from(_: AllocError) -> FileFault {
        FileFault::Memory
    }
}

impl<T: Drop> From<AllocFailed<T>> for FileFault {
    ghost use Rattle.std.specs.Prelude.{◌≡◌};
    ghost use Rattle.fzn_model.specs.declared.faults.FileFault.TheVariants.{Memory};

    ghost from_gives = { λ _ e. e ≡ Memory };

    fn from(_: AllocFailed<T>) -> FileFault {
        FileFault::Memory
    }
}
