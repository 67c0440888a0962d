//! The lexer of FlatZinc models: the tokens of a text with their places, or the first fault.
//!
//! Source: the FlatZinc grammar of the MiniZinc Handbook.
#![tactic(auto)]

mod gaps;
mod laws;
mod lexer;
mod numbers;
mod pieces;
mod strings;
mod symbols;
mod tokens;
mod words;

pub use laws::tokens_are_told_by_the_text;
pub use lexer::{LexFault, lex};
pub use tokens::{INT_LIMIT, Symbol, Token, TokenKind, Word};
