//! From a text to its problem.

ghost use Rattle.std.specs.Prelude.{◌≡◌, ◌⊎◌, ◌↔◌, IfOk, IfErr, Result};
ghost use Rattle.fzn_reader.specs.declared.lexer.LexFault.TheVariants as lexical;
ghost use Rattle.fzn_reader.specs.Scan.{AreTokensOf, IsFirstLexFault};
ghost use Rattle.fzn_model.specs.declared.faults.FileFault.TheVariants as faults;
ghost use Rattle.fzn_model.specs.Files.{EndsIn, IsFaultOf, IsProblemOf, IsTreeOfText};
ghost use Rattle.fzn_model.specs.Printed.{StandsIn};
ghost use Rattle.fzn_model.specs.Told.{IsTold, is_lexical_memory, is_model_memory, is_syntax_memory, of_lexical, of_model, of_syntax};

use crate::building::build;
use crate::faults::{FileFault, ModelFault};
use fzn_parser::{SyntaxFault, Tree, parse, trees_are_in_order};
use fzn_reader::{LexFault, Token, lex};
use set_meaning::Problem;
use std::alloc::Global;

/// The problem of a text, or its first fault. A text passes each stage as a whole before the next begins: its tokens,
/// its tree, its problem. Its length is not measured here.
///
/// Source: FlatZinc in the MiniZinc Handbook, in the profile of docs/FORMATS.md, which has the grammar, the faults
/// and the limits. Time is of the order of the text and the problem; where a literal in braces is sorted, times a
/// logarithm.
pub fn read_problem(alloc: Global, text: &[u8]) -> Result<Problem, FileFault>
    ensures problem { IfOk result (IsProblemOf text.now) }
    ensures fault { IfErr result (λ e. (e ≡ faults.Memory) ⊎ IsFaultOf text.now e) }
    ensures place { IfErr result (λ e. (e ≡ faults.Memory) ⊎ StandsIn text.now e) }
{
    match tree_of_text(alloc, text) {
        Ok(tree) => problem_of_tree(alloc, text, &tree),
        Err(fault) => Err(fault),
    }
}

fn tree_of_text(alloc: Global, text: &[u8]) -> Result<Tree, FileFault>
    ensures tree { IfOk result (IsTreeOfText text.now) }
    ensures told { IfErr result (IsTold text.now) }
{
    match lex(alloc, text) {
        Ok(tokens) => tree_of_tokens(alloc, text, tokens.as_slice()),
        Err(fault) => Err(of_lexical(fault)),
    }
}

fn tree_of_tokens(alloc: Global, text: &[u8], tokens: &[Token]) -> Result<Tree, FileFault>
    requires { AreTokensOf text.now tokens.now }
    ensures tree { IfOk result (IsTreeOfText text.now) }
    ensures told { IfErr result (IsTold text.now) }
{
    trees_are_in_order();
    match parse(alloc, text, tokens) {
        Ok(tree) => Ok(tree),
        Err(fault) => Err(of_syntax(fault)),
    }
}

fn problem_of_tree(alloc: Global, text: &[u8], tree: &Tree) -> Result<Problem, FileFault>
    requires { IsTreeOfText text.now tree.now }
    ensures problem { IfOk result (IsProblemOf text.now) }
    ensures told { IfErr result (IsTold text.now) }
{
    let _ = text;
    trees_are_in_order();
    match build(alloc, tree) {
        Ok(problem) => Ok(problem),
        Err(fault) => Err(of_model(fault)),
    }
}

fn of_lexical(fault: LexFault) -> FileFault
    ensures { result ≡ of_lexical fault }
{
    if is_lexical_memory(fault) {
        FileFault::Memory
    } else {
        FileFault::Lex(fault)
    }
}

fn is_lexical_memory(fault: LexFault) -> bool
    ensures { result ≡ is_lexical_memory fault }
{
    match fault {
        LexFault::Memory => true,
        _ => false,
    }
}

fn of_syntax(fault: SyntaxFault) -> FileFault
    ensures { result ≡ of_syntax fault }
{
    if is_syntax_memory(fault) {
        FileFault::Memory
    } else {
        FileFault::Syntax(fault)
    }
}

fn is_syntax_memory(fault: SyntaxFault) -> bool
    ensures { result ≡ is_syntax_memory fault }
{
    match fault {
        SyntaxFault::Memory => true,
        _ => false,
    }
}

fn of_model(fault: ModelFault) -> FileFault
    ensures { result ≡ of_model fault }
{
    if is_model_memory(fault) {
        FileFault::Memory
    } else {
        FileFault::Model(fault)
    }
}

fn is_model_memory(fault: ModelFault) -> bool
    ensures { result ≡ is_model_memory fault }
{
    match fault {
        ModelFault::Memory => true,
        _ => false,
    }
}
