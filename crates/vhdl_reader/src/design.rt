//! The reading of a whole design file.

ghost use Rattle.std.specs.Prelude.{◌≡◌, ◌-◌, List};
ghost use Rattle.vhdl_tree.specs.declared.units.DesignFile.{DesignFile};
ghost use Rattle.vhdl_tree.specs.Units.{Sentence};
ghost use Rattle.vhdl_tree.specs.Faults.{NestsWell, OneSyntaxFault};
ghost use Rattle.vhdl_reader_expressions.specs.declared.stop.Stop.TheVariants.{Bound};
ghost use Rattle.vhdl_reader_expressions.specs.Steps.{Reads, whole};
ghost use Rattle.vhdl_reader.specs.Judgement.{Judges, Parses, Gives, error_at, at_depth};
ghost use Rattle.vhdl_reader.specs.Reading.{design_file};
ghost use Rattle.vhdl_tokens.specs.declared.token.Token.{Token};

use crate::depth::first_deep;
use crate::error::SyntaxError;
use crate::units::Units;
use std::alloc::Global;
use vhdl_reader_expressions::{Stop, Tokens};
use vhdl_tokens::Token;
use vhdl_tree::DesignFile;

// Reads a design file behind which nothing is left.
#[tactic(auto, unfolding(vhdl_reader_expressions::specs::Steps::whole))]
fn whole_file(alloc: Global, bound: usize, tokens: &mut Tokens<'_>) -> Result<DesignFile, Stop>
    ensures { Reads (whole (design_file bound) tokens.old) result tokens.new }
{
    let file = Units { alloc, bound }.design_file(tokens)?;
    match tokens.kind() {
        None => Ok(file),
        Some(_) => Err(Stop::Syntax),
    }
}

// The error that a stop with so many tokens left is. The bound is above the number of tokens, so it is never used up.
fn error_at(stop: Stop, tokens: usize, left: usize) -> SyntaxError
    requires { stop ≡ Bound → ⊥ }
    ensures { result ≡ error_at stop (tokens - left) }
{
    match stop {
        Stop::Syntax => SyntaxError::Syntax {
            token: tokens.saturating_sub(left),
        },
        Stop::Bound => unreachable!(),
        Stop::NoMemory => SyntaxError::NoMemory,
    }
}

// Reads tokens without a look at the depth.
fn parse(alloc: Global, tokens: &[Token]) -> Result<DesignFile, SyntaxError>
    ensures parses { Parses tokens.now result }
    ensures only { (tree : DesignFile) → Sentence tokens.now tree → Gives result tree }
{
    let mut cursor = Tokens::new(tokens);
    match whole_file(alloc, tokens.len() + 1, &mut cursor) {
        Ok(file) => Ok(file),
        Err(stop) => Err(error_at(stop, tokens.len(), cursor.left())),
    }
}

// The error of tokens of which the one at `deep` is the first that is too deep, by what those up to it were read into.
fn at_depth(parsed: Result<DesignFile, SyntaxError>, deep: usize) -> SyntaxError
    ensures { result ≡ at_depth parsed deep }
{
    match parsed {
        Err(SyntaxError::Syntax { token }) => {
            if token <= deep {
                SyntaxError::Syntax { token }
            } else {
                SyntaxError::Nesting { token: deep }
            }
        }
        Err(SyntaxError::NoMemory) => SyntaxError::NoMemory,
        _ => SyntaxError::Nesting { token: deep },
    }
}

/// Reads the tokens of a text into the tree of a design file (IEEE Std 1076-2008, 13.1).
///
/// It fails with the first token with which no design file goes on, or the number of tokens where they end too early; with
/// the first token at which brackets and statements nest more than 64 deep, where that stands before it or there is none;
/// and for want of memory.
pub fn read_design(alloc: Global, tokens: &[Token]) -> Result<DesignFile, SyntaxError>
    // A tree only of a design file that doesn't nest too deep, and each error only where it is the one to be answered.
    ensures judged { Judges tokens.now result }
    // Each such design file has its tree, unless memory runs out.
    ensures only { (tree : DesignFile) → Sentence tokens.now tree → NestsWell tokens.now → Gives result tree }
{
    match first_deep(tokens) {
        None => parse(alloc, tokens),
        Some(deep) => {
            let (front, _) = tokens.split_at(deep + 1);
            Err(at_depth(parse(alloc, front), deep))
        }
    }
}

/// A list of tokens has one syntax fault at most, so what [`read_design`] answers is determined but for want of memory.
pub fn one_syntax_fault()
    ensures { OneSyntaxFault }
{}

/// The tokens of a text are those of one tree at most.
pub fn one_tree()
    ensures { (tokens : List Token) (tree other : DesignFile) → Sentence tokens tree → Sentence tokens other → tree ≡ other }
{}
