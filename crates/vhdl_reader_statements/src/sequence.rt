//! Lists of statements. The readers take the reader of statements one compound statement further in as a parameter, so
//! that each is proved by itself.

ghost use Rattle.std.specs.Prelude.{◌≡◌};
ghost use Rattle.vhdl_reader_expressions.specs.Steps.{Reads};
ghost use Rattle.vhdl_reader_statements.specs.Reading as spec;
ghost use Rattle.vhdl_reader_statements.specs.Nests.{Nests};

use crate::simple::{Simple, null, report};
use crate::tables::{Opening, begins_statement, is_identifier, opening_of};
use sqlite_items::Items;
use std::alloc::Global;
use vhdl_reader_expressions::{Stop, Tokens};
use vhdl_tokens::{Delimiter, Kind, Reserved, Token};
use vhdl_tree::{Body, Statement};

#[derive(Clone, Copy)]
pub struct Sequence<F> {
    pub simple: Simple,
    /// How deep compound statements may still nest.
    pub depth: usize,
    pub inner: F,
}

impl<F: Fn(Global, usize, usize, &mut Tokens<'_>) -> Result<Items<Statement>, Stop>> Sequence<F> {
    /// The statements that a compound statement holds.
    pub fn inner(&self, tokens: &mut Tokens<'_>) -> Result<Items<Statement>, Stop>
        requires { Nests self.now.simple.bound self.now.depth (F.pre self.now.inner) (F.post self.now.inner) }
        ensures { Reads (spec.statements_at self.now.simple.bound self.now.depth tokens.old) result tokens.new }
    {
        (self.inner)(self.simple.alloc, self.simple.bound, self.depth, tokens)
    }

    #[tactic(auto, unfolding(crate::specs::Reading::body))]
    pub fn body(&self, tokens: &mut Tokens<'_>) -> Result<Body, Stop>
        requires { Nests self.now.simple.bound self.now.depth (F.pre self.now.inner) (F.post self.now.inner) }
        ensures { Reads (spec.body self.now.simple.bound (spec.statements_at self.now.simple.bound self.now.depth) tokens.old) result tokens.new }
    {
        match opening_of(tokens.kind()) {
            Opening::Named => self.simple.assignment(tokens),
            Opening::Wait => Ok(Body::Wait(self.simple.wait(tokens)?)),
            Opening::Assert => Ok(Body::Assert(self.simple.assertion(tokens)?)),
            Opening::Report => Ok(Body::Report(report(tokens)?)),
            Opening::If => Ok(Body::If(self.if_statement(tokens)?)),
            Opening::Case => Ok(Body::Case(self.case_statement(tokens)?)),
            Opening::Loop => Ok(Body::Loop(self.loop_statement(tokens)?)),
            Opening::Next => Ok(Body::Next(self.simple.jump(tokens, Reserved::Next)?)),
            Opening::Exit => Ok(Body::Exit(self.simple.jump(tokens, Reserved::Exit)?)),
            Opening::Null => null(tokens),
            Opening::Other => Err(Stop::Syntax),
        }
    }

    /// A statement whose first token, at this line, is this identifier: its label, or where its target begins.
    #[tactic(auto, unfolding(crate::specs::Reading::named_after))]
    pub fn named_after(
        &self,
        tokens: &mut Tokens<'_>,
        line: u32,
        identifier: Token,
    ) -> Result<Statement, Stop>
        requires { Nests self.now.simple.bound self.now.depth (F.pre self.now.inner) (F.post self.now.inner) }
        ensures { Reads (spec.named_after self.now.simple.bound (spec.statements_at self.now.simple.bound self.now.depth) line identifier tokens.old) result tokens.new }
    {
        if tokens.eat(Kind::Delimiter(Delimiter::Colon)) {
            let body = self.body(tokens)?;
            Ok(Statement {
                line,
                label: Some(identifier),
                body,
            })
        } else {
            let body = self.simple.assignment_from(tokens, identifier)?;
            Ok(Statement {
                line,
                label: None,
                body,
            })
        }
    }

    /// A statement that begins with an identifier at this line.
    #[tactic(auto, unfolding(crate::specs::Reading::named))]
    pub fn named(&self, tokens: &mut Tokens<'_>, line: u32) -> Result<Statement, Stop>
        requires { Nests self.now.simple.bound self.now.depth (F.pre self.now.inner) (F.post self.now.inner) }
        ensures { Reads (spec.named self.now.simple.bound (spec.statements_at self.now.simple.bound self.now.depth) line tokens.old) result tokens.new }
    {
        let identifier = tokens.token(Kind::Identifier)?;
        self.named_after(tokens, line, identifier)
    }

    /// A statement without a label at this line.
    #[tactic(auto, unfolding(crate::specs::Reading::unlabelled))]
    pub fn unlabelled(&self, tokens: &mut Tokens<'_>, line: u32) -> Result<Statement, Stop>
        requires { Nests self.now.simple.bound self.now.depth (F.pre self.now.inner) (F.post self.now.inner) }
        ensures { Reads (spec.unlabelled self.now.simple.bound (spec.statements_at self.now.simple.bound self.now.depth) line tokens.old) result tokens.new }
    {
        let body = self.body(tokens)?;
        Ok(Statement {
            line,
            label: None,
            body,
        })
    }

    #[tactic(auto, unfolding(crate::specs::Reading::statement))]
    pub fn statement(&self, tokens: &mut Tokens<'_>) -> Result<Statement, Stop>
        requires { Nests self.now.simple.bound self.now.depth (F.pre self.now.inner) (F.post self.now.inner) }
        ensures { Reads (spec.statement self.now.simple.bound (spec.statements_at self.now.simple.bound self.now.depth) tokens.old) result tokens.new }
    {
        let line = tokens.line();
        if is_identifier(tokens.kind()) {
            self.named(tokens, line)
        } else {
            self.unlabelled(tokens, line)
        }
    }

    /// Further statements behind these.
    pub fn statements(
        &self,
        tokens: &mut Tokens<'_>,
        mut found: Items<Statement>,
    ) -> Result<Items<Statement>, Stop>
        requires { Nests self.now.simple.bound self.now.depth (F.pre self.now.inner) (F.post self.now.inner) }
        ensures { Reads (spec.statements self.now.simple.bound (spec.statements_at self.now.simple.bound self.now.depth) found tokens.old) result tokens.new }
    {
        'turns: for _turn in 0..self.simple.bound {
            if !begins_statement(tokens.kind()) {
                return Ok(found);
            }
            let statement = self.statement(tokens)?;
            found.push(statement)?;
        }
        Err(Stop::Bound)
    }

    /// Statements, up to a token that begins none.
    #[tactic(auto, unfolding(crate::specs::Reading::level))]
    pub fn level(&self, tokens: &mut Tokens<'_>) -> Result<Items<Statement>, Stop>
        requires { Nests self.now.simple.bound self.now.depth (F.pre self.now.inner) (F.post self.now.inner) }
        ensures { Reads (spec.level self.now.simple.bound (spec.statements_at self.now.simple.bound self.now.depth) tokens.old) result tokens.new }
    {
        self.statements(tokens, Items::new(self.simple.alloc))
    }
}

/// Statements, up to a token that begins none.
pub fn statements(
    alloc: Global,
    bound: usize,
    depth: usize,
    tokens: &mut Tokens<'_>,
) -> Result<Items<Statement>, Stop>
    ensures { Reads (spec.statements_at bound depth tokens.old) result tokens.new }
{
    if depth == 0 {
        return Err(Stop::Bound);
    }
    Sequence {
        simple: Simple { alloc, bound },
        depth: depth - 1,
        inner: statements,
    }
    .level(tokens)
}
