//! Statements that hold no others: waits, assertions, reports, next, exit and null (10.2 to 10.4, 10.11, 10.12, 10.14).

ghost use Rattle.std.specs.Prelude.{◌≡◌, [], ◌∷◌};
ghost use Rattle.vhdl_reader_expressions.specs.Steps.{Reads};
ghost use Rattle.vhdl_reader_expressions.specs.Reading as expressions;
ghost use Rattle.vhdl_reader_statements.specs.Reading as spec;

use sqlite_items::Items;
use std::alloc::Global;
use vhdl_reader_expressions::{Readers, Stop, Tokens};
use vhdl_tokens::{Delimiter, Kind, Reserved, Token};
use vhdl_tree::{Assertion, Body, Expr, Jump, Name, Report, Wait};

/// The readers of what holds no statements.
#[derive(Clone, Copy)]
pub struct Simple {
    pub alloc: Global,
    /// The bound on the turns of a loop, and on how deep brackets nest.
    pub bound: usize,
}

impl Simple {
    pub fn expression(&self, tokens: &mut Tokens<'_>) -> Result<Expr, Stop>
        ensures { Reads (expressions.expression_within self.now.bound tokens.old) result tokens.new }
    {
        Readers {
            alloc: self.alloc,
            bound: self.bound,
        }
        .expression(tokens)
    }

    pub fn name(&self, tokens: &mut Tokens<'_>) -> Result<Name, Stop>
        ensures { Reads (expressions.name_within self.now.bound tokens.old) result tokens.new }
    {
        Readers {
            alloc: self.alloc,
            bound: self.bound,
        }
        .name(tokens)
    }

    /// An expression, and the word behind it.
    #[tactic(auto, unfolding(crate::specs::Reading::expression_before))]
    pub fn expression_before(&self, tokens: &mut Tokens<'_>, word: Reserved) -> Result<Expr, Stop>
        ensures { Reads (spec.expression_before self.now.bound word tokens.old) result tokens.new }
    {
        let expression = self.expression(tokens)?;
        tokens.word(Kind::Word(word))?;
        Ok(expression)
    }

    /// This word and an expression, if the word is there.
    #[tactic(auto, unfolding(crate::specs::Reading::perhaps_expression))]
    pub fn perhaps_expression(
        &self,
        tokens: &mut Tokens<'_>,
        word: Reserved,
    ) -> Result<Option<Expr>, Stop>
        ensures { Reads (spec.perhaps_expression self.now.bound word tokens.old) result tokens.new }
    {
        if !tokens.eat(Kind::Word(word)) {
            return Ok(None);
        }
        let expression = self.expression(tokens)?;
        Ok(Some(expression))
    }

    /// The names that a wait statement is sensitive to.
    #[tactic(auto, unfolding(crate::specs::Reading::on_names))]
    pub fn on_names(&self, tokens: &mut Tokens<'_>) -> Result<Items<Name>, Stop>
        ensures { Reads (spec.on_names self.now.bound tokens.old) result tokens.new }
    {
        if tokens.eat(Kind::Word(Reserved::On)) {
            self.names(tokens)
        } else {
            Ok(Items::new(self.alloc))
        }
    }

    #[tactic(auto, unfolding(crate::specs::Reading::wait))]
    pub fn wait(&self, tokens: &mut Tokens<'_>) -> Result<Wait, Stop>
        ensures { Reads (spec.wait self.now.bound tokens.old) result tokens.new }
    {
        let word = tokens.token(Kind::Word(Reserved::Wait))?;
        let on = self.on_names(tokens)?;
        let until = self.perhaps_expression(tokens, Reserved::Until)?;
        let time = self.perhaps_expression(tokens, Reserved::For)?;
        tokens.word(Kind::Delimiter(Delimiter::Semicolon))?;
        Ok(Wait {
            word,
            on,
            until,
            time,
        })
    }

    #[tactic(auto, unfolding(crate::specs::Reading::assertion))]
    pub fn assertion(&self, tokens: &mut Tokens<'_>) -> Result<Assertion, Stop>
        ensures { Reads (spec.assertion self.now.bound tokens.old) result tokens.new }
    {
        tokens.word(Kind::Word(Reserved::Assert))?;
        let condition = self.expression(tokens)?;
        let text = perhaps_token(tokens, Reserved::Report, Kind::Text)?;
        let severity = perhaps_token(tokens, Reserved::Severity, Kind::Identifier)?;
        tokens.word(Kind::Delimiter(Delimiter::Semicolon))?;
        Ok(Assertion {
            condition,
            text,
            severity,
        })
    }

    /// A next or exit statement, by its word.
    #[tactic(auto, unfolding(crate::specs::Reading::jump))]
    pub fn jump(&self, tokens: &mut Tokens<'_>, word: Reserved) -> Result<Jump, Stop>
        ensures { Reads (spec.jump self.now.bound word tokens.old) result tokens.new }
    {
        let word = tokens.token(Kind::Word(word))?;
        let label = tokens.optional(Kind::Identifier)?;
        let condition = self.perhaps_expression(tokens, Reserved::When)?;
        tokens.word(Kind::Delimiter(Delimiter::Semicolon))?;
        Ok(Jump {
            word,
            label,
            condition,
        })
    }
}

/// This word and a token of this kind, if the word is there.
#[tactic(auto, unfolding(crate::specs::Reading::perhaps_token))]
pub fn perhaps_token(
    tokens: &mut Tokens<'_>,
    word: Reserved,
    kind: Kind,
) -> Result<Option<Token>, Stop>
    ensures { Reads (spec.perhaps_token word kind tokens.old) result tokens.new }
{
    if !tokens.eat(Kind::Word(word)) {
        return Ok(None);
    }
    let token = tokens.token(kind)?;
    Ok(Some(token))
}

#[tactic(auto, unfolding(crate::specs::Reading::report))]
pub fn report(tokens: &mut Tokens<'_>) -> Result<Report, Stop>
    ensures { Reads (spec.report tokens.old) result tokens.new }
{
    tokens.word(Kind::Word(Reserved::Report))?;
    let text = tokens.token(Kind::Text)?;
    let severity = perhaps_token(tokens, Reserved::Severity, Kind::Identifier)?;
    tokens.word(Kind::Delimiter(Delimiter::Semicolon))?;
    Ok(Report { text, severity })
}

#[tactic(auto, unfolding(crate::specs::Reading::null))]
pub fn null(tokens: &mut Tokens<'_>) -> Result<Body, Stop>
    ensures { Reads (spec.null tokens.old) result tokens.new }
{
    tokens.word(Kind::Word(Reserved::Null))?;
    tokens.word(Kind::Delimiter(Delimiter::Semicolon))?;
    Ok(Body::Null)
}
