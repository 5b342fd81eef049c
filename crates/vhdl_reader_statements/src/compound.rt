//! Compound statements: if, case and loop (10.8 to 10.10).

ghost use Rattle.std.specs.Prelude.{◌≡◌, [], ◌∷◌};
ghost use Rattle.vhdl_reader_expressions.specs.Steps.{Reads};
ghost use Rattle.vhdl_reader_expressions.specs.Reading as expressions;
ghost use Rattle.vhdl_reader_statements.specs.Reading as spec;
ghost use Rattle.vhdl_reader_statements.specs.Nests.{Nests};

use crate::sequence::Sequence;
use crate::simple::Simple;
use crate::tables::begins_arm;
use sqlite_items::Items;
use std::alloc::Global;
use vhdl_reader_expressions::{Readers, Stop, Tokens};
use vhdl_tokens::{Delimiter, Kind, Reserved, Token};
use vhdl_tree::{Arm, Bounds, Case, Choice, Elsif, Expr, If, Loop, Scheme, Statement};

impl Simple {
    pub fn choices(&self, tokens: &mut Tokens<'_>) -> Result<Items<Choice>, Stop>
        ensures { Reads (expressions.choices_within self.now.bound tokens.old) result tokens.new }
    {
        Readers {
            alloc: self.alloc,
            bound: self.bound,
        }
        .choices(tokens)
    }

    pub fn bounds(&self, tokens: &mut Tokens<'_>) -> Result<Bounds, Stop>
        ensures { Reads (expressions.bounds_within self.now.bound tokens.old) result tokens.new }
    {
        Readers {
            alloc: self.alloc,
            bound: self.bound,
        }
        .bounds(tokens)
    }

    /// What follows the word `for`.
    #[tactic(auto, unfolding(crate::specs::Reading::parameter))]
    pub fn parameter(&self, tokens: &mut Tokens<'_>) -> Result<Scheme, Stop>
        ensures { Reads (spec.parameter self.now.bound tokens.old) result tokens.new }
    {
        let parameter = tokens.token(Kind::Identifier)?;
        tokens.word(Kind::Word(Reserved::In))?;
        let bounds = self.bounds(tokens)?;
        Ok(Scheme::For(parameter, bounds))
    }

    /// What follows the word `while`.
    #[tactic(auto, unfolding(crate::specs::Reading::condition))]
    pub fn condition(&self, tokens: &mut Tokens<'_>) -> Result<Scheme, Stop>
        ensures { Reads (spec.condition self.now.bound tokens.old) result tokens.new }
    {
        let condition = self.expression(tokens)?;
        Ok(Scheme::While(condition))
    }

    #[tactic(auto, unfolding(crate::specs::Reading::scheme))]
    pub fn scheme(&self, tokens: &mut Tokens<'_>) -> Result<Scheme, Stop>
        ensures { Reads (spec.scheme self.now.bound tokens.old) result tokens.new }
    {
        if tokens.eat(Kind::Word(Reserved::While)) {
            self.condition(tokens)
        } else if tokens.eat(Kind::Word(Reserved::For)) {
            self.parameter(tokens)
        } else {
            Ok(Scheme::Forever)
        }
    }
}

/// The end of a compound statement, with the name that stands there.
#[tactic(auto, unfolding(crate::specs::Reading::closing))]
pub fn closing(tokens: &mut Tokens<'_>, word: Reserved) -> Result<Option<Token>, Stop>
    ensures { Reads (spec.closing word tokens.old) result tokens.new }
{
    tokens.word(Kind::Word(Reserved::End))?;
    tokens.word(Kind::Word(word))?;
    let name = tokens.optional(Kind::Identifier)?;
    tokens.word(Kind::Delimiter(Delimiter::Semicolon))?;
    Ok(name)
}

impl<F: Fn(Global, usize, usize, &mut Tokens<'_>) -> Result<Items<Statement>, Stop>> Sequence<F> {
    /// What follows the word `elsif`.
    #[tactic(auto, unfolding(crate::specs::Reading::elsif))]
    pub fn elsif(&self, tokens: &mut Tokens<'_>) -> Result<Elsif, Stop>
        requires { Nests self.now.simple.bound self.now.depth (F.pre self.now.inner) (F.post self.now.inner) }
        ensures { Reads (spec.elsif self.now.simple.bound (spec.statements_at self.now.simple.bound self.now.depth) tokens.old) result tokens.new }
    {
        let condition = self.simple.expression_before(tokens, Reserved::Then)?;
        let statements = self.inner(tokens)?;
        Ok(Elsif {
            condition,
            statements,
        })
    }

    /// Further `elsif` behind these.
    pub fn elsifs(
        &self,
        tokens: &mut Tokens<'_>,
        mut found: Items<Elsif>,
    ) -> Result<Items<Elsif>, Stop>
        requires { Nests self.now.simple.bound self.now.depth (F.pre self.now.inner) (F.post self.now.inner) }
        ensures { Reads (spec.elsifs self.now.simple.bound (spec.statements_at self.now.simple.bound self.now.depth) found tokens.old) result tokens.new }
    {
        'turns: for _turn in 0..self.simple.bound {
            if !tokens.eat(Kind::Word(Reserved::Elsif)) {
                return Ok(found);
            }
            let elsif = self.elsif(tokens)?;
            found.push(elsif)?;
        }
        Err(Stop::Bound)
    }

    /// The statements of `else`, if it is there.
    #[tactic(auto, unfolding(crate::specs::Reading::otherwise))]
    pub fn otherwise(&self, tokens: &mut Tokens<'_>) -> Result<Items<Statement>, Stop>
        requires { Nests self.now.simple.bound self.now.depth (F.pre self.now.inner) (F.post self.now.inner) }
        ensures { Reads (spec.otherwise self.now.simple.bound (spec.statements_at self.now.simple.bound self.now.depth) tokens.old) result tokens.new }
    {
        if tokens.eat(Kind::Word(Reserved::Else)) {
            self.inner(tokens)
        } else {
            Ok(Items::new(self.simple.alloc))
        }
    }

    /// What follows the first statements of an if statement.
    #[tactic(auto, unfolding(crate::specs::Reading::if_after))]
    pub fn if_after(
        &self,
        tokens: &mut Tokens<'_>,
        condition: Expr,
        statements: Items<Statement>,
    ) -> Result<If, Stop>
        requires { Nests self.now.simple.bound self.now.depth (F.pre self.now.inner) (F.post self.now.inner) }
        ensures { Reads (spec.if_after self.now.simple.bound (spec.statements_at self.now.simple.bound self.now.depth) condition statements tokens.old) result tokens.new }
    {
        let elsifs = self.elsifs(tokens, Items::new(self.simple.alloc))?;
        let otherwise = self.otherwise(tokens)?;
        let end_name = closing(tokens, Reserved::If)?;
        Ok(If {
            condition,
            statements,
            elsifs,
            otherwise,
            end_name,
        })
    }

    #[tactic(auto, unfolding(crate::specs::Reading::if_statement))]
    pub fn if_statement(&self, tokens: &mut Tokens<'_>) -> Result<If, Stop>
        requires { Nests self.now.simple.bound self.now.depth (F.pre self.now.inner) (F.post self.now.inner) }
        ensures { Reads (spec.if_statement self.now.simple.bound (spec.statements_at self.now.simple.bound self.now.depth) tokens.old) result tokens.new }
    {
        tokens.word(Kind::Word(Reserved::If))?;
        let condition = self.simple.expression_before(tokens, Reserved::Then)?;
        let statements = self.inner(tokens)?;
        self.if_after(tokens, condition, statements)
    }

    /// A `when` of a case statement.
    #[tactic(auto, unfolding(crate::specs::Reading::arm))]
    pub fn arm(&self, tokens: &mut Tokens<'_>) -> Result<Arm, Stop>
        requires { Nests self.now.simple.bound self.now.depth (F.pre self.now.inner) (F.post self.now.inner) }
        ensures { Reads (spec.arm self.now.simple.bound (spec.statements_at self.now.simple.bound self.now.depth) tokens.old) result tokens.new }
    {
        tokens.word(Kind::Word(Reserved::When))?;
        let choices = self.simple.choices(tokens)?;
        tokens.word(Kind::Delimiter(Delimiter::Arrow))?;
        let statements = self.inner(tokens)?;
        Ok(Arm {
            choices,
            statements,
        })
    }

    /// Further arms behind these.
    pub fn arms(&self, tokens: &mut Tokens<'_>, mut found: Items<Arm>) -> Result<Items<Arm>, Stop>
        requires { Nests self.now.simple.bound self.now.depth (F.pre self.now.inner) (F.post self.now.inner) }
        ensures { Reads (spec.arms self.now.simple.bound (spec.statements_at self.now.simple.bound self.now.depth) found tokens.old) result tokens.new }
    {
        'turns: for _turn in 0..self.simple.bound {
            if !begins_arm(tokens.kind()) {
                return Ok(found);
            }
            let arm = self.arm(tokens)?;
            found.push(arm)?;
        }
        Err(Stop::Bound)
    }

    /// The arms of a case statement.
    #[tactic(auto, unfolding(crate::specs::Reading::all_arms))]
    pub fn all_arms(&self, tokens: &mut Tokens<'_>) -> Result<Items<Arm>, Stop>
        requires { Nests self.now.simple.bound self.now.depth (F.pre self.now.inner) (F.post self.now.inner) }
        ensures { Reads (spec.all_arms self.now.simple.bound (spec.statements_at self.now.simple.bound self.now.depth) tokens.old) result tokens.new }
    {
        let first = self.arm(tokens)?;
        let mut found = Items::new(self.simple.alloc);
        found.push(first)?;
        self.arms(tokens, found)
    }

    #[tactic(auto, unfolding(crate::specs::Reading::case_statement))]
    pub fn case_statement(&self, tokens: &mut Tokens<'_>) -> Result<Case, Stop>
        requires { Nests self.now.simple.bound self.now.depth (F.pre self.now.inner) (F.post self.now.inner) }
        ensures { Reads (spec.case_statement self.now.simple.bound (spec.statements_at self.now.simple.bound self.now.depth) tokens.old) result tokens.new }
    {
        tokens.word(Kind::Word(Reserved::Case))?;
        let subject = self.simple.expression_before(tokens, Reserved::Is)?;
        let arms = self.all_arms(tokens)?;
        let end_name = closing(tokens, Reserved::Case)?;
        Ok(Case {
            subject,
            arms,
            end_name,
        })
    }

    #[tactic(auto, unfolding(crate::specs::Reading::loop_statement))]
    pub fn loop_statement(&self, tokens: &mut Tokens<'_>) -> Result<Loop, Stop>
        requires { Nests self.now.simple.bound self.now.depth (F.pre self.now.inner) (F.post self.now.inner) }
        ensures { Reads (spec.loop_statement self.now.simple.bound (spec.statements_at self.now.simple.bound self.now.depth) tokens.old) result tokens.new }
    {
        let scheme = self.simple.scheme(tokens)?;
        tokens.word(Kind::Word(Reserved::Loop))?;
        let statements = self.inner(tokens)?;
        let end_name = closing(tokens, Reserved::Loop)?;
        Ok(Loop {
            scheme,
            statements,
            end_name,
        })
    }
}
