//! A cursor over the tokens of a text.

ghost use Rattle.std.specs.Prelude.{◌≡◌, length, refl};
ghost use Rattle.vhdl_tree.specs.Words.{kind_of, place_of, line_of};
ghost use Rattle.vhdl_reader_expressions.specs.Steps.{Reads, next, sees, behind};
ghost use Rattle.vhdl_reader_expressions.specs.Steps as spec;

use crate::kinds::same;
use crate::stop::Stop;
use std::marker::Model;
use vhdl_tokens::{Kind, Token};

/// The tokens that aren't read yet. Contracts see it as their list.
#[derive(Drop)]
pub struct Tokens<'a> {
    rest: &'a [Token],
}

impl<'a> Model for Tokens<'a> {
    ghost use Rattle.std.specs.Prelude.{List};
    ghost use Rattle.vhdl_tokens.specs.declared.token.Token.{Token};

    ghost Value = { List Token };

    ghost view = { λ t. t.rest.now };
}

impl<'a> Tokens<'a> {
    /// A cursor at the first of these tokens.
    pub fn new(tokens: &'a [Token]) -> Tokens<'a>
        ensures { result ≡ tokens.now }
    {
        Tokens { rest: tokens }
    }

    /// How many tokens aren't read yet.
    pub fn left(&self) -> usize
        ensures { result ≡ length self.now }
    {
        self.rest.len()
    }

    /// The kind of the next token, if there is one.
    pub fn kind(&self) -> Option<Kind>
        ensures { result ≡ kind_of self.now }
    {
        match self.rest {
            [token, ..] => Some(token.kind),
            [] => None,
        }
    }

    /// The place of the first byte of the next token, or 0 where there is none.
    pub fn place(&self) -> u32
        ensures { result ≡ place_of self.now }
    {
        match self.rest {
            [token, ..] => token.start,
            [] => 0,
        }
    }

    /// The line of the next token, or 0 where there is none.
    pub fn line(&self) -> u32
        ensures { result ≡ line_of self.now }
    {
        match self.rest {
            [token, ..] => token.line,
            [] => 0,
        }
    }

    /// Whether the next token is of this kind.
    pub fn sees(&self, kind: Kind) -> bool
        ensures { result ≡ sees kind self.now }
    {
        match self.rest {
            [token, ..] => same(token.kind, kind),
            [] => false,
        }
    }

    /// Goes past the next token, if there is one.
    pub fn skip(&mut self)
        ensures { self.new ≡ next self.old }
    {
        if let [_, rest @ ..] = self.rest {
            self.rest = rest;
        }
    }

    /// Goes past the next token where it is of this kind, and says whether it is.
    #[tactic(auto, unfolding(crate::specs::Steps::behind))]
    pub fn eat(&mut self, kind: Kind) -> bool
        ensures found { result ≡ sees kind self.old }
        ensures after { self.new ≡ behind kind self.old }
    {
        let found = self.sees(kind);
        if found {
            self.skip();
        }
        found
    }

    /// Goes past the next token, which has to be of this kind.
    #[tactic(auto, unfolding(crate::specs::Steps::word))]
    pub fn word(&mut self, kind: Kind) -> Result<(), Stop>
        ensures { Reads (spec.word kind self.old) result self.new }
    {
        if self.eat(kind) {
            Ok(())
        } else {
            Err(Stop::Syntax)
        }
    }

    /// The next token, whatever it is.
    pub fn any(&mut self) -> Result<Token, Stop>
        ensures { Reads (spec.any self.old) result self.new }
    {
        match self.rest {
            [token, rest @ ..] => {
                self.rest = rest;
                Ok(*token)
            }
            [] => Err(Stop::Syntax),
        }
    }

    /// The next token, which has to be of this kind.
    #[tactic(auto, unfolding(crate::specs::Steps::token))]
    pub fn token(&mut self, kind: Kind) -> Result<Token, Stop>
        ensures { Reads (spec.token kind self.old) result self.new }
    {
        if self.sees(kind) {
            self.any()
        } else {
            Err(Stop::Syntax)
        }
    }

    /// The next token where it is of this kind.
    #[tactic(auto, unfolding(crate::specs::Steps::optional))]
    pub fn optional(&mut self, kind: Kind) -> Result<Option<Token>, Stop>
        ensures { Reads (spec.optional kind self.old) result self.new }
    {
        if self.sees(kind) {
            let token = self.any()?;
            Ok(Some(token))
        } else {
            Ok(None)
        }
    }
}
