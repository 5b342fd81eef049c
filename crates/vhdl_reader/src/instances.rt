//! Associations and instances (6.5.7, 11.7).

ghost use Rattle.std.specs.Prelude.{◌≡◌};
ghost use Rattle.vhdl_tree.specs.declared.expressions.Name.{out-Name};
ghost use Rattle.vhdl_reader_expressions.specs.Steps.{Reads};
ghost use Rattle.vhdl_reader.specs.Reading as spec;

use crate::tables::{is_identifier, is_open};
use crate::units::Units;
use sqlite_items::Items;
use vhdl_reader_expressions::{Stop, Tokens};
use vhdl_tokens::{Delimiter, Kind, Reserved, Token};
use vhdl_tree::{Actual, Association, ConcurrentBody, Expr, Instantiation, Name};

/// The identifier that a name is by itself.
fn alone(name: &Name) -> Option<Token>
    ensures { result ≡ spec.alone (out-Name name.now).identifier (out-Name name.now).parts }
{
    if name.parts.is_empty() {
        Some(name.identifier)
    } else {
        None
    }
}

/// The formal that an expression may be, where its first token is an identifier.
#[tactic(auto, unfolding(crate::specs::Reading::formal_of))]
fn formal_of(named: bool, value: &Expr) -> Option<Token>
    ensures { result ≡ spec.formal_of named value.now }
{
    if !named {
        return None;
    }
    match value {
        Expr::Name(name) => alone(name),
        _ => None,
    }
}

/// An association without a formal.
fn positional(value: Expr) -> Association
    ensures { result ≡ spec.positional value }
{
    Association {
        formal: None,
        actual: Actual::Expr(value),
    }
}

impl Units {
    /// An actual: an expression, or the word `open`.
    #[tactic(auto, unfolding(crate::specs::Reading::actual))]
    fn actual(&self, tokens: &mut Tokens<'_>) -> Result<Actual, Stop>
        ensures { Reads (spec.actual self.now.bound tokens.old) result tokens.new }
    {
        if is_open(tokens.kind()) {
            let word = tokens.token(Kind::Word(Reserved::Open))?;
            Ok(Actual::Open(word))
        } else {
            let value = self.expression(tokens)?;
            Ok(Actual::Expr(value))
        }
    }

    /// What follows a formal.
    #[tactic(auto, unfolding(crate::specs::Reading::named_actual))]
    fn named_actual(&self, tokens: &mut Tokens<'_>, formal: Token) -> Result<Association, Stop>
        ensures { Reads (spec.named_actual self.now.bound formal tokens.old) result tokens.new }
    {
        let actual = self.actual(tokens)?;
        Ok(Association {
            formal: Some(formal),
            actual,
        })
    }

    /// An association that begins with this expression, and by an identifier where `named` says so.
    #[tactic(auto, unfolding(crate::specs::Reading::association_after))]
    fn association_after(
        &self,
        tokens: &mut Tokens<'_>,
        named: bool,
        value: Expr,
    ) -> Result<Association, Stop>
        ensures { Reads (spec.association_after self.now.bound named value tokens.old) result tokens.new }
    {
        match formal_of(named, &value) {
            Some(formal) => {
                if tokens.eat(Kind::Delimiter(Delimiter::Arrow)) {
                    self.named_actual(tokens, formal)
                } else {
                    Ok(positional(value))
                }
            }
            None => Ok(positional(value)),
        }
    }

    /// An association that begins with an expression.
    #[tactic(auto, unfolding(crate::specs::Reading::association_from))]
    fn association_from(&self, tokens: &mut Tokens<'_>, named: bool) -> Result<Association, Stop>
        ensures { Reads (spec.association_from self.now.bound named tokens.old) result tokens.new }
    {
        let value = self.expression(tokens)?;
        self.association_after(tokens, named, value)
    }

    /// The word `open` without a formal.
    #[tactic(auto, unfolding(crate::specs::Reading::open_association))]
    fn open_association(&self, tokens: &mut Tokens<'_>) -> Result<Association, Stop>
        ensures { Reads (spec.open_association self.now.bound tokens.old) result tokens.new }
    {
        let word = tokens.token(Kind::Word(Reserved::Open))?;
        Ok(Association {
            formal: None,
            actual: Actual::Open(word),
        })
    }

    /// An element of a generic or port map.
    #[tactic(auto, unfolding(crate::specs::Reading::association))]
    fn association(&self, tokens: &mut Tokens<'_>) -> Result<Association, Stop>
        ensures { Reads (spec.association self.now.bound tokens.old) result tokens.new }
    {
        if is_open(tokens.kind()) {
            return self.open_association(tokens);
        }
        let named = is_identifier(tokens.kind());
        self.association_from(tokens, named)
    }

    /// Further associations behind these.
    fn more_associations(
        &self,
        tokens: &mut Tokens<'_>,
        mut found: Items<Association>,
    ) -> Result<Items<Association>, Stop>
        ensures { Reads (spec.more_associations self.now.bound found tokens.old) result tokens.new }
    {
        'turns: for _turn in 0..self.bound {
            if !tokens.eat(Kind::Delimiter(Delimiter::Comma)) {
                return Ok(found);
            }
            let association = self.association(tokens)?;
            found.push(association)?;
        }
        Err(Stop::Bound)
    }

    /// Associations, with `,` between them.
    #[tactic(auto, unfolding(crate::specs::Reading::associations))]
    fn associations(&self, tokens: &mut Tokens<'_>) -> Result<Items<Association>, Stop>
        ensures { Reads (spec.associations self.now.bound tokens.old) result tokens.new }
    {
        let first = self.association(tokens)?;
        let mut found = Items::new(self.alloc);
        found.push(first)?;
        self.more_associations(tokens, found)
    }

    /// What follows the word `generic` or `port`.
    #[tactic(auto, unfolding(crate::specs::Reading::map_list))]
    fn map_list(&self, tokens: &mut Tokens<'_>) -> Result<Items<Association>, Stop>
        ensures { Reads (spec.map_list self.now.bound tokens.old) result tokens.new }
    {
        tokens.word(Kind::Word(Reserved::Map))?;
        tokens.word(Kind::Delimiter(Delimiter::LeftParen))?;
        let all = self.associations(tokens)?;
        tokens.word(Kind::Delimiter(Delimiter::RightParen))?;
        Ok(all)
    }

    /// A generic or port map, if there is one.
    #[tactic(auto, unfolding(crate::specs::Reading::map_of))]
    fn map_of(&self, tokens: &mut Tokens<'_>, word: Reserved) -> Result<Items<Association>, Stop>
        ensures { Reads (spec.map_of self.now.bound word tokens.old) result tokens.new }
    {
        if tokens.eat(Kind::Word(word)) {
            self.map_list(tokens)
        } else {
            Ok(Items::new(self.alloc))
        }
    }

    /// What follows the bracket behind an entity.
    #[tactic(auto, unfolding(crate::specs::Reading::bracketed_identifier))]
    fn bracketed_identifier(&self, tokens: &mut Tokens<'_>) -> Result<Option<Token>, Stop>
        ensures { Reads (spec.bracketed_identifier self.now.bound tokens.old) result tokens.new }
    {
        let identifier = tokens.token(Kind::Identifier)?;
        tokens.word(Kind::Delimiter(Delimiter::RightParen))?;
        Ok(Some(identifier))
    }

    /// The architecture of an instance, where it is named.
    #[tactic(auto, unfolding(crate::specs::Reading::architecture_name))]
    fn architecture_name(&self, tokens: &mut Tokens<'_>) -> Result<Option<Token>, Stop>
        ensures { Reads (spec.architecture_name self.now.bound tokens.old) result tokens.new }
    {
        if tokens.eat(Kind::Delimiter(Delimiter::LeftParen)) {
            self.bracketed_identifier(tokens)
        } else {
            Ok(None)
        }
    }

    /// An instance of this entity of this library.
    #[tactic(auto, unfolding(crate::specs::Reading::instance_of))]
    fn instance_of(
        &self,
        tokens: &mut Tokens<'_>,
        library: Option<Token>,
        entity: Token,
    ) -> Result<ConcurrentBody, Stop>
        ensures { Reads (spec.instance_of self.now.bound library entity tokens.old) result tokens.new }
    {
        let architecture = self.architecture_name(tokens)?;
        let generics = self.map_of(tokens, Reserved::Generic)?;
        let ports = self.map_of(tokens, Reserved::Port)?;
        tokens.word(Kind::Delimiter(Delimiter::Semicolon))?;
        Ok(ConcurrentBody::Instance(Instantiation {
            library,
            entity,
            architecture,
            generics,
            ports,
        }))
    }

    /// An instance of an entity of this library.
    #[tactic(auto, unfolding(crate::specs::Reading::instance_in))]
    fn instance_in(&self, tokens: &mut Tokens<'_>, library: Token) -> Result<ConcurrentBody, Stop>
        ensures { Reads (spec.instance_in self.now.bound library tokens.old) result tokens.new }
    {
        let entity = tokens.token(Kind::Identifier)?;
        self.instance_of(tokens, Some(library), entity)
    }

    /// An instance whose library or entity this is.
    #[tactic(auto, unfolding(crate::specs::Reading::instance_after))]
    fn instance_after(&self, tokens: &mut Tokens<'_>, first: Token) -> Result<ConcurrentBody, Stop>
        ensures { Reads (spec.instance_after self.now.bound first tokens.old) result tokens.new }
    {
        if tokens.eat(Kind::Delimiter(Delimiter::Dot)) {
            self.instance_in(tokens, first)
        } else {
            self.instance_of(tokens, None, first)
        }
    }

    /// What follows the word `entity`.
    #[tactic(auto, unfolding(crate::specs::Reading::instance))]
    pub(crate) fn instance(&self, tokens: &mut Tokens<'_>) -> Result<ConcurrentBody, Stop>
        ensures { Reads (spec.instance self.now.bound tokens.old) result tokens.new }
    {
        let first = tokens.token(Kind::Identifier)?;
        self.instance_after(tokens, first)
    }
}
