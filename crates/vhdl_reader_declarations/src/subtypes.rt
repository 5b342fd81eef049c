//! Subtype indications (6.3).

ghost use Rattle.std.specs.Prelude.{◌≡◌};
ghost use Rattle.vhdl_reader_expressions.specs.Steps.{Reads};
ghost use Rattle.vhdl_reader_declarations.specs.Reading as spec;

use crate::declarations::Declarations;
use vhdl_reader_expressions::{Stop, Tokens};
use vhdl_tokens::{Delimiter, Kind, Reserved, Token};
use vhdl_tree::{Constraint, Subtype};

impl Declarations {
    /// What follows the word `range`.
    #[tactic(auto, unfolding(crate::specs::Reading::range_constraint))]
    fn range_constraint(&self, tokens: &mut Tokens<'_>, mark: Token) -> Result<Subtype, Stop>
        ensures { Reads (spec.range_constraint self.now.bound mark tokens.old) result tokens.new }
    {
        let bounds = self.bounds(tokens)?;
        Ok(Subtype {
            mark,
            constraint: Some(Constraint::Range(bounds)),
        })
    }

    /// What follows the bracket behind a type.
    #[tactic(auto, unfolding(crate::specs::Reading::index_constraint))]
    fn index_constraint(&self, tokens: &mut Tokens<'_>, mark: Token) -> Result<Subtype, Stop>
        ensures { Reads (spec.index_constraint self.now.bound mark tokens.old) result tokens.new }
    {
        let bounds = self.bounds(tokens)?;
        tokens.word(Kind::Delimiter(Delimiter::RightParen))?;
        Ok(Subtype {
            mark,
            constraint: Some(Constraint::Index(bounds)),
        })
    }

    /// A subtype of this type.
    #[tactic(auto, unfolding(crate::specs::Reading::subtype_after))]
    fn subtype_after(&self, tokens: &mut Tokens<'_>, mark: Token) -> Result<Subtype, Stop>
        ensures { Reads (spec.subtype_after self.now.bound mark tokens.old) result tokens.new }
    {
        if tokens.eat(Kind::Word(Reserved::Range)) {
            self.range_constraint(tokens, mark)
        } else if tokens.eat(Kind::Delimiter(Delimiter::LeftParen)) {
            self.index_constraint(tokens, mark)
        } else {
            Ok(Subtype {
                mark,
                constraint: None,
            })
        }
    }

    /// A subtype indication (6.3).
    #[tactic(auto, unfolding(crate::specs::Reading::subtype))]
    pub fn subtype(&self, tokens: &mut Tokens<'_>) -> Result<Subtype, Stop>
        ensures { Reads (spec.subtype self.now.bound tokens.old) result tokens.new }
    {
        let mark = tokens.token(Kind::Identifier)?;
        self.subtype_after(tokens, mark)
    }

    /// A colon and a subtype.
    #[tactic(auto, unfolding(crate::specs::Reading::typed))]
    pub(crate) fn typed(&self, tokens: &mut Tokens<'_>) -> Result<Subtype, Stop>
        ensures { Reads (spec.typed self.now.bound tokens.old) result tokens.new }
    {
        tokens.word(Kind::Delimiter(Delimiter::Colon))?;
        self.subtype(tokens)
    }
}
