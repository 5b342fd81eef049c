//! Concurrent statements (11.1).

ghost use Rattle.std.specs.Prelude.{◌≡◌};
ghost use Rattle.vhdl_reader_expressions.specs.Steps.{Reads};
ghost use Rattle.vhdl_reader.specs.Reading as spec;

use crate::tables::{begins_concurrent, is_identifier};
use crate::units::Units;
use sqlite_items::Items;
use vhdl_reader_expressions::{Stop, Tokens};
use vhdl_tokens::{Delimiter, Kind, Reserved, Token};
use vhdl_tree::{Concurrent, ConcurrentBody};

impl Units {
    /// A process or an assignment.
    #[tactic(auto, unfolding(crate::specs::Reading::process_or_assignment))]
    fn process_or_assignment(
        &self,
        tokens: &mut Tokens<'_>,
        postponed: bool,
    ) -> Result<ConcurrentBody, Stop>
        ensures { Reads (spec.process_or_assignment self.now.bound postponed tokens.old) result tokens.new }
    {
        if tokens.eat(Kind::Word(Reserved::Process)) {
            self.process(tokens, postponed)
        } else {
            self.assignment(tokens, postponed)
        }
    }

    /// The same, postponed or not.
    #[tactic(auto, unfolding(crate::specs::Reading::body))]
    fn body(&self, tokens: &mut Tokens<'_>) -> Result<ConcurrentBody, Stop>
        ensures { Reads (spec.body self.now.bound tokens.old) result tokens.new }
    {
        if tokens.eat(Kind::Word(Reserved::Postponed)) {
            self.process_or_assignment(tokens, true)
        } else {
            self.process_or_assignment(tokens, false)
        }
    }

    /// What may follow a label.
    #[tactic(auto, unfolding(crate::specs::Reading::labelled))]
    fn labelled(&self, tokens: &mut Tokens<'_>) -> Result<ConcurrentBody, Stop>
        ensures { Reads (spec.labelled self.now.bound tokens.old) result tokens.new }
    {
        if tokens.eat(Kind::Word(Reserved::Entity)) {
            self.instance(tokens)
        } else {
            self.body(tokens)
        }
    }

    /// A statement whose first token is this identifier: its label, or where its target begins.
    #[tactic(auto, unfolding(crate::specs::Reading::named_after))]
    fn named_after(
        &self,
        tokens: &mut Tokens<'_>,
        line: u32,
        identifier: Token,
    ) -> Result<Concurrent, Stop>
        ensures { Reads (spec.named_after self.now.bound line identifier tokens.old) result tokens.new }
    {
        if tokens.eat(Kind::Delimiter(Delimiter::Colon)) {
            let body = self.labelled(tokens)?;
            Ok(Concurrent {
                line,
                label: Some(identifier),
                body,
            })
        } else {
            let body = self.assignment_from(tokens, false, identifier)?;
            Ok(Concurrent {
                line,
                label: None,
                body,
            })
        }
    }

    /// A statement that begins with an identifier.
    #[tactic(auto, unfolding(crate::specs::Reading::named))]
    fn named(&self, tokens: &mut Tokens<'_>, line: u32) -> Result<Concurrent, Stop>
        ensures { Reads (spec.named self.now.bound line tokens.old) result tokens.new }
    {
        let identifier = tokens.token(Kind::Identifier)?;
        self.named_after(tokens, line, identifier)
    }

    /// A statement that begins with a word.
    #[tactic(auto, unfolding(crate::specs::Reading::unlabelled))]
    fn unlabelled(&self, tokens: &mut Tokens<'_>, line: u32) -> Result<Concurrent, Stop>
        ensures { Reads (spec.unlabelled self.now.bound line tokens.old) result tokens.new }
    {
        let body = self.body(tokens)?;
        Ok(Concurrent {
            line,
            label: None,
            body,
        })
    }

    /// A concurrent statement.
    #[tactic(auto, unfolding(crate::specs::Reading::concurrent))]
    fn concurrent(&self, tokens: &mut Tokens<'_>) -> Result<Concurrent, Stop>
        ensures { Reads (spec.concurrent self.now.bound tokens.old) result tokens.new }
    {
        let line = tokens.line();
        if is_identifier(tokens.kind()) {
            self.named(tokens, line)
        } else {
            self.unlabelled(tokens, line)
        }
    }

    /// Further concurrent statements behind these.
    pub(crate) fn concurrents(
        &self,
        tokens: &mut Tokens<'_>,
        mut found: Items<Concurrent>,
    ) -> Result<Items<Concurrent>, Stop>
        ensures { Reads (spec.concurrents self.now.bound found tokens.old) result tokens.new }
    {
        'turns: for _turn in 0..self.bound {
            if !begins_concurrent(tokens.kind()) {
                return Ok(found);
            }
            let statement = self.concurrent(tokens)?;
            found.push(statement)?;
        }
        Err(Stop::Bound)
    }
}
