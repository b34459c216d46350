//! A request, open or answered.
ghost use Rattle.std.specs.Prelude.{◌≡◌, true, false, None, is_none};
ghost use Rattle.std.specs.Option.{option_copied};
ghost use Rattle.message_keys.specs.Keys.{key_eq, key_of};
ghost use Rattle.node_machine.specs.Lists.{row_after};
ghost use Rattle.kept_messages.specs.Ways.{output_key, output_of};
ghost use Rattle.pending_book.specs.Rows.{source_of, card_in, IsKeyOf, IsAnswerOf};

use card_digits::{Card, Key, LinkNo};
use kept_messages::{KeptMessage, PreparedOutput, Way};
use message_elements::response_codes;
use std::marker::Model;

/// A request with its key. A source is the link that it came by, or none of the gate.
#[derive(Drop)]
pub struct Row {
    // Fields lie in this order, so the small ones stand together.
    message: KeptMessage,
    answer: Option<KeptMessage>,
    count: u64,
    key: Key,
    card: Option<Card>,
    source: Option<LinkNo>,
    link: Option<LinkNo>,
    asked: bool,
}

impl Model for Row {
    ghost use Rattle.std.specs.Prelude.{◌≡◌};
    ghost use Rattle.node_machine.specs.Lists.{Row};
    ghost use Rattle.pending_book.specs.Rows.{source_of, card_in, IsKeyOf, IsAnswerOf};

    ghost Value = { Row };

    ghost view = { λ r. record { message = r.message; source = source_of r.source; count = r.count; link = r.link; asked = r.asked; answer = r.answer } };

    ghost invariant = { λ r. (IsKeyOf r.key r.message) × IsAnswerOf r.key r.answer × (r.card ≡ card_in r.message) };
}

impl Row {
    ghost use Rattle.node_machine.specs.Lists.{row_key};

    /// A request that was just opened.
    pub fn new(
        key: Key,
        card: Option<Card>,
        message: KeptMessage,
        source: Option<LinkNo>,
        count: u64,
    ) -> Row
        requires key { IsKeyOf key message }
        requires card { card ≡ card_in message }
        ensures { result ≡ record { message = message; source = source_of source; count = count; link = None; asked = false; answer = None } }
    {
        Row {
            key,
            card,
            message,
            source,
            count,
            link: None,
            asked: false,
            answer: None,
        }
    }

    /// The key of the request.
    pub fn key(&self) -> Key
        ensures key { result ≡ row_key self.now }
        ensures own { IsKeyOf result self.now.message }
    {
        self.key
    }

    /// Its card, where element 2 is one.
    pub fn card(&self) -> Option<Card>
        ensures { result ≡ card_in self.now.message }
    {
        self.card
    }

    /// The request, as it came.
    pub fn message(&self) -> &KeptMessage
        ensures { result.now ≡ self.now.message }
    {
        &self.message
    }

    /// The link by which the request came, none where an acquirer entered it at the gate.
    pub fn source(&self) -> Option<LinkNo>
        ensures { source_of result ≡ self.now.source }
    {
        self.source
    }

    /// The number of ticks when the request came.
    pub fn count(&self) -> u64
        ensures { result ≡ self.now.count }
    {
        self.count
    }

    /// The link on which the request was put first, none where it was put on none.
    pub fn link(&self) -> Option<LinkNo>
        ensures { result ≡ self.now.link }
    {
        self.link
    }

    /// Whether the host was asked.
    pub fn asked(&self) -> bool
        ensures { result ≡ self.now.asked }
    {
        self.asked
    }

    /// What the request was answered with, an answer of the same key.
    pub fn answer(&self) -> Option<&KeptMessage>
        ensures answer { option_copied result ≡ self.now.answer }
        ensures own { IsAnswerOf (row_key self.now) self.now.answer }
    {
        self.answer.as_ref()
    }

    /// Whether the request has no answer yet.
    pub fn is_open(&self) -> bool
        ensures { result ≡ is_none self.now.answer }
    {
        self.answer.is_none()
    }

    /// What an output of the row's own key does to it.
    pub fn after(&mut self, output: PreparedOutput)
        requires { key_eq (output_key output) (row_key self.old) ≡ true }
        ensures { self.new ≡ row_after output self.old }
    {
        let way = output.way();
        self.after_message(way, output.into_message());
    }

    /// The same of the output's message, which goes this way.
    fn after_message(&mut self, way: Way, message: KeptMessage)
        requires { key_eq (key_of message) (row_key self.old) ≡ true }
        ensures { self.new ≡ row_after (output_of way message) self.old }
    {
        match way {
            Way::Put(link, _) => {
                if message.kind().is_request() {
                    if self.link.is_none() {
                        self.link = Some(link);
                    }
                } else if self.answer.is_none()
                    && message.kind().is_answer()
                    && !message.has_code(&response_codes::DUPLICATE_TRANSMISSION)
                {
                    self.answer = Some(message);
                }
            }
            Way::Answer => {
                if self.answer.is_none()
                    && message.kind().is_answer()
                    && !message.has_code(&response_codes::DUPLICATE_TRANSMISSION)
                {
                    self.answer = Some(message);
                }
            }
            Way::Ask(_) => self.asked = true,
            Way::Post => {}
        }
    }
}
