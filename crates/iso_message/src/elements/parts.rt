//! Elements as they are read.
ghost use Rattle.std.specs.Prelude.{◌≡◌, true, [], ◌∷◌, ◌++◌, OnOk, IfOk};
ghost use Rattle.message_elements.specs.Table.{form_of};
ghost use Rattle.iso_message.specs.Spelling.{is_binary};
ghost use Rattle.iso_message.specs.Parts.{IsEnd, IsPart};

use super::{Elements, Span};
use std::alloc::AllocError;
use std::marker::Model;

/// For how many elements and bytes more room is made: a settlement date, and the id of the node that forwards.
const MORE_ELEMENTS: usize = 2;

const MORE_BYTES: usize = 4 + 2 + 11;

/// Elements of a body: places in a copy of it, behind which the bytes of binary elements stand.
#[derive(Debug, Drop)]
pub(crate) struct Parts {
    spans: Vec<Span>,
    values: Vec<u8>,
    size: usize,
}

impl Model for Parts {
    ghost use Rattle.std.specs.Prelude.{◌≤◌, length, take};
    ghost use Rattle.iso_message.specs.Spans.{seen, AreWithin};
    ghost use Rattle.iso_message.specs.Parts.{Body};

    ghost Value = { Body };

    ghost view = { λ a. record { body = take a.size a.values.items; elements = seen a.values.items a.spans.items } };

    ghost invariant = { λ a. (a.size ≤ length a.values.items) × AreWithin a.values.items a.spans.items };
}

impl Parts {
    /// No elements yet of a body, in the memory of older elements, with room for so many, of which some are binary.
    pub(crate) fn of(
        old: Elements,
        count: usize,
        binary: usize,
        body: &[u8],
    ) -> Result<Parts, AllocError>
        ensures { IfOk result (λ p. p ≡ record { body = body.now; elements = [] }) }
    {
        let Elements {
            mut spans,
            mut values,
        } = old;
        spans.clear();
        values.clear();
        spans.reserve(count.saturating_add(MORE_ELEMENTS))?;
        let bytes = body.len().saturating_add(binary.saturating_mul(8));
        values.reserve(bytes.saturating_add(MORE_BYTES))?;
        values.extend_from_slice(body)?;
        let size = body.len();
        Ok(Parts {
            spans,
            values,
            size,
        })
    }

    /// Adds the element whose content stands in the body behind its length and before the rest.
    #[inline(always)]
    pub(crate) fn add(
        &mut self,
        number: u8,
        bytes: &[u8],
        content: &[u8],
        rest: &[u8],
    ) -> Result<(), AllocError>
        requires end { IsEnd bytes.now self.old.body }
        requires part { IsPart number bytes.now content.now rest.now }
        ensures { OnOk result (self.new ≡ record { body = self.old.body; elements = self.old.elements ++ (number, content.now) ∷ [] }) }
    {
        let text = self.size - bytes.len();
        let digits = bytes.len() - rest.len() - content.len();
        let span = Span::at(number, text, digits, content.len());
        self.spans.push(span)?;
        Ok(())
    }

    /// Adds an element whose bytes don't stand in the body.
    pub(crate) fn add_binary(&mut self, number: u8, value: &[u8; 8]) -> Result<(), AllocError>
        requires { is_binary (form_of number) ≡ true }
        ensures { OnOk result (self.new ≡ record { body = self.old.body; elements = self.old.elements ++ (number, value.now) ∷ [] }) }
    {
        let span = Span::at(number, self.values.len(), 0, value.len());
        self.values.extend_from_slice(value)?;
        self.spans.push(span)?;
        Ok(())
    }

    pub(crate) fn into_elements(self) -> Elements
        ensures { result ≡ self.elements }
    {
        let Parts {
            spans,
            values,
            size: _,
        } = self;
        Elements { spans, values }
    }
}
