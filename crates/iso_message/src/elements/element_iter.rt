//! The elements of a message, one after the other.
use super::Span;
use std::marker::Model;

/// Numbers and bytes of elements in ascending order of number, seen as the list of those that are left.
#[derive(Debug, Drop)]
pub struct ElementIter<'a> {
    pub(super) spans: &'a [Span],
    pub(super) values: &'a [u8],
}

impl<'a> Model for ElementIter<'a> {
    ghost use Rattle.std.specs.Prelude.{ℕ, List};
    ghost use Rattle.iso_message.specs.Spans.{seen, AreWithin};

    ghost Value = { List (ℕ × List ℕ) };

    ghost view = { λ it. seen it.values.now it.spans.now };

    ghost invariant = { λ it. AreWithin it.values.now it.spans.now };
}

impl<'a> Iterator for ElementIter<'a> {
    ghost use Rattle.std.specs.Iterator.{YieldsFirstBy, item_count};

    type Item = (u8, &'a [u8]);

    ghost next_gives = { YieldsFirstBy (λ item. (item.0, item.1.now)) (λ rest. rest) };

    ghost remaining = { item_count (λ rest. rest) };

    #[inline(always)]
    fn next(&mut self) -> Option<(u8, &'a [u8])> {
        let (span, rest) = self.spans.split_first()?;
        self.spans = rest;
        Some((span.number, &self.values[span.start()..span.end()]))
    }
}
