//! Elements, kept as places in one buffer.
ghost use Rattle.std.specs.Prelude.{◌≡◌, ◌≤◌, false, [], ◌∷◌, ◌++◌, length, vec_capacity, map, OnOk, OnErr, IfOk, IsTrue, ◌↔◌, MatchOption, MatchResult, Some, slice_set, slice_get, slice_range, insert, drop, ◌<◌, ◌+◌, ◌^◌, if◌then◌else◌};
ghost use Rattle.iso_message.specs.Finding.{find_element, put, without};
ghost use Rattle.iso_message.specs.Made.{kept};
ghost use Rattle.iso_message.specs.Carried.{carried_numbers};
ghost use Rattle.iso_message.specs.Spelling.{Ascends, IsGood, AreGood, is_binary, bits, low_numbers, high_numbers, pieces};
ghost use Rattle.message_elements.specs.Table.{form_of};
ghost use Rattle.iso_message.specs.Spans.{text_of, span_at, start_of, end_of, seen, IsWithin, AreWithin, IsLonger, placed, numbers, IsInRun, moved, moved_place, IsCopied};
ghost use Rattle.iso_message.specs.declared.elements.Span.{Span};

mod element_iter;
mod parts;

use crate::carried::Carried;
use crate::writing::{is_binary, push_length, push_piece};
pub use element_iter::ElementIter;
pub(crate) use parts::Parts;
use std::alloc::{AllocError, Global};
use std::marker::Model;
use std::mem;

/// Where an element stands in the buffer: its piece as it is spelled, or the eight bytes of a binary element.
#[derive(Clone, Copy, Debug)]
pub(crate) struct Span {
    /// The lower half of the offset of its piece. In halves, a span takes 12 bytes and not 16.
    low: u32,
    /// The upper half.
    high: u32,
    /// The number of its bytes, which end its piece.
    len: u16,
    /// How many digits of its length stand before its bytes.
    digits: u8,
    number: u8,
}

impl Span {
    /// The span of an element whose piece begins at an offset.
    #[inline(always)]
    fn at(number: u8, text: usize, digits: usize, len: usize) -> Span
        requires digits { digits < 4 }
        requires len { len < 1_000 }
        ensures { result ≡ span_at number text digits len }
    {
        Span {
            low: (text % (1 << 32)) as u32,
            high: (text >> 32) as u32,
            len: len as u16,
            digits: digits as u8,
            number,
        }
    }

    /// Where its piece begins.
    #[inline(always)]
    fn text(self) -> usize
        ensures { result ≡ text_of self }
    {
        ((self.high as usize) << 32) + self.low as usize
    }

    /// Where its bytes begin.
    #[inline(always)]
    fn start(self) -> usize
        requires { end_of self < 2 ^ 64 }
        ensures { result ≡ start_of self }
    {
        self.text() + self.digits as usize
    }

    /// Where its bytes end.
    #[inline(always)]
    fn end(self) -> usize
        requires { end_of self < 2 ^ 64 }
        ensures { result ≡ end_of self }
    {
        self.start() + self.len as usize
    }
}

/// Adds an element's piece behind the bytes of a buffer, of a binary element its bytes alone.
#[inline(always)]
fn append(values: &mut Vec<u8>, number: u8, content: &[u8]) -> Result<Span, AllocError>
    requires good { IsGood (form_of number) content.now }
    ensures number { IfOk result (λ s. s.number ≡ number) }
    ensures shows { IfOk result (λ s. slice_range values.new.items (start_of s) (end_of s) ≡ content.now) }
    ensures within { IfOk result (IsWithin values.new.items) }
    ensures more { IsLonger values.old.items values.new.items }
{
    let text = values.len();
    push_length(values, number, content.len())?;
    let digits = values.len() - text;
    values.extend_from_slice(content)?;
    Ok(Span::at(number, text, digits, content.len()))
}

/// The bytes of a buffer that is copied whole sooner than piece by piece.
const SMALL: usize = 512;

/// Numbers and their bytes, in the order of adding.
#[derive(Debug, Drop)]
pub(crate) struct Elements {
    spans: Vec<Span>,
    values: Vec<u8>,
}

impl Model for Elements {
    ghost use Rattle.std.specs.Prelude.{ℕ, List};
    ghost use Rattle.std.specs.Coded.{coded_ℕ, coded×, coded_list};
    ghost use Rattle.iso_message.specs.Spans.{seen, AreWithin};

    ghost Value = { List (ℕ × List ℕ) };

    ghost coded = { coded_list (coded× coded_ℕ (coded_list coded_ℕ)) };

    ghost view = { λ a. seen a.values.items a.spans.items };

    ghost invariant = { λ a. AreWithin a.values.items a.spans.items };
}

impl Elements {
    pub(crate) fn new(alloc: Global) -> Elements
        ensures { result ≡ [] }
    {
        let spans = Vec::new(alloc);
        let values = Vec::new(alloc);
        Elements { spans, values }
    }

    pub(crate) fn with_capacity(
        alloc: Global,
        count: usize,
        len: usize,
    ) -> Result<Elements, AllocError>
        ensures { IfOk result (λ es. es ≡ []) }
    {
        let spans = Vec::with_capacity(alloc, count)?;
        let values = Vec::with_capacity(alloc, len)?;
        Ok(Elements { spans, values })
    }

    /// The bytes of a number, the first where there are several.
    pub(crate) fn get(&self, number: u8) -> Option<&[u8]>
        ensures { MatchOption result (find_element number self.now ≡ None) (λ v. find_element number self.now ≡ Some v.now) }
    {
        value_of(&self.spans, &self.values, number)
    }

    pub(crate) fn len(&self) -> usize
        ensures { result ≡ length self.now }
    {
        self.spans.len()
    }

    /// The elements in order.
    #[inline(always)]
    pub(crate) fn iter(&self) -> ElementIter<'_>
        ensures { result ≡ self.now }
    {
        ElementIter {
            spans: &self.spans,
            values: &self.values,
        }
    }

    /// Adds the element in its place, instead of one of its number.
    #[inline(always)]
    pub(crate) fn put(&mut self, number: u8, content: &[u8]) -> Result<(), AllocError>
        requires good { IsGood (form_of number) content.now }
        ensures ok { OnOk result (self.new ≡ put number content.now self.old) }
        ensures err { OnErr result (self.new ≡ self.old) }
    {
        let span = append(&mut self.values, number, content)?;
        match search(&self.spans, number) {
            Ok(place) => self.spans[place] = span,
            Err(place) => self.spans.insert(place, span)?,
        }
        Ok(())
    }

    /// The maps of the numbers up to 64 and above.
    pub(crate) fn maps(&self) -> (u64, u64)
        requires { Ascends 1 128 (map (λ e. e.0) self.now) }
        ensures low { result.0 ≡ bits 64 (low_numbers (map (λ e. e.0) self.now)) }
        ensures high { result.1 ≡ bits 128 (high_numbers (map (λ e. e.0) self.now)) }
    {
        maps_of(&self.spans)
    }

    /// Writes the pieces in order.
    pub(crate) fn push_to(&self, out: &mut Vec<u8>) -> Result<(), AllocError>
        requires { AreGood self.now }
        ensures { OnOk result (out.new.items ≡ out.old.items ++ pieces self.now) }
    {
        push_pieces(out, &self.spans, &self.values)
    }

    /// Takes the elements of a number out. Their bytes stay in the buffer, and are shown no more.
    pub(crate) fn remove(&mut self, number: u8)
        ensures { self.new ≡ without number self.old }
    {
        self.spans.retain(|span| span.number != number);
    }

    /// Takes over a copy of those of other elements that are carried on, with room for a few more. A small buffer is copied whole; of
    /// a large one only what they need, and what touches in it together.
    #[inline(always)]
    pub(crate) fn keep(&mut self, other: &Elements, carried: Carried) -> Result<(), AllocError>
        ensures ok { OnOk result (self.new ≡ kept (carried_numbers carried) other.now) }
        ensures err { OnErr result (self.new ≡ self.old) }
    {
        let alloc = other.allocator();
        let count = other.spans.len().saturating_add(carried.more_elements());
        let mut spans = Vec::with_capacity(alloc, count)?;
        let room = other.values.len().saturating_add(carried.more_bytes());
        let mut values = Vec::with_capacity(alloc, room)?;
        if other.values.len() <= SMALL {
            values.extend_from_slice(&other.values)?;
            keep_spans(&other.spans, &other.values, carried, &mut spans);
        } else {
            copy_kept(
                &other.spans,
                &other.values,
                carried,
                &mut spans,
                &mut values,
            )?;
        }
        self.spans = spans;
        self.values = values;
        Ok(())
    }

    /// Takes the elements out, and leaves none.
    pub(crate) fn take(&mut self) -> Elements
        ensures taken { result ≡ self.old }
        ensures none { self.new ≡ [] }
    {
        let none = Elements::new(self.allocator());
        mem::replace(self, none)
    }

    pub(crate) fn allocator(&self) -> Global {
        *self.values.allocator()
    }

    /// At least as many bytes as the pieces take.
    pub(crate) fn room(&self) -> usize {
        let lengths = self.spans.len().saturating_mul(3);
        lengths.saturating_add(self.values.len())
    }

    pub(crate) fn copy(&self) -> Result<Elements, AllocError>
        ensures { IfOk result (λ es. es ≡ self.now) }
    {
        let alloc = self.allocator();
        let spans = Vec::from_slice(alloc, &self.spans)?;
        let values = Vec::from_slice(alloc, &self.values)?;
        Ok(Elements { spans, values })
    }
}

/// Where a span of the number stands, or where one is to be added.
fn search(spans: &[Span], number: u8) -> Result<usize, usize>
    ensures bound { MatchResult result (λ i. i < length spans.now) (λ i. i ≤ length spans.now) }
    ensures place { (s : Span) → s.number ≡ number → MatchResult result
        (λ i. slice_set spans.now i s ≡ placed s spans.now)
        (λ i. insert spans.now i s ≡ placed s spans.now) }
{
    for place in 0..spans.len() {
        let found = spans[place].number;
        if found == number {
            return Ok(place);
        }
        if number < found {
            return Err(place);
        }
    }
    Err(spans.len())
}

/// The bytes of the first span of a number.
fn value_of<'a>(spans: &[Span], values: &'a [u8], number: u8) -> Option<&'a [u8]>
    requires { AreWithin values.now spans.now }
    ensures { let found = find_element number (seen values.now spans.now) in MatchOption result (found ≡ None) (λ v. found ≡ Some v.now) }
{
    for span in spans {
        if span.number == number {
            return Some(&values[span.start()..span.end()]);
        }
    }
    None
}

/// Adds the spans of the elements that are carried on to none, where there is room for all.
#[inline(always)]
fn keep_spans(spans: &[Span], values: &[u8], carried: Carried, kept_spans: &mut Vec<Span>)
    requires within { AreWithin values.now spans.now }
    requires none { kept_spans.old.items ≡ [] }
    requires room { length spans.now ≤ vec_capacity kept_spans.old }
    ensures within { AreWithin values.now kept_spans.new.items }
    ensures kept { seen values.now kept_spans.new.items ≡ kept (carried_numbers carried) (seen values.now spans.now) }
{
    for span in spans {
        if carried.has(span.number) {
            kept_spans.push_reserved(*span);
        }
    }
}

/// A part of a buffer, and where its copy stands in another.
#[derive(Clone, Copy, Debug)]
struct Run {
    from: usize,
    to: usize,
    copy: usize,
}

impl Run {
    /// Whether an element stands in the part.
    fn has(self, span: Span) -> bool
        requires { end_of span < 2 ^ 64 }
        ensures { IsTrue result ↔ IsInRun self span }
    {
        self.from <= span.text() && span.end() <= self.to
    }

    /// The span of the same element in the copy.
    fn moved(self, span: Span) -> Span
        requires inside { IsInRun self span }
        requires there { moved_place self self.to < 2 ^ 64 }
        ensures { result ≡ moved self span }
    {
        let text = self.copy + (span.text() - self.from);
        Span {
            low: (text % (1 << 32)) as u32,
            high: (text >> 32) as u32,
            ..span
        }
    }
}

/// Where the elements that are carried on end that stand one behind the other, of which this is the first.
fn run_end(spans: &[Span], values: &[u8], carried: Carried, place: usize, first: Span) -> usize
    requires within { AreWithin values.now spans.now }
    requires at { slice_get spans.now place ≡ Some first }
    ensures end { end_of first ≤ result }
    ensures inside { result ≤ length values.now }
{
    let mut end = first.end();
    for i in place + 1..spans.len() {
        let next = spans[i];
        if next.text() != end || !carried.has(next.number) {
            return end;
        }
        end = next.end();
    }
    end
}

/// Copies the part of a buffer that begins with an element and goes as far as those that are carried on touch.
fn copy_run(
    spans: &[Span],
    values: &[u8],
    carried: Carried,
    place: usize,
    first: Span,
    copies: &mut Vec<u8>,
) -> Result<Run, AllocError>
    requires within { AreWithin values.now spans.now }
    requires at { slice_get spans.now place ≡ Some first }
    ensures copied { IfOk result (IsCopied values.now copies.new.items) }
    ensures has { IfOk result (λ run. IsInRun run first) }
    ensures more { OnOk result (IsLonger copies.old.items copies.new.items) }
{
    let from = first.text();
    let to = run_end(spans, values, carried, place, first);
    let copy = copies.len();
    copies.extend_from_slice(&values[from..to])?;
    Ok(Run { from, to, copy })
}

/// A copied part that has the element: this one, or a new one.
fn run_with(
    run: Run,
    spans: &[Span],
    values: &[u8],
    carried: Carried,
    place: usize,
    span: Span,
    copies: &mut Vec<u8>,
) -> Result<Run, AllocError>
    requires within { AreWithin values.now spans.now }
    requires at { slice_get spans.now place ≡ Some span }
    requires copied { IsCopied values.now copies.old.items run }
    ensures copied { IfOk result (IsCopied values.now copies.new.items) }
    ensures has { IfOk result (λ r. IsInRun r span) }
    ensures more { OnOk result (IsLonger copies.old.items copies.new.items) }
{
    if run.has(span) {
        return Ok(run);
    }
    copy_run(spans, values, carried, place, span, copies)
}

/// Adds the elements that are carried on to a buffer that has none.
fn copy_kept(
    spans: &[Span],
    values: &[u8],
    carried: Carried,
    kept_spans: &mut Vec<Span>,
    copies: &mut Vec<u8>,
) -> Result<(), AllocError>
    requires within { AreWithin values.now spans.now }
    requires none { kept_spans.old.items ≡ [] }
    ensures within { OnOk result (AreWithin copies.new.items kept_spans.new.items) }
    ensures kept { OnOk result (seen copies.new.items kept_spans.new.items ≡ kept (carried_numbers carried) (seen values.now spans.now)) }
{
    let mut run = Run {
        from: 0,
        to: 0,
        copy: 0,
    };
    for place in 0..spans.len() {
        let span = spans[place];
        if carried.has(span.number) {
            let found = run_with(run, spans, values, carried, place, span, copies)?;
            kept_spans.push(found.moved(span))?;
            run = found;
        }
    }
    Ok(())
}

/// The maps of the numbers up to 64 and above.
#[tactic(auto, using(crate::proofs::Maps::low_fits, crate::proofs::Maps::high_fits))]
pub(crate) fn maps_of(spans: &[Span]) -> (u64, u64)
    requires { Ascends 1 128 (numbers spans.now) }
    ensures low { result.0 ≡ bits 64 (low_numbers (numbers spans.now)) }
    ensures high { result.1 ≡ bits 128 (high_numbers (numbers spans.now)) }
{
    let mut low: u64 = 0;
    let mut high: u64 = 0;
    for span in spans {
        if span.number <= 64 {
            low += 1 << (64 - span.number);
        } else {
            high += 1 << (128 - span.number);
        }
    }
    (low, high)
}

/// The pieces that stand in the buffer one behind the other from a place on: the place behind them, and where they end.
#[inline(always)]
fn touching(spans: &[Span], values: &[u8], place: usize, first: Span) -> (usize, usize)
    requires within { AreWithin values.now spans.now }
    requires at { slice_get spans.now place ≡ Some first }
    requires spelled { is_binary (form_of first.number) ≡ false }
    ensures further { place < result.0 }
    ensures bound { result.0 ≤ length spans.now }
    ensures order { text_of first ≤ result.1 }
    ensures inside { result.1 ≤ length values.now }
    ensures pieces { slice_range values.now (text_of first) result.1 ++ pieces (seen values.now (drop result.0 spans.now)) ≡ pieces (seen values.now (drop place spans.now)) }
{
    let mut end = first.end();
    let mut next = place + 1;
    while next < spans.len() {
        let span = spans[next];
        if span.text() != end || is_binary(span.number) {
            return (next, end);
        }
        end = span.end();
        next += 1;
    }
    (next, end)
}

/// Writes the pieces from a place on that can be written together, and returns the place behind them.
#[inline(always)]
fn push_next(
    out: &mut Vec<u8>,
    spans: &[Span],
    values: &[u8],
    place: usize,
) -> Result<usize, AllocError>
    requires within { AreWithin values.now spans.now }
    requires good { AreGood (seen values.now spans.now) }
    requires at { place < length spans.now }
    ensures further { IfOk result (λ next. place < next) }
    ensures bound { IfOk result (λ next. next ≤ length spans.now) }
    ensures pieces { IfOk result (λ next. out.new.items ++ pieces (seen values.now (drop next spans.now)) ≡ out.old.items ++ pieces (seen values.now (drop place spans.now))) }
{
    let first = spans[place];
    if is_binary(first.number) {
        push_piece(out, first.number, &values[first.start()..first.end()])?;
        return Ok(place + 1);
    }
    let (next, end) = touching(spans, values, place, first);
    out.extend_from_slice(&values[first.text()..end])?;
    Ok(next)
}

/// Writes the pieces of the spans' values. Those that stand in the buffer one behind the other are written together.
fn push_pieces(out: &mut Vec<u8>, spans: &[Span], values: &[u8]) -> Result<(), AllocError>
    requires within { AreWithin values.now spans.now }
    requires good { AreGood (seen values.now spans.now) }
    ensures { OnOk result (out.new.items ≡ out.old.items ++ pieces (seen values.now spans.now)) }
{
    let mut place = 0;
    while place < spans.len() {
        place = push_next(out, spans, values, place)?;
    }
    Ok(())
}
