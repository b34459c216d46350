//! The parts of an input.
ghost use Rattle.std.specs.Prelude.{◌≡◌, ◌==◌, ◌≤◌, ◌-◌, ◌∷◌, [], false, length, drop, take, map, All, IfOk, MatchOption};
ghost use Rattle.std.specs.Cow.{cow_slice_items};
ghost use Rattle.bundle_text.specs.Parts.{separates, without_return, between_feeds, lines_of, parts_of_text};
ghost use Rattle.bundle_text.specs.Cutting.{EndsLine, IsFromSign, IsFirstLine, IsFirstPart};

use card_digits::cut;
use memchr::{memchr, memrchr};
use std::alloc::{AllocError, Global};
use std::borrow::CowSlice;

fn without_return(line: &[u8]) -> &[u8]
    ensures { result.now ≡ without_return line.now }
{
    match line.last() {
        Some(b'\r') => &line[..line.len() - 1],
        _ => line,
    }
}

fn copy_without_returns(alloc: Global, input: &[u8]) -> Result<Vec<u8>, AllocError>
    ensures { IfOk result (λ text. between_feeds text.items ≡ lines_of input.now) }
{
    let mut text = Vec::with_capacity(alloc, input.len())?;
    let mut rest = input;
    while let Some((line, behind)) = cut(rest, b'\n') {
        text.extend_from_slice(without_return(line))?;
        text.push(b'\n')?;
        rest = behind;
    }
    text.extend_from_slice(rest)?;
    Ok(text)
}

/// The input without the carriage return before each line feed. Only an input with carriage returns is copied.
#[tactic(auto, using(crate::proofs::Trimming::no_returns))]
pub fn without_carriage_returns(alloc: Global, input: &[u8]) -> Result<CowSlice<'_, u8>, AllocError>
    ensures { IfOk result (λ text. between_feeds (cow_slice_items text) ≡ lines_of input.now) }
{
    if memchr(b'\r', input).is_none() {
        return Ok(CowSlice::Borrowed(input));
    }
    Ok(CowSlice::Owned(copy_without_returns(alloc, input)?))
}

fn is_separator(line: &[u8]) -> bool
    ensures { result ≡ separates line.now }
{
    line == b"%%".as_slice()
}

/// The first line, and what stands behind its line feed: nothing where it has none.
fn first_line(text: &[u8]) -> (&[u8], &[u8])
    ensures { IsFirstLine text.now result.0.now result.1.now }
{
    match cut(text, b'\n') {
        Some(found) => found,
        None => (text, &[]),
    }
}

/// Where the last line begins.
fn last_line_start(text: &[u8]) -> usize
    ensures within { result ≤ length text.now }
    ensures ends { EndsLine (take result text.now) }
    ensures last { All (λ b. (b == 10) ≡ false) (drop result text.now) }
{
    match memrchr(b'\n', text) {
        Some(i) => i + 1,
        None => 0,
    }
}

/// What is left from the first line with a per cent sign on.
fn from_sign(text: &[u8]) -> Option<&[u8]>
    ensures { MatchOption result (All (λ b. (b == 37) ≡ false) text.now) (λ rest. IsFromSign text.now rest.now) }
{
    let sign = memchr(b'%', text)?;
    Some(&text[last_line_start(&text[..sign])..])
}

/// Without the last byte, where there is one.
fn without_last(text: &[u8]) -> &[u8]
    ensures { result.now ≡ take (length text.now - 1) text.now }
{
    &text[..text.len().saturating_sub(1)]
}

/// The first part, and what stands behind the line that ends it; none where no line does.
fn first_part(text: &[u8]) -> Option<(&[u8], &[u8])>
    ensures { MatchOption result (parts_of_text text.now ≡ text.now ∷ []) (λ found. IsFirstPart text.now found.0.now found.1.now) }
{
    let mut rest = text;
    while let Some(tail) = from_sign(rest) {
        let (line, behind) = first_line(tail);
        if is_separator(line) {
            // Its last byte is the line feed before the separator. It is empty where that is the first line.
            let before = &text[..text.len() - tail.len()];
            return Some((without_last(before), behind));
        }
        rest = behind;
    }
    None
}

/// The parts of a text, which lines `%%` separate, as slices of it. This drops no carriage returns: `without_carriage_returns` does. The
/// cost is one search for per cent signs, and a look at each line that has one.
pub fn parts(alloc: Global, text: &[u8]) -> Result<Vec<&[u8]>, AllocError>
    ensures { IfOk result (λ v. map (λ p. p.now) v.items ≡ parts_of_text text.now) }
{
    let mut parts = Vec::new(alloc);
    let mut rest = text;
    while let Some((part, behind)) = first_part(rest) {
        parts.push(part)?;
        rest = behind;
    }
    parts.push(rest)?;
    Ok(parts)
}
