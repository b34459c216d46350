//! Rows whose keys are known before they are read: each pair is read where it stands, and no tree is made of it. None says only that the
//! line is of another form, or another line, or that memory was refused; it is for `next_row` to read.
ghost use Rattle.std.specs.Prelude.{◌≡◌, ℕ, ◌==◌, ◌<◌, ◌&&◌, not, true, false, [], length, slice_index, Some, IfSome};
ghost use Rattle.std.specs.List.{list_all};
ghost use Rattle.toml_parser.specs.Lexical.{is_bare};
ghost use Rattle.toml.specs.Data.{string, integer};
ghost use Rattle.toml.specs.Parse as spec;
ghost use Rattle.toml_parser.specs.Lexical as lexical;
ghost use Rattle.toml_rows.specs.Rows.{IsLine, pair_line};
ghost use Rattle.toml_rows.specs.Texts.{IsOpened, IsText, IsClosed};

use crate::blank::{skip_blank, skip_ws};
use crate::digits::digits_alone;
use crate::key::after_bare;
use crate::line::ends_line;
use crate::string::plain_string;
use crate::value::after_element;
use std::alloc::Global;
use toml_parser::bytes::{byte_at, is_ws};
use toml_parser::text::{first, skip};
use toml_parser::{Scalar, starts_string, unquoted};

/// Whether ` = ` comes next, and no more white space.
#[inline]
fn begins_equals(bytes: &[u8]) -> bool
    ensures { result ≡ (((slice_index bytes.now 0 == 32 && slice_index bytes.now 1 == 61) && slice_index bytes.now 2 == 32) && not (lexical.is_ws (slice_index bytes.now 3))) }
{
    byte_at(bytes, 0) == b' '
        && byte_at(bytes, 1) == b'='
        && byte_at(bytes, 2) == b' '
        && !is_ws(byte_at(bytes, 3))
}

/// What follows the key of this word and ` = `, where no more white space does.
#[inline(always)]
fn after_spaced_equals<'a>(s: &'a str, word: &str) -> Option<&'a str>
    requires some { 0 < length word.now }
    requires bare { list_all is_bare word.now ≡ true }
    ensures value { IfSome result (λ rest. spec.key_equals s.now ≡ Some (([], word.now), rest.now)) }
    ensures shorter { IfSome result (λ rest. length rest.now < length s.now) }
{
    let len = word.len();
    if s.len() <= len {
        return None;
    }
    let (front, after) = s.as_bytes().split_at(len);
    if !begins_equals(after) || front != word.as_bytes() {
        return None;
    }
    Some(skip(s, len + 3))
}

/// What follows the key of this word, its `=` and the white space after it.
#[inline(never)]
#[tactic(auto, unfolding(toml::specs::Parse::key_equals))]
fn after_any_equals<'a>(s: &'a str, word: &str) -> Option<&'a str>
    requires some { 0 < length word.now }
    requires bare { list_all is_bare word.now ≡ true }
    ensures value { IfSome result (λ rest. spec.key_equals s.now ≡ Some (([], word.now), rest.now)) }
    ensures shorter { IfSome result (λ rest. length rest.now < length s.now) }
{
    let rest = after_bare(s, word)?;
    if first(rest) != b'=' {
        return None;
    }
    Some(skip_ws(skip(rest, 1)))
}

/// What `after_any_equals` gives. Mostly there is one space before and behind the `=`, so this is looked for first.
#[inline(always)]
fn after_equals<'a>(s: &'a str, word: &str) -> Option<&'a str>
    requires some { 0 < length word.now }
    requires bare { list_all is_bare word.now ≡ true }
    ensures value { IfSome result (λ rest. spec.key_equals s.now ≡ Some (([], word.now), rest.now)) }
    ensures shorter { IfSome result (λ rest. length rest.now < length s.now) }
{
    if let Some(rest) = after_spaced_equals(s, word) {
        return Some(rest);
    }
    after_any_equals(s, word)
}

/// What stands between two quotes, as a value.
fn plain_text(s: &str) -> Option<(&str, &str)>
    ensures value { IfSome result (λ p. (depth : ℕ) → spec.val depth s.now ≡ Some (string p.0.now, p.1.now)) }
    ensures shorter { IfSome result (λ p. length p.1.now < length s.now) }
{
    let (text, rest) = plain_string(s)?;
    Some((text, rest))
}

/// A whole number.
#[tactic(auto, unfolding(toml::specs::Parse::atom))]
fn whole_atom(alloc: Global, s: &str) -> Option<(i64, &str)>
    ensures value { IfSome result (λ p. spec.atom s.now ≡ Some (integer p.0, p.1.now)) }
    ensures shorter { IfSome result (λ p. length p.1.now < length s.now) }
{
    if starts_string(s) {
        return None;
    }
    match unquoted(alloc, s) {
        Ok((Scalar::Integer(number), rest)) => Some((number, rest)),
        _ => None,
    }
}

/// A whole number, as a value. Most are digits alone, so these are tried first.
fn whole_number(alloc: Global, s: &str) -> Option<(i64, &str)>
    ensures value { IfSome result (λ p. spec.val 80 s.now ≡ Some (integer p.0, p.1.now)) }
    ensures shorter { IfSome result (λ p. length p.1.now < length s.now) }
{
    if let Some((number, rest)) = digits_alone(s) {
        return Some((number, rest));
    }
    if first(s) == b'[' || first(s) == b'{' {
        return None;
    }
    whole_atom(alloc, s)
}

/// The text at a key, and what follows its line. None where the text is empty or has an escape, for the other kinds of strings, and where
/// the key is quoted.
#[inline(always)]
#[tactic(auto, unfolding(toml::specs::Parse::line, toml::specs::Parse::expression))]
pub fn text_pair<'a>(s: &'a str, word: &str) -> Option<(&'a str, &'a str)>
    requires some { 0 < length word.now }
    requires bare { list_all is_bare word.now ≡ true }
    ensures { IfSome result (λ p. IsLine (pair_line (word.now, string p.0.now)) s.now p.1.now) }
{
    let start = skip_blank(s);
    if first(start) == b'[' {
        return None;
    }
    let (text, rest) = plain_text(after_equals(start, word)?)?;
    if !ends_line(rest) {
        return None;
    }
    Some((text, rest))
}

/// The whole number at a key, and what follows its line.
#[inline(always)]
#[tactic(auto, unfolding(toml::specs::Parse::line, toml::specs::Parse::expression))]
pub fn number_pair<'a>(alloc: Global, s: &'a str, word: &str) -> Option<(i64, &'a str)>
    requires some { 0 < length word.now }
    requires bare { list_all is_bare word.now ≡ true }
    ensures { IfSome result (λ p. IsLine (pair_line (word.now, integer p.0)) s.now p.1.now) }
{
    let start = skip_blank(s);
    if first(start) == b'[' {
        return None;
    }
    let (number, rest) = whole_number(alloc, after_equals(start, word)?)?;
    if !ends_line(rest) {
        return None;
    }
    Some((number, rest))
}

/// What follows the opening bracket of the list at a key.
pub fn open_texts<'a>(s: &'a str, word: &str) -> Option<&'a str>
    requires some { 0 < length word.now }
    requires bare { list_all is_bare word.now ≡ true }
    ensures { IfSome result (λ inside. IsOpened word.now s.now inside.now) }
{
    let start = skip_blank(s);
    if first(start) == b'[' {
        return None;
    }
    let value = after_equals(start, word)?;
    if first(value) != b'[' {
        return None;
    }
    Some(skip(value, 1))
}

/// The text that comes next in a list, and what follows it and its comma. None as for a pair, and at the end of the list.
pub fn next_text(s: &str) -> Option<(&str, &str)>
    ensures { IfSome result (λ p. IsText p.0.now s.now p.1.now) }
{
    let start = skip_blank(s);
    if first(start) == b']' {
        return None;
    }
    let (text, after) = plain_text(start)?;
    let rest = after_element(after)?;
    Some((text, rest))
}

/// What follows the line that a list ends, where its closing bracket comes next.
pub fn close_texts(s: &str) -> Option<&str>
    ensures { IfSome result (λ rest. IsClosed s.now rest.now) }
{
    let start = skip_blank(s);
    if first(start) != b']' {
        return None;
    }
    let rest = skip(start, 1);
    if !ends_line(rest) {
        return None;
    }
    Some(rest)
}
