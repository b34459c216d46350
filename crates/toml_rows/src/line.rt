//! Lines of a document.
ghost use Rattle.std.specs.Prelude.{◌≡◌, ◌==◌, ◌<◌, ◌≤◌, [], true, false, length, drop, slice_index, string_bytes, Some, IfSome};
ghost use Rattle.std.specs.List.{list_all};
ghost use Rattle.toml.specs.Parse as spec;
ghost use Rattle.toml.specs.Tables.{key_value};
ghost use Rattle.toml.specs.View.{view};
ghost use Rattle.toml_parser.specs.Lexical as lexical;
ghost use Rattle.toml_parser.specs.Lexical.{is_bare};
ghost use Rattle.toml_rows.specs.Rows.{IsLine, table_line, row_line};

use crate::blank::{skip_blank, skip_ws};
use crate::key::{after_bare_bracket, after_key, key};
use crate::value::value;
use std::alloc::Global;
use toml::Value;
use toml_parser::text::{byte_at, first, skip};

/// Whether nothing but white space and a comment is left of the line. Mostly nothing is.
#[inline]
pub(crate) fn ends_line(s: &str) -> bool
    ensures { result ≡ spec.ends_line (lexical.skip_ws s.now) }
{
    if first(s) == b'\n' {
        return true;
    }
    let end = skip_ws(s);
    end.is_empty() || matches!(first(end), b'#' | b'\n' | b'\r')
}

/// A key without dots, and its value, alone on their line.
#[tactic(auto, unfolding(toml::specs::Parse::line, toml::specs::Parse::expression, toml::specs::Parse::key_equals))]
pub(crate) fn pair(alloc: Global, s: &str) -> Option<((String, Value), &str)>
    requires { (lexical.first s.now == lexical.left_bracket) ≡ false }
    ensures value { IfSome result (λ p. spec.line s.now ≡ Some ((([], string_bytes p.0.0), key_value (view p.0.1)), p.1.now)) }
    ensures shorter { IfSome result (λ p. length p.1.now < length s.now) }
{
    let (key, rest) = key(alloc, s)?;
    if first(rest) != b'=' {
        return None;
    }
    let (value, rest) = value(alloc, skip_ws(skip(rest, 1)))?;
    if !ends_line(rest) {
        return None;
    }
    Some(((key, value), rest))
}

/// What follows the word of a header and its closing bracket.
#[tactic(auto, unfolding(toml::specs::Parse::header_key))]
fn after_word<'a>(alloc: Global, s: &'a str, word: &str) -> Option<&'a str>
    ensures value { IfSome result (λ rest. spec.header_key s.now ≡ Some (([], word.now), rest.now)) }
    ensures shorter { IfSome result (λ rest. length rest.now < length s.now) }
{
    let rest = after_key(alloc, skip_ws(s), word)?;
    if first(rest) != b']' {
        return None;
    }
    Some(skip(rest, 1))
}

/// What follows the line `[word]`, where it comes next.
#[tactic(auto, unfolding(toml::specs::Parse::line, toml::specs::Parse::expression))]
pub(crate) fn after_table_header<'a>(alloc: Global, s: &'a str, word: &str) -> Option<&'a str>
    ensures { IfSome result (λ rest. IsLine (table_line word.now) s.now rest.now) }
{
    let start = skip_blank(s);
    if first(start) != b'[' || byte_at(start, 1) == b'[' {
        return None;
    }
    let rest = after_word(alloc, skip(start, 1), word)?;
    if !ends_line(rest) {
        return None;
    }
    Some(rest)
}

/// What follows the opening brackets of a row's header, where they come next.
#[inline]
fn after_brackets(s: &str) -> Option<&str>
    ensures opens { IfSome result (λ _. (lexical.first (lexical.skip_blank s.now) == lexical.left_bracket) ≡ true) }
    ensures twice { IfSome result (λ _. (slice_index (lexical.skip_blank s.now) 1 == lexical.left_bracket) ≡ true) }
    ensures inside { IfSome result (λ inside. inside.now ≡ drop 2 (lexical.skip_blank s.now)) }
    ensures shorter { IfSome result (λ inside. length inside.now < length (lexical.skip_blank s.now)) }
{
    let start = skip_blank(s);
    if first(start) != b'[' || byte_at(start, 1) != b'[' {
        return None;
    }
    Some(skip(start, 2))
}

/// What follows the last bracket of a row's header, alone on the rest of its line.
#[inline]
fn after_last_bracket(s: &str) -> Option<&str>
    ensures closes { IfSome result (λ _. (lexical.first s.now == lexical.right_bracket) ≡ true) }
    ensures rest { IfSome result (λ rest. rest.now ≡ drop 1 s.now) }
    ensures ends { IfSome result (λ rest. spec.ends_line (lexical.skip_ws rest.now) ≡ true) }
    ensures shorter { IfSome result (λ rest. length rest.now < length s.now) }
{
    if first(s) != b']' {
        return None;
    }
    let rest = skip(s, 1);
    if !ends_line(rest) {
        return None;
    }
    Some(rest)
}

/// What follows the line `[[word]]`, where it comes next.
pub(crate) fn after_row_header<'a>(alloc: Global, s: &'a str, word: &str) -> Option<&'a str>
    ensures { IfSome result (λ rest. IsLine (row_line word.now) s.now rest.now) }
{
    let inside = after_brackets(s)?;
    let after = after_word(alloc, inside, word)?;
    let rest = after_last_bracket(after)?;
    Some(rest)
}

/// What follows the word of a header, a bare key, and its closing bracket. Mostly this stands right behind the word, which is compared
/// where it stands.
#[inline(always)]
fn after_bare_word<'a>(alloc: Global, s: &'a str, word: &str) -> Option<&'a str>
    requires some { 0 < length word.now }
    requires bare { list_all is_bare word.now ≡ true }
    ensures value { IfSome result (λ rest. spec.header_key s.now ≡ Some (([], word.now), rest.now)) }
    ensures shorter { IfSome result (λ rest. length rest.now < length s.now) }
{
    if let Some(rest) = after_bare_bracket(s, word) {
        return Some(rest);
    }
    after_word(alloc, s, word)
}

/// What follows the line `[[word]]` of a word that is a bare key, where it comes next.
#[inline(always)]
pub fn bare_row_header<'a>(alloc: Global, s: &'a str, word: &str) -> Option<&'a str>
    requires some { 0 < length word.now }
    requires bare { list_all is_bare word.now ≡ true }
    ensures { IfSome result (λ rest. IsLine (row_line word.now) s.now rest.now) }
{
    let inside = after_brackets(s)?;
    let after = after_bare_word(alloc, inside, word)?;
    let rest = after_last_bracket(after)?;
    Some(rest)
}
