//! Keys without dots.
ghost use Rattle.std.specs.Prelude.{◌≡◌, ◌<◌, ◌≤◌, true, [], length, string_bytes, Some, IfSome};
ghost use Rattle.std.specs.List.{prefix_len, list_all};
ghost use Rattle.toml_parser.specs.Lexical.{is_bare};
ghost use Rattle.toml_parser.specs.Strings as strings;
ghost use Rattle.toml.specs.Parse.{header_key};

use crate::blank::skip_ws;
use std::alloc::Global;
use toml_parser::bytes::{byte_at, is_bare};
use toml_parser::dotted_key;
use toml_parser::text::{first, skip};

/// How many bytes at the front are of a bare key.
fn bare_len(bytes: &[u8]) -> usize
    ensures len { result ≡ prefix_len is_bare bytes.now }
    ensures within { result ≤ length bytes.now }
{
    for at in 0..bytes.len() {
        if !is_in_key(bytes[at]) {
            return at;
        }
    }
    bytes.len()
}

/// Whether a byte is of a bare key. Most are lower-case letters, so these are tried first.
#[inline]
fn is_in_key(byte: u8) -> bool
    ensures { result ≡ is_bare byte }
{
    byte.is_ascii_lowercase() || is_bare(byte)
}

/// A bare key, and what follows it and the white space after it. None also where a dot comes next.
fn bare_key(s: &str) -> Option<(&str, &str)>
    ensures value { IfSome result (λ p. strings.key s.now ≡ Some (([], p.0.now), p.1.now)) }
    ensures shorter { IfSome result (λ p. length p.1.now < length s.now) }
{
    let len = bare_len(s.as_bytes());
    if len == 0 {
        return None;
    }
    let (word, after) = s.split_at(len);
    let rest = skip_ws(after);
    if first(rest) == b'.' {
        return None;
    }
    Some((word, rest))
}

/// Any key without dots, read into memory of its own.
fn any_key(alloc: Global, s: &str) -> Option<(String, &str)>
    ensures value { IfSome result (λ p. strings.key s.now ≡ Some (([], string_bytes p.0), p.1.now)) }
    ensures shorter { IfSome result (λ p. length p.1.now < length s.now) }
{
    let Ok((key, rest)) = dotted_key(alloc, s) else {
        return None;
    };
    if !key.path.is_empty() {
        return None;
    }
    Some((key.last, rest))
}

/// A key without dots, and what follows it and the white space after it.
pub(crate) fn key(alloc: Global, s: &str) -> Option<(String, &str)>
    ensures value { IfSome result (λ p. strings.key s.now ≡ Some (([], string_bytes p.0), p.1.now)) }
    ensures shorter { IfSome result (λ p. length p.1.now < length s.now) }
{
    let Some((word, rest)) = bare_key(s) else {
        return any_key(alloc, s);
    };
    let Ok(key) = String::from_str(alloc, word) else {
        return None;
    };
    Some((key, rest))
}

/// What follows the key of this word and the white space after it. A bare key is compared where it stands.
pub(crate) fn after_key<'a>(alloc: Global, s: &'a str, word: &str) -> Option<&'a str>
    ensures value { IfSome result (λ rest. strings.key s.now ≡ Some (([], word.now), rest.now)) }
    ensures shorter { IfSome result (λ rest. length rest.now < length s.now) }
{
    if let Some((key, rest)) = bare_key(s) {
        return if key == word { Some(rest) } else { None };
    }
    let (key, rest) = any_key(alloc, s)?;
    if key.as_str() == word {
        Some(rest)
    } else {
        None
    }
}

/// What follows a word, compared where it stands, and the white space after it. None also where the key goes on or a dot comes next.
pub(crate) fn after_bare<'a>(s: &'a str, word: &str) -> Option<&'a str>
    requires some { 0 < length word.now }
    requires bare { list_all is_bare word.now ≡ true }
    ensures value { IfSome result (λ rest. strings.key s.now ≡ Some (([], word.now), rest.now)) }
    ensures shorter { IfSome result (λ rest. length rest.now < length s.now) }
{
    let len = word.len();
    let bytes = s.as_bytes();
    if bytes.len() <= len || &bytes[..len] != word.as_bytes() || is_bare(bytes[len]) {
        return None;
    }
    let (_word, after) = s.split_at(len);
    let rest = skip_ws(after);
    match first(rest) {
        b'.' => None,
        _ => Some(rest),
    }
}

/// What follows a word, compared where it stands, and a closing bracket right behind it.
#[inline(always)]
pub(crate) fn after_bare_bracket<'a>(s: &'a str, word: &str) -> Option<&'a str>
    requires some { 0 < length word.now }
    requires bare { list_all is_bare word.now ≡ true }
    ensures value { IfSome result (λ rest. header_key s.now ≡ Some (([], word.now), rest.now)) }
    ensures shorter { IfSome result (λ rest. length rest.now < length s.now) }
{
    let len = word.len();
    if s.len() <= len {
        return None;
    }
    let (front, after) = s.as_bytes().split_at(len);
    if byte_at(after, 0) != b']' || front != word.as_bytes() {
        return None;
    }
    Some(skip(s, len + 1))
}
