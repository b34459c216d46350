//! Strings.
ghost use Rattle.std.specs.Prelude.{◌≡◌, ◌==◌, ◌<◌, ◌≤◌, true, false, length, string_bytes, Some, IfSome};
ghost use Rattle.std.specs.List.{prefix_len};
ghost use Rattle.toml_parser.specs.Lexical as lexical;
ghost use Rattle.toml_parser.specs.Strings as strings;

use std::alloc::Global;
use toml_parser::bytes::is_non_eol;
use toml_parser::quoted;
use toml_parser::text::{first, skip};

/// How many bytes at the front stand for themselves between quotes.
fn plain_len(bytes: &[u8]) -> usize
    ensures len { result ≡ prefix_len (strings.is_plain 34 false) bytes.now }
    ensures within { result ≤ length bytes.now }
{
    for at in 0..bytes.len() {
        if !is_plain(bytes[at]) {
            return at;
        }
    }
    bytes.len()
}

/// Whether a byte stands for itself between quotes. Most are digits and capital letters, which with others stand between the quote and the
/// backslash, so these are tried first.
#[inline]
fn is_plain(byte: u8) -> bool
    ensures { result ≡ strings.is_plain 34 false byte }
{
    byte > b'"' && byte < b'\\' || byte != b'"' && byte != b'\\' && is_non_eol(byte)
}

/// What stands between two quotes, and what follows them. None where it is empty or has an escape, and for the other kinds of strings.
pub(crate) fn plain_string(s: &str) -> Option<(&str, &str)>
    ensures begins { IfSome result (λ _. (lexical.first s.now == lexical.quote) ≡ true) }
    ensures value { IfSome result (λ p. strings.quoted s.now ≡ Some (p.0.now, p.1.now)) }
    ensures shorter { IfSome result (λ p. length p.1.now < length s.now) }
{
    if first(s) != b'"' {
        return None;
    }
    let inside = skip(s, 1);
    let len = plain_len(inside.as_bytes());
    if len == 0 {
        return None;
    }
    let (text, rest) = inside.split_at(len);
    if first(rest) != b'"' {
        return None;
    }
    Some((text, skip(rest, 1)))
}

/// A string of any kind.
pub(crate) fn string(alloc: Global, s: &str) -> Option<(String, &str)>
    requires { strings.starts_string s.now ≡ true }
    ensures value { IfSome result (λ p. strings.quoted s.now ≡ Some (string_bytes p.0, p.1.now)) }
    ensures shorter { IfSome result (λ p. length p.1.now < length s.now) }
{
    if let Some((plain, rest)) = plain_string(s) {
        let Ok(text) = String::from_str(alloc, plain) else {
            return None;
        };
        return Some((text, rest));
    }
    let Ok((text, rest)) = quoted(alloc, s) else {
        return None;
    };
    Some((text, rest))
}
