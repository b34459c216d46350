//! White space and comments between tokens. Mostly there are none, or one space or line feed: these are seen at once, and any others are
//! left to `toml_parser`.
ghost use Rattle.std.specs.Prelude.{◌≡◌, ◌==◌, ◌≤◌, ℕ, true, false, length, None};
ghost use Rattle.toml_parser.specs.Lexical as lexical;

use toml_parser::bytes::is_ws;
use toml_parser::text;
use toml_parser::text::{byte_at, first, skip};

/// After spaces and tabs.
#[inline]
pub(crate) fn skip_ws(s: &str) -> &str
    ensures rest { result.now ≡ lexical.skip_ws s.now }
    ensures within { length result.now ≤ length s.now }
{
    if !is_ws(first(s)) {
        s
    } else if first(s) == b' ' && !is_ws(byte_at(s, 1)) {
        skip(s, 1)
    } else {
        text::skip_ws(s)
    }
}

/// After white space, newlines and comments.
#[inline]
pub fn skip_blank(s: &str) -> &str
    ensures rest { result.now ≡ lexical.skip_blank s.now }
    ensures within { length result.now ≤ length s.now }
{
    let start = skip_one(s);
    if begins_token(first(start)) {
        start
    } else {
        text::skip_blank(start, true)
    }
}

/// After one line feed or one space, if it comes next.
#[inline]
fn skip_one(s: &str) -> &str
    ensures rest { lexical.skip_blank result.now ≡ lexical.skip_blank s.now }
    ensures within { length result.now ≤ length s.now }
{
    if first(s) == b'\n' {
        skip(s, 1)
    } else if first(s) == b' ' {
        skip(s, 1)
    } else {
        s
    }
}

/// Whether a byte is no white space, and begins no comment.
#[inline]
fn begins_token(byte: u8) -> bool
    ensures { result ≡ true → (next : ℕ) → lexical.skip_turn true false byte next ≡ None }
{
    byte > b' ' && byte != b'#'
}
