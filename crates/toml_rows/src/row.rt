//! Rows: a header, and the pairs of keys and values on the lines below it.
ghost use Rattle.std.specs.Prelude.{◌≡◌, ◌==◌, ◌<◌, ◌≤◌, length, IfSome};
ghost use Rattle.toml.specs.Parse as spec;
ghost use Rattle.toml.specs.View.{table_view};
ghost use Rattle.toml_rows.specs.Rows.{is_over, ArePairs, IsHeaded, table_line, row_line};

use crate::blank::skip_blank;
use crate::line::{after_row_header, after_table_header, pair};
use std::alloc::Global;
use toml::Table;
use toml_parser::text::{byte_at, first};

/// Where a document begins: after its byte order mark, if it has one.
pub fn start(text: &str) -> &str
    ensures { result.now ≡ spec.skip_bom text.now }
{
    if first(text) == 0xEF && byte_at(text, 1) == 0xBB && byte_at(text, 2) == 0xBF {
        &text[3..]
    } else {
        text
    }
}

/// Whether nothing but white space and comments is left.
pub fn is_over(s: &str) -> bool
    ensures { result ≡ is_over s.now }
{
    skip_blank(s).is_empty()
}

/// The pairs of keys and values up to the next header, or up to the end. None where a key stands twice, and where a value is of
/// another kind than those of rows.
fn pairs(alloc: Global, s: &str) -> Option<(Table, &str)>
    ensures pairs { IfSome result (λ p. ArePairs (table_view p.0) s.now p.1.now) }
    ensures within { IfSome result (λ p. length p.1.now ≤ length s.now) }
{
    let mut members = Table::new(alloc);
    let mut rest = s;
    'lines: loop {
        let start = skip_blank(rest);
        if start.is_empty() || first(start) == b'[' {
            return Some((members, rest));
        }
        let ((key, value), after) = pair(alloc, start)?;
        let Ok(None) = members.insert(key, value) else {
            return None;
        };
        rest = after;
    }
}

/// The table `[word]`, where it comes next, and what follows it. None where another line comes next, where a key has a dot or stands
/// twice or a value is of another kind than those of rows, and where memory is refused.
pub fn first_table<'a>(alloc: Global, s: &'a str, word: &str) -> Option<(Table, &'a str)>
    ensures table { IfSome result (λ p. IsHeaded (table_line word.now) (table_view p.0) s.now p.1.now) }
    ensures shorter { IfSome result (λ p. length p.1.now < length s.now) }
{
    pairs(alloc, after_table_header(alloc, s, word)?)
}

/// The row `[[word]]`, where it comes next, and what follows it. None as for a table.
pub fn next_row<'a>(alloc: Global, s: &'a str, word: &str) -> Option<(Table, &'a str)>
    ensures row { IfSome result (λ p. IsHeaded (row_line word.now) (table_view p.0) s.now p.1.now) }
    ensures shorter { IfSome result (λ p. length p.1.now < length s.now) }
{
    pairs(alloc, after_row_header(alloc, s, word)?)
}
