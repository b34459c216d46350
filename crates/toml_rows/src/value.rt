//! Values that a row may have: strings, whole numbers, and arrays of these.
ghost use Rattle.std.specs.Prelude.{◌≡◌, ℕ, ◌==◌, ◌<◌, ◌≤◌, false, length, Some, IfSome};
ghost use Rattle.toml.specs.Data.{no_items};
ghost use Rattle.toml.specs.Parse as spec;
ghost use Rattle.toml.specs.View.{view, array_view};
ghost use Rattle.toml_parser.specs.Lexical as lexical;

use crate::blank::skip_blank;
use crate::string::string;
use std::alloc::Global;
use toml::Value;
use toml_parser::text::{first, skip};
use toml_parser::{Scalar, starts_string, unquoted};

/// A string or a whole number.
#[tactic(auto, unfolding(toml::specs::Parse::atom))]
fn atom(alloc: Global, s: &str) -> Option<(Value, &str)>
    ensures value { IfSome result (λ p. spec.atom s.now ≡ Some (view p.0, p.1.now)) }
    ensures shorter { IfSome result (λ p. length p.1.now < length s.now) }
{
    if starts_string(s) {
        let (text, rest) = string(alloc, s)?;
        return Some((Value::String(text), rest));
    }
    match unquoted(alloc, s) {
        Ok((Scalar::Integer(number), rest)) => Some((Value::Integer(number), rest)),
        _ => None,
    }
}

/// What follows the comma after an element, or the closing bracket.
#[tactic(auto, unfolding(toml::specs::Parse::after_element))]
pub(crate) fn after_element(s: &str) -> Option<&str>
    ensures value { IfSome result (λ rest. spec.after_element lexical.right_bracket s.now ≡ Some rest.now) }
    ensures within { IfSome result (λ rest. length rest.now ≤ length s.now) }
{
    let rest = skip_blank(s);
    if first(rest) == b',' {
        Some(skip(rest, 1))
    } else if first(rest) == b']' {
        Some(rest)
    } else {
        None
    }
}

/// The elements of an array, after its opening bracket.
fn elements(alloc: Global, s: &str) -> Option<(Vec<Value>, &str)>
    ensures value { IfSome result (λ p. (depth n : ℕ) → length s.now < n → spec.items (spec.val depth) n no_items s.now ≡ Some (array_view p.0, p.1.now)) }
    ensures shorter { IfSome result (λ p. length p.1.now < length s.now) }
{
    let mut found = Vec::new(alloc);
    let mut rest = s;
    'elements: loop {
        let start = skip_blank(rest);
        if first(start) == b']' {
            return Some((found, skip(start, 1)));
        }
        if first(start) == b'[' || first(start) == b'{' {
            return None;
        }
        let (element, after) = atom(alloc, start)?;
        let Ok(()) = found.push(element) else {
            return None;
        };
        rest = after_element(after)?;
    }
}

/// A value of a row.
pub(crate) fn value(alloc: Global, s: &str) -> Option<(Value, &str)>
    ensures value { IfSome result (λ p. spec.val 80 s.now ≡ Some (view p.0, p.1.now)) }
    ensures shorter { IfSome result (λ p. length p.1.now < length s.now) }
{
    if first(s) == b'[' {
        let (found, rest) = elements(alloc, skip(s, 1))?;
        return Some((Value::Array(found), rest));
    }
    if first(s) == b'{' {
        return None;
    }
    atom(alloc, s)
}
