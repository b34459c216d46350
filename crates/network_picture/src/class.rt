//! The class that a picture shows.
ghost use Rattle.std.specs.Prelude.{◌≡◌, if◌then◌else◌, IfOk, option_and_then};
ghost use Rattle.card_digits.specs.Longest.{begins, kept, longest};
ghost use Rattle.network_picture.specs.Shown.{class_at, named_class, first_prefix, usual_class, shown_class};

use card_digits::{Prefix, begins_class};
use net_rows::{Tables, classes};
use std::alloc::{AllocError, Global};
use table_checker::Refusal;

/// The longest class so far, or the next one where that begins the digits and is longer.
fn longer(longest: Option<Prefix>, next: Prefix, digits: &Prefix) -> Option<Prefix>
    ensures { result ≡ (if begins next digits.now then kept (λ p. p) longest next else longest) }
{
    if !begins_class(&next, digits) {
        return longest;
    }
    match longest {
        Some(other) if next.digits().len() <= other.digits().len() => longest,
        _ => Some(next),
    }
}

/// The longest of these classes that begins the digits.
fn longest_of(classes: &[Prefix], digits: &Prefix) -> Option<Prefix>
    ensures { result ≡ longest (λ p. p) classes.now digits.now }
{
    let mut longest = None;
    for class in classes {
        longest = longer(longest, *class, digits);
    }
    longest
}

/// The class of cards that begin with these digits.
fn class_at(alloc: Global, tables: &Tables, digits: &Prefix) -> Result<Option<Prefix>, AllocError>
    ensures { IfOk result (λ class. class ≡ class_at tables.now digits.now) }
{
    let classes = classes(alloc, tables)?;
    Ok(longest_of(&classes, digits))
}

/// The class that a refusal names, if it names one.
pub(crate) fn named_class(refusal: &Refusal) -> Option<Prefix>
    ensures { result ≡ named_class refusal.now }
{
    match refusal {
        Refusal::NoRank(_, class) => Some(*class),
        Refusal::NotLess(_, class, _) => Some(*class),
        Refusal::NotNamed(_, class) => Some(*class),
        Refusal::OverCeiling(class, _, _) => Some(*class),
        Refusal::NoIssuer(_, class) => Some(*class),
        _ => None,
    }
}

/// The class that the verdict names, if it is a refusal that names one.
fn verdict_class(verdict: &Option<Refusal>) -> Option<Prefix>
    ensures { result ≡ option_and_then named_class verdict.now }
{
    match verdict {
        Some(refusal) => named_class(refusal),
        None => None,
    }
}

/// The prefix of the first issuer.
fn first_prefix(tables: &Tables) -> Option<Prefix>
    ensures { result ≡ first_prefix tables.now }
{
    match tables.issuers().first() {
        Some(issuer) => Some(issuer.prefix),
        None => None,
    }
}

/// The class of the verdict's refusal, or else the prefix of the first issuer.
fn usual_class(tables: &Tables, verdict: &Option<Refusal>) -> Option<Prefix>
    ensures { result ≡ usual_class tables.now verdict.now }
{
    match verdict_class(verdict) {
        Some(class) => Some(class),
        None => first_prefix(tables),
    }
}

/// The class of a prefix, or for want of one the class of the verdict's refusal or of the first issuer.
pub(crate) fn shown_class(
    alloc: Global,
    tables: &Tables,
    verdict: &Option<Refusal>,
    prefix: &Option<Prefix>,
) -> Result<Option<Prefix>, AllocError>
    ensures { IfOk result (λ class. class ≡ shown_class tables.now verdict.now prefix.now) }
{
    match prefix {
        Some(digits) => class_at(alloc, tables, digits),
        None => Ok(usual_class(tables, verdict)),
    }
}
