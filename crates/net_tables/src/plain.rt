//! Fields of rows whose keys stand in a known order, each read where it stands. None for any other form, and where a field has a fault.
ghost use Rattle.std.specs.Prelude.{◌≡◌, ◌<◌, ◌≤◌, true, length, Some, Ok, IfSome};
ghost use Rattle.std.specs.List.{list_all};
ghost use Rattle.table_fields.specs.Values.{whole};
ghost use Rattle.card_digits.specs.Reading.{read_digits};
ghost use Rattle.table_fields.specs.declared.place.Key.TheVariants as key;
ghost use Rattle.named_rows.specs.Rows.{node_names};
ghost use Rattle.named_rows.specs.Reading.{links_at};
ghost use Rattle.named_rows.specs.Plain.{IsNamed};
ghost use Rattle.net_rows.specs.Sound.{is_end};
ghost use Rattle.net_tables.specs.Plain.{IsFieldNext, AreLinksNext};

use card_digits::{Amount, LinkNo, MOST_AMOUNT, NodeNo, Prefix};
use named_rows::{NamedRows, are_own};
use net_rows::{Link, Links, MOST_ROUTE_LINKS, Node};
use std::alloc::Global;
use table_fields::Key;
use toml_rows::{close_texts, next_text, open_texts, skip_blank};

/// The node of that name.
pub(crate) fn node_named(nodes: &NamedRows<Node>, name: &str) -> Option<NodeNo>
    ensures named { IfSome result (λ n. IsNamed (node_names nodes.now) name.now n) }
    ensures within { IfSome result (λ n. n < length nodes.now) }
{
    let node = nodes.find(name)?;
    Some(NodeNo::new(node))
}

/// The prefix that digits write.
pub(crate) fn prefix_of(digits: &str) -> Option<Prefix>
    ensures { IfSome result (λ p. read_digits 1 12 digits.now ≡ Ok p) }
{
    match Prefix::read(digits.as_bytes()) {
        Ok(prefix) => Some(prefix),
        Err(_) => None,
    }
}

/// The amount that a whole number is.
pub(crate) fn amount_of(number: i64) -> Option<Amount>
    ensures { IfSome result (λ a. whole 0 999_999_999_999 number ≡ Some a) }
{
    if number < 0 || number > MOST_AMOUNT as i64 {
        return None;
    }
    Some(Amount::new(number as u64))
}

/// The links whose names the list on the next line has, at most eight.
fn plain_named<'a>(
    alloc: Global,
    text: &'a str,
    links: &NamedRows<Link>,
) -> Option<(Links, &'a str)>
    ensures named { IfSome result (λ p. AreLinksNext links.now p.0 text.now p.1.now) }
    ensures few { IfSome result (λ p. length p.0 ≤ 8) }
{
    let mut found = Links::new(alloc);
    let mut rest = open_texts(text, Key::Links.word())?;
    'links: loop {
        let ahead = skip_blank(rest);
        if let Some(after) = close_texts(ahead) {
            return Some((found, after));
        }
        let (name, after) = next_text(ahead)?;
        let link = links.find(name)?;
        if found.as_slice().len() >= MOST_ROUTE_LINKS {
            return None;
        }
        let Ok(()) = found.push(LinkNo::new(link)) else {
            return None;
        };
        rest = after;
    }
}

/// The links of the node that the next line names, one to eight and none twice.
pub(crate) fn plain_links<'a>(
    alloc: Global,
    text: &'a str,
    node: NodeNo,
    links: &NamedRows<Link>,
) -> Option<(Links, &'a str)>
    ensures field { IfSome result (λ p. IsFieldNext (links_at links.now node) key.Links p.0 text.now p.1.now) }
    ensures own { IfSome result (λ p. list_all (is_end links.now node) p.0 ≡ true) }
{
    let (found, rest) = plain_named(alloc, text, links)?;
    if found.as_slice().is_empty() || !are_own(links, node, &found) {
        return None;
    }
    Some((found, rest))
}
