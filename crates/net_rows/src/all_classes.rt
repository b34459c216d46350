//! The classes of cards that tables tell apart.
ghost use Rattle.std.specs.Prelude.{◌≡◌, ◌==◌, false, IfOk, OnOk};
ghost use Rattle.std.specs.Option.{option_map_or};
ghost use Rattle.std.specs.Ordering.{nat_cmp};
ghost use Rattle.std.specs.Cmp.Lexicographic.{pointwise, slice_cmp};
ghost use Rattle.std.specs.BTreeSet.{insert_key};
ghost use Rattle.net_rows.specs.Network.{classes};
ghost use Rattle.net_rows.specs.Newest.{HasNewest};

use crate::tables::Tables;
use card_digits::Prefix;
use std::alloc::{AllocError, Global};
use std::collections::BTreeSet;

/// The prefixes of all rows, each once, in ascending order: a prefix before its extensions. The cost is that of sorting them.
pub fn classes(alloc: Global, tables: &Tables) -> Result<Vec<Prefix>, AllocError>
    ensures { IfOk result (λ v. v.items ≡ classes tables.now) }
{
    let mut classes = BTreeSet::new(alloc);
    let mut newest = None;
    for row in tables.issuers() {
        add(&mut classes, &mut newest, row.prefix)?;
    }
    for row in tables.routes() {
        add(&mut classes, &mut newest, row.prefix)?;
    }
    for row in tables.stand_ins() {
        add(&mut classes, &mut newest, row.prefix)?;
    }
    listed(alloc, &classes)
}

fn is_newest(newest: &Option<Prefix>, prefix: &Prefix) -> bool
    ensures { result ≡ option_map_or (λ p. pointwise ◌==◌ p prefix.now) newest.now false }
{
    match newest {
        Some(other) => *other == *prefix,
        None => false,
    }
}

/// Adds the prefix of the next row. Where the row before it has the same, as most rows of one prefix stand together, that one is the
/// newest and nothing is searched.
fn add(
    classes: &mut BTreeSet<Prefix>,
    newest: &mut Option<Prefix>,
    prefix: Prefix,
) -> Result<(), AllocError>
    requires { HasNewest classes.old.keys newest.old }
    ensures added { OnOk result (classes.new.keys ≡ insert_key (slice_cmp nat_cmp) classes.old.keys prefix) }
    ensures newest { OnOk result (HasNewest classes.new.keys newest.new) }
{
    if is_newest(newest, &prefix) {
        return Ok(());
    }
    classes.insert(prefix)?;
    *newest = Some(prefix);
    Ok(())
}

fn listed(alloc: Global, classes: &BTreeSet<Prefix>) -> Result<Vec<Prefix>, AllocError>
    ensures { IfOk result (λ v. v.items ≡ classes.now.keys) }
{
    classes.iter().copied().collect(alloc)
}
