//! Ids as they are compared: padded to eleven digits.
ghost use Rattle.std.specs.Prelude.{◌≡◌, ◌==◌, map, IfOk};
ghost use Rattle.std.specs.List.{list_any};
ghost use Rattle.std.specs.Cmp.Lexicographic.{pointwise};
ghost use Rattle.card_digits.specs.Numbers.{pad11};

use card_digits::Id;
use net_rows::{Acquirer, Node};
use std::alloc::{AllocError, Global};

/// The ids of acquirers in their order, each padded to eleven digits.
pub fn acquirer_ids(alloc: Global, acquirers: &[Acquirer]) -> Result<Vec<Id>, AllocError>
    ensures { IfOk result (λ v. v.items ≡ map (λ a. pad11 a.id) acquirers.now) }
{
    let mut ids = Vec::new(alloc);
    for acquirer in acquirers {
        ids.push(acquirer.id.padded())?;
    }
    Ok(ids)
}

/// The same of nodes.
pub fn node_ids(alloc: Global, nodes: &[Node]) -> Result<Vec<Id>, AllocError>
    ensures { IfOk result (λ v. v.items ≡ map (λ n. pad11 n.id) nodes.now) }
{
    let mut ids = Vec::new(alloc);
    for node in nodes {
        ids.push(node.id.padded())?;
    }
    Ok(ids)
}

/// Whether an id stands among these.
pub fn is_among(ids: &[Id], id: &Id) -> bool
    ensures { result ≡ list_any (λ other. pointwise ◌==◌ other id.now) ids.now }
{
    ids.iter().any(|other| other.as_slice() == id.as_slice())
}
