//! Prefixes, each with the nodes that have it.
ghost use Rattle.std.specs.Prelude.{◌≡◌, ◌==◌, ◌&&◌, ◌||◌, ◌^◌, ℕ, List, not, IfOk, OnOk, OnErr};
ghost use Rattle.std.specs.Cmp.Lexicographic.{pointwise};
ghost use Rattle.named_rows.specs.Masks.{mask_of, has_node};

use card_digits::{NodeNo, Prefix};
use prefix_map::PrefixMap;
use std::alloc::AllocError;

/// The bit of a node.
fn bit_of(node: NodeNo) -> u64
    ensures { result ≡ 2 ^ node }
{
    1 << node.place()
}

/// Adds a node to those that have the prefix, and says whether it is new there. Rows of one prefix mostly stand behind each other, and
/// the map finds the prefix that it was asked for last at once.
pub(crate) fn add_node(
    masks: &mut PrefixMap<u64>,
    node: NodeNo,
    prefix: Prefix,
) -> Result<bool, AllocError>
    ensures new { IfOk result (λ is_new. is_new ≡ not (has_node node (mask_of prefix masks.old.entries))) }
    ensures nodes { OnOk result ((n : ℕ) (q : List ℕ) → has_node n (mask_of q masks.new.entries) ≡ ((n == node && pointwise ◌==◌ prefix q) || has_node n (mask_of q masks.old.entries))) }
    ensures stays { OnErr result ((q : List ℕ) → mask_of q masks.new.entries ≡ mask_of q masks.old.entries) }
{
    masks.reserve(1)?;
    let bit = bit_of(node);
    let Some(mask) = masks.get_or_insert(prefix, bit) else {
        return Ok(true);
    };
    if mask & bit != 0 {
        return Ok(false);
    }
    let _ = masks.replace(&prefix, mask | bit);
    Ok(true)
}
