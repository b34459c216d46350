//! Where the nodes of a picture stand.
ghost use Rattle.std.specs.Prelude.{◌≡◌, ℕ, ◌<◌, ◌≤◌, ◌+◌, ◌-◌, ◌==◌, length, map, fold, count_by, nat_lt, slice_get, unwrap_or, None, take, is_none, max, if◌then◌else◌, IfOk, OnOk};
ghost use Rattle.std.specs.List.{list_any, flat_map};
ghost use Rattle.std.specs.Option.{option_to_list};
ghost use Rattle.std.specs.BTreeSet.{insert_key};
ghost use Rattle.std.specs.Ordering.{nat_cmp};
ghost use Rattle.picture_text.specs.Layout.{each_rank, from_right, last_column, columns, column_height, tallest, corner_at, corners_from, corners_in, node_corners, picture_size, AreAllApart};

use crate::parts::{Corner, Size};
use std::alloc::{AllocError, Global};
use std::collections::BTreeSet;

/// Adds the rank of a node, if it has one.
#[tactic(auto, using(crate::proofs::Ranks::one_rank_more))]
fn add(set: &mut BTreeSet<u16>, rank: Option<u16>) -> Result<(), AllocError>
    ensures keys { OnOk result (set.new.keys ≡ fold (insert_key nat_cmp) set.old.keys (option_to_list rank)) }
    ensures few { OnOk result (length set.new.keys ≤ length set.old.keys + 1) }
{
    if let Some(rank) = rank {
        set.insert(rank)?;
    }
    Ok(())
}

/// The rank of the node at a place.
fn rank_at(ranks: &[Option<u16>], place: usize) -> Option<u16>
    requires { place < length ranks.now }
    ensures { result ≡ unwrap_or (slice_get ranks.now place) None }
{
    ranks[place]
}

/// The ranks of nodes, each once, in ascending order.
fn each_rank(alloc: Global, ranks: &[Option<u16>]) -> Result<Vec<u16>, AllocError>
    ensures all { IfOk result (λ v. v.items ≡ each_rank ranks.now) }
    ensures few { IfOk result (λ v. length v.items ≤ length ranks.now) }
{
    let mut set = BTreeSet::new(alloc);
    for place in 0..ranks.len() {
        let rank = rank_at(ranks, place);
        add(&mut set, rank)?;
    }
    listed(alloc, &set)
}

fn listed(alloc: Global, set: &BTreeSet<u16>) -> Result<Vec<u16>, AllocError>
    ensures { IfOk result (λ v. v.items ≡ set.now.keys) }
{
    set.iter().copied().collect(alloc)
}

/// How many of the ranks are less.
fn less(each: &[u16], rank: u16) -> usize
    ensures { result ≡ count_by (λ k. nat_lt k rank) each.now }
{
    each.iter().filter(|k| **k < rank).count()
}

/// How far a rank's column is from the right.
fn from_right(each: &[u16], rank: Option<u16>) -> usize
    ensures { result ≡ from_right each.now rank }
{
    match rank {
        Some(rank) => less(each, rank),
        None => each.len(),
    }
}

/// The column of a rank, from the left.
fn column(each: &[u16], last: u8, rank: Option<u16>) -> u8
    ensures { result ≡ last - from_right each.now rank }
{
    let from_right = from_right(each, rank);
    let last = last as usize;
    last.saturating_sub(from_right) as u8
}

/// Whether a node has no rank.
fn has_unranked(ranks: &[Option<u16>]) -> bool
    ensures { result ≡ list_any is_none ranks.now }
{
    ranks.iter().any(|rank| rank.is_none())
}

/// The last column, where so many ranks have one, and nodes without a rank another.
fn last_of(count: u8, has_unranked: bool) -> u8
    ensures { result ≡ (if has_unranked then count else count - 1) }
{
    if has_unranked {
        count
    } else {
        count.saturating_sub(1)
    }
}

/// The last column from the left, which is the first from the right.
fn last_column(ranks: &[Option<u16>], each: &[u16]) -> u8
    requires each { each.now ≡ each_rank ranks.now }
    requires few { length each.now ≤ 64 }
    ensures { result ≡ last_column ranks.now }
{
    let count = each.len() as u8;
    let has_unranked = has_unranked(ranks);
    last_of(count, has_unranked)
}

/// How many nodes stand in a column.
fn column_height(columns: &[u8], column: u8) -> usize
    ensures count { result ≡ column_height columns.now column }
    ensures few { result ≤ length columns.now }
{
    columns.iter().filter(|c| **c == column).count()
}

/// How many nodes stand in the tallest column.
fn tallest(columns: &[u8]) -> usize
    ensures most { result ≡ tallest columns.now }
    ensures few { result ≤ length columns.now }
{
    let mut most = 0;
    for column in columns {
        most = most.max(column_height(columns, *column));
    }
    most
}

/// The corner of the node at a place, in its column.
fn corner_at(columns: &[u8], most: usize, place: usize, column: u8) -> Corner
    requires few { length columns.now ≤ 64 }
    requires most { most ≡ tallest columns.now }
    requires less { most ≤ 64 }
    requires place { place ≤ length columns.now }
    ensures { result ≡ corner_at columns.now place column }
{
    let above = most.saturating_sub(column_height(columns, column)) as u16;
    let before = column_height(&columns[..place], column) as u16;
    let column = column as u16;
    Corner {
        left: 40 + 250 * column,
        top: 70 + 40 * above + 40 * (column % 2) + 80 * before,
    }
}

/// Where the nodes of a picture stand, in the order of the tables, and how large the picture is.
#[derive(Drop)]
pub struct Layout {
    pub corners: Vec<Corner>,
    pub size: Size,
}

/// The corners of nodes in these columns.
fn corners(alloc: Global, columns: &[u8]) -> Result<Vec<Corner>, AllocError>
    requires { length columns.now ≤ 64 }
    ensures corners { IfOk result (λ v. v.items ≡ corners_in columns.now) }
    ensures apart { IfOk result (λ v. AreAllApart v.items) }
{
    let most = tallest(columns);
    let mut corners = Vec::new(alloc);
    for (place, column) in columns.iter().enumerate() {
        let next = corner_at(columns, most, place, *column);
        corners.push(next)?;
    }
    Ok(corners)
}

/// The columns of nodes, and the last of them.
fn columns(
    alloc: Global,
    ranks: &[Option<u16>],
    each: &[u16],
    last: u8,
) -> Result<Vec<u8>, AllocError>
    ensures { IfOk result (λ v. v.items ≡ map (λ rank. last - from_right each.now rank) ranks.now) }
{
    ranks
        .iter()
        .map(|rank| column(each, last, *rank))
        .collect(alloc)
}

/// Nodes with these ranks in columns: the least rank on the right, those without a rank on the left. There are at most 64.
pub fn layout_of(alloc: Global, ranks: &[Option<u16>]) -> Result<Layout, AllocError>
    requires { length ranks.now ≤ 64 }
    ensures corners { IfOk result (λ l. l.corners.items ≡ node_corners ranks.now) }
    ensures size { IfOk result (λ l. l.size ≡ picture_size ranks.now) }
    // No two boxes meet.
    ensures apart { IfOk result (λ l. AreAllApart l.corners.items) }
    // Each node has a corner.
    ensures count { IfOk result (λ l. length l.corners.items ≡ length ranks.now) }
{
    let each = each_rank(alloc, ranks)?;
    let last = last_column(ranks, &each);
    let columns = columns(alloc, ranks, &each, last)?;
    let corners = corners(alloc, &columns)?;
    let size = Size {
        width: 250 + 250 * last as u16,
        height: 120 + 80 * tallest(&columns) as u16,
    };
    Ok(Layout { corners, size })
}
