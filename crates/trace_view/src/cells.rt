//! The cells of a row.
ghost use Rattle.std.specs.Prelude.{◌≡◌, ◌≤◌, ◌++◌, replicate, OnOk};
ghost use Rattle.trace_view.specs.Rows.{cell};

use std::alloc::AllocError;

const SPACES: [u8; 40] = [b' '; 40];

/// Adds so many spaces.
#[tactic(auto, using(crate::proofs::Spaces::spaces))]
pub(crate) fn add_spaces(text: &mut Vec<u8>, count: usize) -> Result<(), AllocError>
    requires { count ≤ 40 }
    ensures { OnOk result (text.new.items ≡ text.old.items ++ replicate count 32) }
{
    text.extend_from_slice(&SPACES[..count])
}

/// Adds a cell of a column: what it holds, spaces up to the width of the column, and two more.
pub(crate) fn add_cell(text: &mut Vec<u8>, held: &[u8], width: usize) -> Result<(), AllocError>
    requires { width ≤ 40 }
    ensures { OnOk result (text.new.items ≡ text.old.items ++ cell width held.now) }
{
    text.extend_from_slice(held)?;
    add_spaces(text, width.saturating_sub(held.len()))?;
    text.extend_from_slice(b"  ")
}
