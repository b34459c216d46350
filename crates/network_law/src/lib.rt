//! The law of the network, over definitions: what holds of every run of nodes that decide as `specs/Decision` says.
//!
//! A node's trace is a list of entries, the newest first; an entry is an input and the outputs that it gave, with the bytes of
//! messages (`specs/Entries`). Read as messages it is a history (`specs/Traces`), by which the node refuses (`specs/Refusals`) and
//! decides. A run is one legal trace for each node, in which each packet that was taken was put at the other end of its link
//! (`specs/Runs`). What tables and ranks must keep stands in `specs/Checked`, and what is claimed in `specs/Claims`.
#![tactic(auto)]

mod fault;
mod grant;

ghost use Rattle.std.specs.Prelude.{ℕ, ◌<◌, List, length};
ghost use Rattle.net_rows.specs.Network.{Network};
ghost use Rattle.network_law.specs.Checked.{IsChecked, IsBounded, IsRanked, Ranks};
ghost use Rattle.network_law.specs.Entries.{Entry, history};
ghost use Rattle.network_law.specs.Runs.{IsLegal, IsRun};
ghost use Rattle.network_law.specs.Claims.{Safe, Covered, IsWithinLimits, BorrowedWasLent, OneContent};
ghost use Rattle.network_law.specs.Legal.{FailsAreMarked, FailsAreReversed, IsReadAsDecided, ForwardsOnce, ReversalsLeaveLess, ReversalsDecide};

pub use fault::StepFault;
pub use grant::{Grant, GrantPacket, packet_bytes, read_packet};

/// Where the tables are sound, ranks fall along each route and limits stay within ceilings, every run is safe and nothing in it is
/// lost, however steps interleave, links fail and packets are lost, repeated or late.
pub fn every_run_is_safe()
    ensures safe { (t : Network) (ranks : Ranks) (traces : ℕ → List Entry) → IsChecked t → IsRanked t ranks → IsBounded t → IsRun t traces → Safe t (λ n. history (traces n)) }
    ensures covered { (t : Network) (ranks : Ranks) (traces : ℕ → List Entry) → IsChecked t → IsRanked t ranks → IsRun t traces → Covered t (λ n. history (traces n)) }
{}

/// What nodes lend each other cancels out over all of them, though grants are lost and repeated: each counts where it was taken first,
/// at one node, and less at its lender.
pub fn no_more_is_borrowed_than_was_lent()
    ensures sums { (t : Network) (traces : ℕ → List Entry) → IsChecked t → IsRun t traces → BorrowedWasLent t (λ n. history (traces n)) }
    ensures one_content { (t : Network) (traces : ℕ → List Entry) → IsChecked t → IsRun t traces → OneContent (λ n. history (traces n)) }
{}

/// Whatever the other nodes do: a node whose trace is legal approves by itself only what it is named for, within its allowances.
pub fn every_legal_trace_is_within_limits()
    ensures { (t : Network) (n : ℕ) (trace : List Entry) → IsChecked t → IsBounded t → n < length t.nodes → IsLegal t n trace → IsWithinLimits t n (history trace) }
{}

/// Of a legal trace alone: its entries are read as what was decided, and it forwards a request once. The mark of a failing key stands
/// exactly where the key fails, and its reversal is made there. What is left of a reversed own approval is decided by its reversals.
pub fn every_legal_trace_is_read()
    ensures decided { (t : Network) → IsChecked t → IsReadAsDecided t }
    ensures forwards_once { (t : Network) → IsChecked t → ForwardsOnce t }
    ensures marked { (t : Network) → IsChecked t → FailsAreMarked t }
    ensures reversed { (t : Network) → IsChecked t → FailsAreReversed t }
    ensures leave_less { (t : Network) → IsChecked t → ReversalsLeaveLess t }
    ensures decide { (t : Network) → IsChecked t → ReversalsDecide t }
{}
