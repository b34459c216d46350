//! Lines of faults.
ghost use Rattle.std.specs.Prelude.{◌≡◌, IfOk, string_bytes};
ghost use Rattle.bundle_text.specs.Lines.{table_fault_line, cert_fault_line};

use net_tables::TableFault;
use rank_cert::CertFault;
use std::alloc::{AllocError, Global};

/// The line of a fault of the tables, with its line feed.
pub fn table_fault_line(alloc: Global, fault: TableFault) -> Result<String, AllocError>
    ensures { IfOk result (λ s. string_bytes s ≡ table_fault_line fault) }
{
    format!(in alloc; "fault tables {fault}\n")
}

/// The line of a fault of the ranks, with its line feed.
pub fn cert_fault_line(alloc: Global, fault: CertFault) -> Result<String, AllocError>
    ensures { IfOk result (λ s. string_bytes s ≡ cert_fault_line fault) }
{
    format!(in alloc; "fault ranks {fault}\n")
}
