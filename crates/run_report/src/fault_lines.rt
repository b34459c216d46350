//! Lines of the faults of a plan and of its run.
ghost use Rattle.std.specs.Prelude.{◌≡◌, IfOk, string_bytes};
ghost use Rattle.run_report.specs.FaultLines.{plan_fault_line, run_fault_line};

use crate::text_run::RunFault;
use run_plan::PlanFault;
use std::alloc::{AllocError, Global};

/// The line of a fault of a plan, with its line feed.
pub fn plan_fault_line(alloc: Global, fault: PlanFault) -> Result<String, AllocError>
    ensures { IfOk result (λ s. string_bytes s ≡ plan_fault_line fault) }
{
    match fault {
        PlanFault::Line(line) => format!(in alloc; "fault plan 1 line {line}\n"),
        PlanFault::Acquirer(line) => format!(in alloc; "fault plan 2 acquirer {line}\n"),
        PlanFault::NoEnd => format!(in alloc; "fault plan 3 no end\n"),
        PlanFault::Memory => format!(in alloc; "fault plan 4 memory\n"),
    }
}

/// The line of the fault for which a plan has no report, with its line feed.
pub fn run_fault_line(alloc: Global, fault: RunFault) -> Result<String, AllocError>
    ensures { IfOk result (λ s. string_bytes s ≡ run_fault_line fault) }
{
    match fault {
        RunFault::Plan(fault) => plan_fault_line(alloc, fault),
        RunFault::Threads => format!(in alloc; "fault run 1 threads\n"),
        RunFault::Memory => format!(in alloc; "fault run 2 memory\n"),
    }
}
