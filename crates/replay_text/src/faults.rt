//! Lines of a script's faults.
ghost use Rattle.std.specs.Prelude.{◌≡◌, IfOk, string_bytes};
ghost use Rattle.replay_text.specs.Lines.{decode_fault_text, step_fault_text, script_fault_line};

use message_elements::DecodeFault;
use net_replay::ReplayFault;
use network_law::StepFault;
use std::alloc::{AllocError, Global};

/// The number of a fault of a message, and the element that it names.
fn decode_fault_text(alloc: Global, fault: DecodeFault) -> Result<String, AllocError>
    ensures { IfOk result (λ s. string_bytes s ≡ decode_fault_text fault) }
{
    match fault {
        DecodeFault::Short => format!(in alloc; "1"),
        DecodeFault::BadType => format!(in alloc; "2"),
        DecodeFault::BitMap => format!(in alloc; "3"),
        DecodeFault::Element(element) => format!(in alloc; "4 {element}"),
        DecodeFault::Length(element) => format!(in alloc; "5 {element}"),
        DecodeFault::Character(element) => format!(in alloc; "6 {element}"),
        DecodeFault::Trailing => format!(in alloc; "7"),
        DecodeFault::Memory => format!(in alloc; "8"),
    }
}

/// The number of a refusal, with the fault or the element that it is about.
fn step_fault_text(alloc: Global, fault: StepFault) -> Result<String, AllocError>
    ensures { IfOk result (λ s. string_bytes s ≡ step_fault_text fault) }
{
    match fault {
        StepFault::Decode(fault) => {
            let fault = decode_fault_text(alloc, fault)?;
            format!(in alloc; "1 {fault}")
        }
        StepFault::ForeignAcquirer => format!(in alloc; "2"),
        StepFault::Missing(element) => format!(in alloc; "3 {element}"),
        StepFault::TypeNotForGate => format!(in alloc; "4"),
        StepFault::UnknownAsk => format!(in alloc; "5"),
        StepFault::Replacement => format!(in alloc; "6"),
        StepFault::HistoryFull => format!(in alloc; "7"),
        StepFault::Memory => format!(in alloc; "8"),
        StepFault::NoPlace => format!(in alloc; "9"),
        StepFault::NotLent => format!(in alloc; "10"),
    }
}

/// The line of a step that is refused.
fn refused_line(alloc: Global, line: usize, fault: StepFault) -> Result<String, AllocError>
    ensures { IfOk result (λ s. string_bytes s ≡ script_fault_line (ReplayFault.Step line fault)) }
{
    let number = step_fault_text(alloc, fault)?;
    format!(in alloc; "fault script 3 step {line} {number}\n")
}

/// The line of a fault of a script, with its line feed.
pub fn script_fault_line(alloc: Global, fault: ReplayFault) -> Result<String, AllocError>
    ensures { IfOk result (λ s. string_bytes s ≡ script_fault_line fault) }
{
    match fault {
        ReplayFault::Line(line) => format!(in alloc; "fault script 1 line {line}\n"),
        ReplayFault::NoSuchPacket(line) => {
            format!(in alloc; "fault script 2 no such packet {line}\n")
        }
        ReplayFault::Step(line, fault) => refused_line(alloc, line, fault),
        ReplayFault::Memory => format!(in alloc; "fault script 4 memory\n"),
    }
}
