//! What is wrong with a printed trace.
ghost use Rattle.std.specs.Prelude.{◌≡◌, Some, IfOk, string_bytes};
ghost use Rattle.trace_view.specs.declared.fault.LineFault.TheVariants.{Memory};
ghost use Rattle.trace_view.specs.Faults.{trace_fault_line};

use std::alloc::{AllocError, Global};
use std::error::Error;
use std::fmt;

/// What is wrong with a line of a trace.
#[derive(Clone, Copy, Debug, PartialEq, Eq)]
pub enum LineFault {
    /// It is neither a number and a node, nor two spaces and what a node puts out.
    Malformed,
    /// The tables have no node of that name.
    UnknownNode,
    /// The tables have no link of that name at the node.
    UnknownLink,
    /// What went out stands below no line with a node.
    NoNode,
    /// What went out, or what was entered, is no message.
    NoMessage,
    /// The script has no line of that number which speaks of the node.
    NotInScript,
    Memory,
}

/// Its number and what it is.
impl fmt::Display for LineFault {
    ghost use Rattle.trace_view.specs.Faults.{line_fault_text};

    ghost output = { λ fault. Some (line_fault_text fault) };

    fn fmt<W: fmt::Write>(&self, f: &mut fmt::Formatter<W>) -> fmt::Result {
        f.write_str(match self {
            LineFault::Malformed => "1 malformed",
            LineFault::UnknownNode => "2 unknown node",
            LineFault::UnknownLink => "3 unknown link",
            LineFault::NoNode => "4 no node",
            LineFault::NoMessage => "5 no message",
            LineFault::NotInScript => "6 not in script",
            LineFault::Memory => "7 memory",
        })
    }
}

impl Error for LineFault {}

impl From<AllocError> for LineFault {
    ghost from_gives = { λ _ e. e ≡ Memory };

    fn from(_e: AllocError) -> LineFault {
        LineFault::Memory
    }
}

/// The first line that has a fault. Lines count from 1.
#[derive(Clone, Copy, Debug, PartialEq, Eq)]
pub struct TraceFault {
    pub fault: LineFault,
    pub line: usize,
}

impl fmt::Display for TraceFault {
    ghost use Rattle.trace_view.specs.Faults.{trace_fault_text};

    ghost output = { λ fault. Some (trace_fault_text fault) };

    fn fmt<W: fmt::Write>(&self, f: &mut fmt::Formatter<W>) -> fmt::Result {
        let fault = self.fault;
        let line = self.line;
        write!(f, "{fault} line {line}")
    }
}

impl Error for TraceFault {}

/// The line of a fault of a trace, with its line feed.
pub(crate) fn trace_fault_line(alloc: Global, fault: TraceFault) -> Result<String, AllocError>
    ensures { IfOk result (λ s. string_bytes s ≡ trace_fault_line fault) }
{
    format!(in alloc; "fault trace {fault}\n")
}
