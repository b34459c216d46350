//! What is wrong with the text of a certificate.
ghost use Rattle.std.specs.Prelude.{◌≡◌, Some};
ghost use Rattle.rank_cert.specs.declared.fault.CertFault.TheVariants.{Memory};

use std::alloc::AllocError;
use std::error::Error;
use std::fmt;

/// The first fault in the order of the text. Lines count from 1.
#[derive(Clone, Copy, Debug, PartialEq, Eq)]
pub enum CertFault {
    /// The first line isn't `RANKS 1`.
    Header,
    /// The line isn't a node's name, a prefix and a rank.
    Line(usize),
    /// The line has the node and the prefix of an earlier one.
    Twice(usize),
    /// No line `END`.
    NoEnd,
    /// Something behind the line `END`.
    AfterEnd,
    Memory,
}

/// Its number, what it is and at which line.
impl fmt::Display for CertFault {
    ghost use Rattle.rank_cert.specs.Words.{fault_text};

    ghost output = { λ fault. Some (fault_text fault) };

    fn fmt<W: fmt::Write>(&self, f: &mut fmt::Formatter<W>) -> fmt::Result {
        match self {
            CertFault::Header => f.write_str("1 header"),
            CertFault::Line(number) => write!(f, "2 line {number}"),
            CertFault::Twice(number) => write!(f, "3 twice {number}"),
            CertFault::NoEnd => f.write_str("4 no end"),
            CertFault::AfterEnd => f.write_str("5 after end"),
            CertFault::Memory => f.write_str("6 memory"),
        }
    }
}

impl Error for CertFault {}

impl From<AllocError> for CertFault {
    ghost from_gives = { λ _ e. e ≡ Memory };

    fn from(_e: AllocError) -> CertFault {
        CertFault::Memory
    }
}
