//! Certificates: ranks of nodes at prefixes, and their text.
#![tactic(auto)]

mod cert;
mod fault;
mod page;
mod read;
mod row;
mod write;

pub use cert::Cert;
pub use fault::CertFault;
pub use rank_rows::Rank;
pub use read::read_cert;
pub use write::write_cert;
