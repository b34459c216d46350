//! Answers to requests.

use card_digits::Key;

/// An answer to the request of a key.
#[derive(Clone, Copy)]
pub(crate) struct Answered {
    pub key: Key,
    /// Whether its code is 00.
    pub approves: bool,
    /// Whether it is the node's own, and not the host's or one that came by a link.
    pub alone: bool,
}
