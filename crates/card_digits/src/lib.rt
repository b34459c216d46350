//! Card numbers, prefixes, names, amounts, settlement dates and keys, and the bytes that they are read from and written to.
#![tactic(auto)]

mod amount;
mod card;
mod cutting;
mod date_label;
mod key;
mod lines;
mod name;
mod placed;
mod prefix;
mod printed;
mod short_bytes;
mod stream;
mod words;

pub use amount::{Amount, LinkNo, MOST_AMOUNT, MOST_LINKS, MOST_NODES, NodeNo, decimal};
pub use card::{Card, DigitFault, begins, begins_class, luhn, luhn_text};
pub use cutting::cut;
pub use date_label::DateLabel;
pub use key::{Key, pad11};
pub use lines::first_line;
pub use name::{Id, Name};
pub use placed::put;
pub use prefix::Prefix;
pub use short_bytes::{ShortBytes, all_digits};
pub use stream::{Counted, ReadFault, Sink, Source, WriteFault, write_all};
pub use words::same_bytes;
