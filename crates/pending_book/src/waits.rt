//! How long requests wait.
ghost use Rattle.std.specs.Prelude.{◌≡◌, ◌+◌, slice_index_or};
ghost use Rattle.pending_book.specs.Waits.{is_over, waits_by};

use crate::row::Row;
use card_digits::LinkNo;
use std::marker::Model;

/// For how many ticks a request waits for its answer on each link, by the link's number, and for the host.
#[derive(Debug, Drop)]
pub struct Waits {
    links: Vec<u16>,
    host: u16,
}

impl Model for Waits {
    ghost use Rattle.pending_book.specs.Waits.{WaitsView};

    ghost Value = { WaitsView };

    ghost view = { λ w. record { links = w.links.items; host = w.host } };
}

impl Waits {
    /// These numbers of ticks.
    pub fn new(links: Vec<u16>, host: u16) -> Waits
        ensures { result ≡ record { links = links.items; host = host } }
    {
        Waits { links, host }
    }

    /// The number of ticks for each link.
    pub fn links(&self) -> &[u16]
        ensures { result.now ≡ self.now.links }
    {
        self.links.as_slice()
    }

    /// The number of ticks for the host.
    pub fn host(&self) -> u16
        ensures { result ≡ self.now.host }
    {
        self.host
    }

    /// The number of ticks for a link, 0 where it has none.
    fn on_link(&self, link: LinkNo) -> u16
        ensures { result ≡ slice_index_or self.now.links link 0 }
    {
        match self.links.get(link.place()) {
            Some(ticks) => *ticks,
            None => 0,
        }
    }

    /// For how many ticks a request waits that was put on this link, or was asked of the host.
    pub fn of(&self, link: Option<LinkNo>, asked: bool) -> Option<u16>
        ensures { result ≡ waits_by self.now link asked }
    {
        match link {
            Some(link) => Some(self.on_link(link)),
            None if asked => Some(self.host),
            None => None,
        }
    }

    /// Whether a request is pending, and its time is over one tick after this count of ticks.
    pub(crate) fn is_over(&self, row: &Row, count: u64) -> bool
        ensures { result ≡ is_over self.now (count + 1) row.now }
    {
        let Some(ticks) = self.of(row.link(), row.asked()) else {
            return false;
        };
        // Neither sum is beyond 128 bits.
        row.is_open() && row.count() as u128 + ticks as u128 == count as u128 + 1
    }
}
