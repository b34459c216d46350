//! What bad links do with packets.
ghost use Rattle.std.specs.Prelude.{◌≡◌, [], replicate, IfOk};
ghost use Rattle.run_plan.specs.Faults.{is_multiple, fate, is_repeated, faults_of, sound};
ghost use Rattle.run_plan.specs.Plans.{lose, delay, repeat};

use card_digits::LinkNo;
use std::alloc::{AllocError, Global};

/// Packets whose serial is a multiple of `every` are held for so many turns of the taking pump, 1 to 4,000.
#[derive(Clone, Copy, Debug, PartialEq, Eq)]
pub struct Delay {
    pub every: u16,
    pub turns: u16,
}

/// What a link does in either direction. A number stands for the packets whose serial is a multiple of it, and 0 for none.
#[derive(Clone, Copy, Debug, PartialEq, Eq)]
pub struct LinkFaults {
    pub lose: Option<u16>,
    pub delay: Option<Delay>,
    pub repeat: Option<u16>,
}

/// What becomes of a packet that comes out of a ring.
#[derive(Clone, Copy, Debug, PartialEq, Eq)]
pub enum Fate {
    Lost,
    /// Held for so many turns, and then taken.
    Held(u16),
    Taken,
}

/// The faults of all links.
#[derive(Debug, Drop)]
pub struct Faults {
    /// In the order of the tables. Links behind the last have no faults.
    pub links: Vec<LinkFaults>,
}

/// A link without faults.
pub(crate) const SOUND: LinkFaults = LinkFaults {
    lose: None,
    delay: None,
    repeat: None,
};

fn is_multiple(serial: u64, every: Option<u16>) -> bool
    ensures { result ≡ is_multiple serial every }
{
    match every {
        Some(every) => every != 0 && serial % every as u64 == 0,
        None => false,
    }
}

impl LinkFaults {
    /// The faults with this one too. None where there is one of its kind.
    pub(crate) fn with_lose(self, every: u16) -> Option<LinkFaults>
        ensures { result ≡ lose every self }
    {
        match self.lose {
            Some(_) => None,
            None => Some(LinkFaults {
                lose: Some(every),
                ..self
            }),
        }
    }

    pub(crate) fn with_delay(self, new: Delay) -> Option<LinkFaults>
        ensures { result ≡ delay new self }
    {
        match self.delay {
            Some(_) => None,
            None => Some(LinkFaults {
                delay: Some(new),
                ..self
            }),
        }
    }

    pub(crate) fn with_repeat(self, every: u16) -> Option<LinkFaults>
        ensures { result ≡ repeat every self }
    {
        match self.repeat {
            Some(_) => None,
            None => Some(LinkFaults {
                repeat: Some(every),
                ..self
            }),
        }
    }

    /// A lost packet is lost, whatever else fits it.
    pub fn fate(&self, serial: u64) -> Fate
        ensures { result ≡ fate self.now serial }
    {
        if is_multiple(serial, self.lose) {
            return Fate::Lost;
        }
        if let Some(delay) = self.delay {
            if is_multiple(serial, Some(delay.every)) {
                return Fate::Held(delay.turns);
            }
        }
        Fate::Taken
    }

    /// Whether a packet that isn't lost is taken twice, one time after the other.
    pub fn is_repeated(&self, serial: u64) -> bool
        ensures { result ≡ is_repeated self.now serial }
    {
        is_multiple(serial, self.repeat)
    }
}

impl Faults {
    /// No link has faults. Takes no memory.
    pub fn none(alloc: Global) -> Faults
        ensures { result.links.items ≡ [] }
    {
        Faults {
            links: Vec::new(alloc),
        }
    }

    /// So many links, none with faults yet.
    pub(crate) fn sound(alloc: Global, count: usize) -> Result<Faults, AllocError>
        ensures { IfOk result (λ f. f.links.items ≡ replicate count sound) }
    {
        let links = vec![in alloc; SOUND; count]?;
        Ok(Faults { links })
    }

    /// The faults of a link; none where the plan names none.
    pub fn of(&self, link: LinkNo) -> LinkFaults
        ensures { result ≡ faults_of self.now.links.items link }
    {
        match self.links.get(link.place()) {
            Some(faults) => *faults,
            None => SOUND,
        }
    }
}
