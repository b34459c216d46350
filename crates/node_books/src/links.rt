//! The links of a node.
ghost use Rattle.std.specs.Prelude.{◌≡◌, ◌+◌, ◌<◌, ◌≤◌, ◌^◌, suc, [], ◌∷◌, ◌++◌, true, replicate, IfOk};
ghost use Rattle.node_machine.specs.Counts.{PutsAreWithin};
ghost use Rattle.node_machine.specs.Lists.{link_at, with_up, with_put, fresh};
ghost use Rattle.node_books.specs.Ways.{links_by};

use card_digits::LinkNo;
use kept_messages::Way;
use std::alloc::{AllocError, Global};
use std::marker::Model;

/// A link: whether it is up, and how often the node put on it.
#[derive(Drop)]
pub struct LinkState {
    up: bool,
    serial: u64,
}

impl Model for LinkState {
    ghost use Rattle.node_machine.specs.Lists.{LinkState};

    ghost Value = { LinkState };

    ghost view = { λ s. record { up = s.up; serial = s.serial } };
}

impl LinkState {
    /// Whether the link is up.
    pub fn is_up(&self) -> bool
        ensures { result ≡ self.now.up }
    {
        self.up
    }

    /// The serial of the last put, which is their number; 0 where there was none.
    pub fn serial(&self) -> u64
        ensures serial { result ≡ self.now.serial }
    {
        self.serial
    }

    fn set_up(&mut self, up: bool)
        ensures { self.new ≡ record { up = up; serial = self.old.serial } }
    {
        self.up = up;
    }

    fn put(&mut self)
        requires { self.old.serial + 1 < 2 ^ 64 }
        ensures { self.new ≡ record { up = self.old.up; serial = suc self.old.serial } }
    {
        self.serial += 1;
    }
}

/// The links by their numbers, on none of which was put more than 2^62 times.
#[derive(Drop)]
pub struct Links {
    states: Vec<LinkState>,
}

impl Model for Links {
    ghost use Rattle.std.specs.Prelude.{List, ◌^◌};
    ghost use Rattle.node_machine.specs.Counts.{PutsAreWithin};
    ghost use Rattle.node_machine.specs.Lists.{LinkState};

    ghost Value = { List LinkState };

    ghost view = { λ b. b.states.items };

    ghost invariant = { λ b. PutsAreWithin (2 ^ 62) b.states.items };
}

#[tactic(auto, using(crate::proofs::Fresh::fresh_more))]
fn fresh_links(alloc: Global, n: usize) -> Result<Vec<LinkState>, AllocError>
    ensures { IfOk result (λ v. v.items ≡ replicate n fresh) }
{
    let mut states = Vec::new(alloc);
    for i in 0..n {
        states.push(LinkState {
            up: true,
            serial: 0,
        })?;
    }
    Ok(states)
}

fn set_up(links: &mut [LinkState], l: LinkNo, up: bool)
    ensures { links.new ≡ with_up l up links.old }
{
    let l = l.place();
    if l < links.len() {
        links[l].set_up(up);
    }
}

fn put_on(links: &mut [LinkState], l: LinkNo)
    requires { (link_at links.old l).serial + 1 < 2 ^ 64 }
    ensures { links.new ≡ with_put l links.old }
{
    let l = l.place();
    if l < links.len() {
        links[l].put();
    }
}

impl Links {
    /// Links that are up, and on which nothing was put.
    #[tactic(auto, using(node_machine::proofs::Puts::fresh_within))]
    pub fn new(alloc: Global, n: usize) -> Result<Links, AllocError>
        ensures { IfOk result (λ b. b ≡ replicate n fresh) }
    {
        let states = fresh_links(alloc, n)?;
        Ok(Links { states })
    }

    /// The link came up or went down.
    #[tactic(auto, using(node_machine::proofs::Puts::up_within))]
    pub fn set_up(&mut self, l: LinkNo, up: bool)
        ensures { self.new ≡ with_up l up self.old }
    {
        set_up(self.states.as_mut_slice(), l, up);
    }

    /// The node put once more on the link.
    pub fn put(&mut self, l: LinkNo)
        requires few { PutsAreWithin (2 ^ 62) (with_put l self.old) }
        ensures { self.new ≡ with_put l self.old }
    {
        put_on(self.states.as_mut_slice(), l);
    }

    /// What an output that goes this way does.
    pub fn after(&mut self, way: Way)
        requires few { PutsAreWithin (2 ^ 62) (links_by way self.old) }
        ensures { self.new ≡ links_by way self.old }
    {
        if let Way::Put(link, _) = way {
            self.put(link);
        }
    }

    /// The links by their numbers, on none of which was put more than 2^62 times.
    pub fn states(&self) -> &[LinkState]
        ensures states { result.now ≡ self.now }
        ensures few { PutsAreWithin (2 ^ 62) result.now }
    {
        self.states.as_slice()
    }
}
