//! The rows of slots and of heads.
ghost use Rattle.std.specs.Prelude.{◌≡◌, ◌≢◌, ◌≤◌, ◌<◌, ◌-◌, ◌++◌, IsOk, OnOk, OnErr, length, replicate};
ghost use Rattle.std.specs.Vec.{vec_len};
ghost use Rattle.chain_links.specs.Lists.{none, slot_if, with_first, with_last, with_next, with_prev};

use std::alloc::AllocError;

/// Says that there is no slot, or no head.
pub(crate) const NONE: u32 = u32::MAX;

/// The slots before and after a slot in its list, and the head of the list.
#[derive(Clone, Copy)]
pub(crate) struct Slot {
    pub prev: u32,
    pub next: u32,
    pub home: u32,
}

impl Slot {
    /// A slot in no list.
    pub const LOOSE: Slot = Slot {
        prev: NONE,
        next: NONE,
        home: NONE,
    };
}

/// The first and the last slot of a list, and the number of its slots.
#[derive(Clone, Copy)]
pub(crate) struct Head {
    pub first: u32,
    pub last: u32,
    pub count: u32,
}

impl Head {
    /// A head whose list has no slots.
    pub const BARE: Head = Head {
        first: NONE,
        last: NONE,
        count: 0,
    };
}

/// The slot of a number, if there is one.
pub(crate) fn slot_if(slot: u32) -> Option<u32>
    ensures { result ≡ slot_if slot }
{
    if slot == NONE { None } else { Some(slot) }
}

/// Adds rows at the end, so that there are so many. None is changed without memory for all.
pub(crate) fn lengthen<T: Copy>(rows: &mut Vec<T>, total: usize, blank: T) -> Result<(), AllocError>
    ensures ok { OnOk result (rows.new.items ≡ rows.old.items ++ replicate (total - length rows.old.items) blank) }
    ensures err { OnErr result (rows.new.items ≡ rows.old.items) }
    ensures succeeds { total ≤ length rows.old.items → IsOk result }
{
    let more = total.saturating_sub(rows.len());
    rows.reserve(more)?;
    for _ in 0..more {
        rows.push_reserved(blank);
    }
    Ok(())
}

/// The rows of slots and of heads.
#[derive(Drop)]
pub(crate) struct Rows {
    pub slots: Vec<Slot>,
    pub heads: Vec<Head>,
}

impl Rows {
    /// Puts a slot after another one in the list of a head, or at its front.
    pub fn set_next(&mut self, head: u32, slot: u32, next: u32)
        requires head { head < length self.old.heads.items }
        requires slot { slot ≢ none → slot < length self.old.slots.items }
        ensures slots { self.new.slots.items ≡ with_next self.old.slots.items slot next }
        ensures heads { self.new.heads.items ≡ with_first self.old.heads.items head slot next }
    {
        if slot == NONE {
            self.heads[head as usize].first = next;
        } else {
            self.slots[slot as usize].next = next;
        }
    }

    /// Puts a slot before another one in the list of a head, or at its end.
    pub fn set_prev(&mut self, head: u32, slot: u32, prev: u32)
        requires head { head < length self.old.heads.items }
        requires slot { slot ≢ none → slot < length self.old.slots.items }
        ensures slots { self.new.slots.items ≡ with_prev self.old.slots.items slot prev }
        ensures heads { self.new.heads.items ≡ with_last self.old.heads.items head slot prev }
    {
        if slot == NONE {
            self.heads[head as usize].last = prev;
        } else {
            self.slots[slot as usize].prev = prev;
        }
    }
}
