//! What the books are after changes that are gone through one by one.
ghost use Rattle.std.specs.Prelude.{◌≡◌, ◌≤◌, ◌<◌, ◌+◌, ◌^◌, length, get_or};
ghost use Rattle.node_books.specs.declared.effect.Effect.{Effect};
ghost use Rattle.entry_changes.specs.SoFar.{link_from, forward_from, advice_from, advice_step, count_from};

use card_digits::{Key, LinkNo};
use message_keys::{AdviceId, same_identity, same_key};
use node_books::Effect;

/// Whether a link is up, and its last serial.
#[derive(Clone, Copy, Debug)]
pub struct LinkAfter {
    pub up: bool,
    pub serial: u64,
}

/// Whether a request of a key came, and the link on which it was put.
#[derive(Clone, Copy, Debug)]
pub struct Forwarding {
    pub there: bool,
    pub link: Option<LinkNo>,
}

/// Whether an advice is known, is stored, and was put while it was stored.
#[derive(Clone, Copy, Debug)]
pub struct AdviceState {
    pub known: bool,
    pub stored: bool,
    pub put: bool,
}

/// A link after the changes.
pub(crate) fn link_after(effects: &[Effect], link: LinkNo, before: LinkAfter) -> LinkAfter
    requires { before.serial ≤ 2 ^ 62 }
    ensures state { record { up = result.up; serial = result.serial } ≡ link_from link effects.now (record { up = before.up; serial = before.serial }) }
    ensures few { result.serial ≤ before.serial + length effects.now }
{
    let mut up = before.up;
    let mut serial = before.serial;
    for effect in effects {
        match effect {
            Effect::Sent(output) => {
                if output.is_put_on(link) {
                    serial += 1;
                }
            }
            Effect::PacketSent(other, _, _) => {
                if *other == link {
                    serial += 1;
                }
            }
            Effect::LinkIs(other, now) => {
                if *other == link {
                    up = *now;
                }
            }
            _ => {}
        }
    }
    LinkAfter { up, serial }
}

/// A key's request after the changes.
pub(crate) fn forwarded_after(effects: &[Effect], key: Key, before: Forwarding) -> Forwarding
    ensures { result ≡ forward_from key effects.now before }
{
    let mut there = before.there;
    let mut link = before.link;
    for effect in effects {
        match effect {
            Effect::Sent(output) => {
                if there && link.is_none() {
                    link = output.forwards(key);
                }
            }
            Effect::Opened(row) => {
                if !there && same_key(row.key(), key) {
                    there = true;
                    link = row.link();
                }
            }
            _ => {}
        }
    }
    Forwarding { there, link }
}

/// An advice after one change.
pub(crate) fn advice_step(effect: &Effect, id: AdviceId, before: AdviceState) -> AdviceState
    ensures { result ≡ advice_step id effect.now before }
{
    let mut state = before;
    match effect {
        Effect::Sent(output) => state.put = state.put || (state.stored && output.puts_advice(id)),
        Effect::Kept(advice) => {
            if same_identity(advice.id(), id) && !state.known {
                state.known = true;
                state.put = state.put || (!advice.home() && advice.put());
                state.stored = state.stored || !advice.home();
            }
        }
        Effect::Acknowledged(other) => {
            if same_identity(id, *other) {
                state.stored = false;
                state.put = false;
            }
        }
        _ => {}
    }
    state
}

/// An advice after the change at this place alone.
pub(crate) fn advice_at(
    effects: &[Effect],
    place: usize,
    id: AdviceId,
    before: AdviceState,
) -> AdviceState
    requires { place < length effects.now }
    ensures { (d : Effect) → result ≡ advice_step id (get_or effects.now place d) before }
{
    advice_step(&effects[place], id, before)
}

/// An advice after the changes.
pub(crate) fn advice_after(effects: &[Effect], id: AdviceId, before: AdviceState) -> AdviceState
    ensures { result ≡ advice_from id effects.now before }
{
    let mut state = before;
    for effect in effects {
        state = advice_step(effect, id, state);
    }
    state
}

/// The number of ticks after the changes.
pub(crate) fn count_after(effects: &[Effect], count: u64) -> u64
    requires { count ≤ 2 ^ 62 }
    ensures { result ≡ count_from effects.now count }
{
    let mut ticks = count;
    for effect in effects {
        if let Effect::Ticked = effect {
            ticks += 1;
        }
    }
    ticks
}
