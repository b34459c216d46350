//! The places of requests that wait.
ghost use Rattle.std.specs.Prelude.{◌≡◌, IfOk, filter_map};
ghost use Rattle.std.specs.List.Sorted.{IsNonDecreasing, IsPermutation};
ghost use Rattle.request_slots.specs.Kept.{place_if, place_in};
ghost use Rattle.request_slots.specs.Waits.{is_of};

use crate::wait::Wait;
use card_digits::Card;
use std::alloc::{AllocError, Global};
use tick_wheel::{SlotId, Wheel};

/// The places of the requests in these slots.
pub(crate) fn places_of(
    alloc: Global,
    wheel: &Wheel<Wait>,
    slots: &[SlotId],
) -> Result<Vec<usize>, AllocError>
    ensures { IfOk result (λ places. places.items ≡ filter_map (place_in wheel.now.slots) slots.now) }
{
    let mut places = Vec::new(alloc);
    for slot in slots {
        if let Some(wait) = wheel.get(*slot) {
            places.push(wait.place)?;
        }
    }
    Ok(places)
}

/// The places of the requests of a card in these slots.
pub(crate) fn places_of_card(
    alloc: Global,
    wheel: &Wheel<Wait>,
    slots: &[SlotId],
    card: &Card,
) -> Result<Vec<usize>, AllocError>
    ensures { IfOk result (λ places. places.items ≡ filter_map (place_if (is_of card.now) wheel.now.slots) slots.now) }
{
    let mut places = Vec::new(alloc);
    for slot in slots {
        if let Some(wait) = wheel.get(*slot) {
            if wait.is_of(card) {
                places.push(wait.place)?;
            }
        }
    }
    Ok(places)
}

/// The same places in opening order. Nearly always they stand so already.
pub(crate) fn in_order(places: Vec<usize>) -> Vec<usize>
    ensures same { IsPermutation places.items result.items }
    ensures sorted { IsNonDecreasing result.items }
{
    let mut sorted = places;
    sorted.as_mut_slice().sort_unstable();
    sorted
}
