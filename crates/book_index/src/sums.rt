//! Sums of amounts by card and settlement date.
ghost use Rattle.std.specs.Prelude.{◌≡◌, ◌≤◌, ◌<◌, ◌+◌, ◌-◌, ◌^◌, [], OnOk};
ghost use Rattle.crowded_map.specs.Values.{spare};
ghost use Rattle.book_index.specs.Sums.{sum_at, amount_on};

use crate::card_day::CardDay;
use crowded_map::CrowdedMap;
use std::alloc::{AllocError, Global};

/// The sum of each card and settlement date.
#[derive(Drop)]
pub struct Sums {
    pub amounts: CrowdedMap<CardDay, u128>,
}

impl Sums {
    /// All sums are 0.
    pub fn new(alloc: Global) -> Sums
        ensures { result.amounts.entries ≡ [] }
    {
        Sums {
            amounts: CrowdedMap::new(alloc),
        }
    }

    /// The next n additions need no memory.
    pub fn reserve(&mut self, n: usize) -> Result<(), AllocError>
        ensures sums { (day : CardDay) → sum_at self.new.amounts.entries day ≡ sum_at self.old.amounts.entries day }
        ensures room { OnOk result (n ≤ spare self.new.amounts) }
    {
        self.amounts.reserve(n)
    }

    /// The sum of a card and a settlement date, 0 where nothing was added.
    pub fn get(&self, day: &CardDay) -> u128
        ensures { result ≡ sum_at self.now.amounts.entries day.now }
    {
        match self.amounts.get(day) {
            Some(sum) => *sum,
            None => 0,
        }
    }

    /// An amount more.
    pub fn add(&mut self, day: CardDay, amount: u64)
        requires room { 1 ≤ spare self.old.amounts }
        requires few { sum_at self.old.amounts.entries day + amount < 2 ^ 128 }
        ensures sums { (other : CardDay) → sum_at self.new.amounts.entries other ≡ sum_at self.old.amounts.entries other + amount_on day amount other }
        ensures room { spare self.old.amounts ≤ spare self.new.amounts + 1 }
    {
        let sum = self.get(&day);
        let _ = self.amounts.insert(day, sum + amount as u128);
    }

    /// An amount less.
    pub fn lessen(&mut self, day: &CardDay, amount: u64)
        requires { amount ≤ sum_at self.old.amounts.entries day.now }
        ensures sums { (other : CardDay) → sum_at self.new.amounts.entries other ≡ sum_at self.old.amounts.entries other - amount_on day.now amount other }
        ensures room { spare self.new.amounts ≡ spare self.old.amounts }
    {
        let sum = self.get(day);
        let _ = self.amounts.replace(day, sum - amount as u128);
    }
}
