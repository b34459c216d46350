//! Tests of what threads do beside each other: networks that were meddled with, rings that nobody pumps, hosts that overlap, and sleepers that are
//! told. Where a sleeper isn't woken, all sleep in the end, and turns pass: so these tests end by themselves, and find too many turns.
#![tactic(auto)]

#[cfg(test)]
mod network;
#[cfg(test)]
mod overlapping;
#[cfg(test)]
mod rings;
#[cfg(test)]
mod verdicts;
#[cfg(test)]
mod waking;
