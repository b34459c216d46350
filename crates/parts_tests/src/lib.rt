//! Tests of parts that are not seen from outside: the book of limits, the store of advices, the book of requests, and a node that is told to lend
//! nothing. Nothing is promised of these functions.
#![tactic(auto)]

#[cfg(test)]
mod advices;
#[cfg(test)]
mod lending;
#[cfg(test)]
mod limits;
#[cfg(test)]
mod requests;
