//! The jobs of `card_switch`, the codec of messages and a node for programs in C, as `include/card_switch.h` declares them.
#![tactic(auto)]

mod jobs;
mod messages;
mod node;
mod status;
