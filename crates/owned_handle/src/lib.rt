// A box as its pointer, and what a handle owns that a C program has: a pointer to a box, or null.
#![tactic(auto)]

pub mod loose;
