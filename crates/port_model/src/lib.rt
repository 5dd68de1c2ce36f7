//! What concerns one port of a switch of all that happens, its view, and what a switch with this port alone answers to it;
//! with the laws that what other computers do is no part of either.
#![tactic(auto)]

pub mod descriptors;
pub mod laws;
pub mod polled;
