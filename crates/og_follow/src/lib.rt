//! Following code by the meaning of what it does: what it is that code carries out a doing, a law for each way in which the
//! meaning puts doings together, and how runs agree with a meaning where the start and each stimulus are answered.
//!
//! Definitions and laws alone: each function does nothing, and its contract is the law. Relations between states and
//! configurations, and sets of places, are given as tests there.
#![tactic(auto)]

pub mod laws;
pub mod trials;
