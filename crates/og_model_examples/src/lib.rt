//! Models as trees with what they show, computed from the meaning of a model. Each function does nothing, and its contract
//! says what the model shows for the start and for each stimulus.
#![tactic(auto, unfolding(og_model::proofs::Computing::trees))]

pub mod accepted;
pub mod data;
pub mod nested;
pub mod numbers;
pub mod procedures;
pub mod sizes;
pub mod states;
pub mod stimuli;
