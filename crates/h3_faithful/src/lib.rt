//! What two programs get of each other, in every setup, with memory refused or not: the statement by events and answers, and its world.
#![tactic(auto)]

pub mod laws;
pub mod worked;
