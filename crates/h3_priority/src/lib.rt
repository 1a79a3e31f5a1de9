//! Priorities of responses (RFC 9218).
#![tactic(auto)]

mod characters;
mod cursor;
mod dictionary;
pub mod examples;
mod item;
pub mod laws;
pub mod priority;
