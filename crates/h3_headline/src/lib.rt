//! Two endpoints with the bytes between them stand in a world of the definitions, after every schedule.
#![tactic(auto)]

pub mod laws;
pub mod parts;
