//! Rounds of turns: which stream sends next (RFC 9218, section 10).
#![tactic(auto)]

pub mod laws;
pub mod round;
