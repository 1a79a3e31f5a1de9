//! Two endpoints that ask for strict messages, beside the same two that do not.
#![tactic(auto)]

pub mod alike;
pub mod laws;
pub mod limits;
pub mod strict;
pub mod worked;
