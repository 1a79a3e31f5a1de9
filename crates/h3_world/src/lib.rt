//! A client and a server, the bytes between them, and what may come of every event: the definitions that the headline is said with.
#![tactic(auto)]

pub mod event;
pub mod laws;
pub mod lists;
pub mod setup;
pub mod worked;
pub mod worked_ends;
