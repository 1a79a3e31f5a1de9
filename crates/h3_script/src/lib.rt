//! Scripts of what a client and a server do, and the lines of what comes of it.
#![tactic(auto)]

pub mod digits;
pub mod error;
mod head;
pub mod input;
pub mod laws;
pub mod line;
pub mod output;
mod pieces;
pub mod script;
pub mod text;
mod words;
