//! Frames, and bytes that come in pieces.
#![tactic(auto)]

pub mod buf;
pub mod frame;
pub mod laws;
pub mod proto;
pub mod quic;
pub mod stream;
