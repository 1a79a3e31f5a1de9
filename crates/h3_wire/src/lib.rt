//! Streams of frames, of a source that gives bytes in pieces.
#![tactic(auto)]

pub mod frame;
pub mod laws;
pub mod quic;
pub mod stream;

pub use h3_frames::{buf, proto};
