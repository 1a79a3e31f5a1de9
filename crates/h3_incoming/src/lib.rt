//! A request stream at its receiver (RFC 9114, section 4): what came on it, and how much of its message was returned. What a pull answers
//! rests on this stream, the decoder's table and what was announced alone.
#![tactic(auto)]

pub mod answer;
pub mod block;
pub mod body_place;
pub mod header_slot;
mod judge;
pub mod malformed;
mod replies;
mod section;
pub mod stream;
mod strict;

pub use block::{BlockPull, Told};
pub use body_place::BodyPlace;
pub use header_slot::HeaderSlot;
pub use stream::IncomingStream;
