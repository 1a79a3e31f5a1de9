//! The sender's part of a request stream (RFC 9114, section 4.1): the order of a message, and the frames that wait to be taken.
#![tactic(auto)]

mod block;
mod copying;
mod frame;
mod frames;
mod held;
pub mod outgoing;
mod room;
mod section;

pub use outgoing::OutgoingStream;
pub use room::FrameRoom;
pub use section::EncodedSection;
