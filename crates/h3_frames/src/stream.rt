//! Frames of a message as bytes that are to be sent.

mod head;
mod message_buf;

pub use head::Head;
pub use message_buf::MessageBuf;
