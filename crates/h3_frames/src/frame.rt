//! Frames off a buffer of bytes.

mod buffer;
mod decoder;
mod errors;
mod excess;
mod first;
mod frame_left;
mod kinds;
mod let_go;
mod other_settings;
mod sparing;

pub use buffer::FrameBuffer;
pub use decoder::{FrameDecoder, MessageFrame};
pub use errors::{FrameProtocolError, FrameStreamError};
pub use kinds::FrameKinds;
