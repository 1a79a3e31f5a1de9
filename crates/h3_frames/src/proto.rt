//! The frames of HTTP/3, and the ids, stream types, error codes and settings that come with them.
pub mod frame;

pub use h3_proto::{config, error, push, stream, webtransport};
