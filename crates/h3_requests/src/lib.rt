//! The request streams of a connection (RFC 9114, section 4.1), each both ways, by their ids. Each call changes one part of one
//! stream, and leaves the other streams as they are.
#![tactic(auto)]

mod boxed;
mod class;
mod greatest;
mod lesser;
mod map;
mod over;
mod ready;
mod room;
mod spare;
pub mod stream;
pub mod streams;
mod under_way;
mod waiting;

pub use room::SectionRoom;
pub use stream::RequestStream;
pub use streams::RequestStreams;
