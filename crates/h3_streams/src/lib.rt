//! The unidirectional streams of one endpoint, taken together (RFC 9114, section 6.2; RFC 9204, section 4.2): those of the peer with their
//! readers, both QPACK ends, and the local streams.
#![tactic(auto)]

mod arriving;
pub mod ids;
mod learning;
pub mod left;
mod map;
pub mod peer_streams;
mod plain;
mod readers;
mod roles;
pub mod streams;
mod unread;
