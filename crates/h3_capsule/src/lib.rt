//! Capsules, and what stands in front of the payload of HTTP Datagrams (RFC 9297).
#![tactic(auto)]

pub mod capsule;
pub mod datagram;
pub mod head_bytes;
pub mod laws;
