//! The streams of WebTransport sessions (draft-ietf-webtrans-http3-02): what is sent on each, and what comes on those that no other part of
//! an endpoint reads.
#![tactic(auto)]

pub mod codes;
mod front;
pub mod laws;
mod receiver;
mod sender;
mod stream;
pub mod streams;
mod turn_ids;

pub use receiver::Begun;
