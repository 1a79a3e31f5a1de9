//! The definitions of one endpoint of an HTTP/3 connection (RFC 9114, RFC 9204). They say what it is, and what each call does to it, for
//! any bytes and any order of calls. The types of its answers stand here too.
#![tactic(auto)]

pub mod arrival;
pub mod event;
pub mod laws;
pub mod lists;
pub mod order;
pub mod place;
pub mod setup;
