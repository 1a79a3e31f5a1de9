//! The unidirectional streams of one endpoint (RFC 9114, section 6.2; RFC 9204, section 4.2): its local control, encoder and
//! decoder stream, and all of the peer's. Each is a part by itself, and each call an equation with a function on that part.
#![tactic(auto)]

pub mod control;
pub mod decoding;
pub mod encoding;
mod further;
mod limits;
mod other_settings;
pub mod own;
pub mod plain;
pub mod stream;
mod updates;
pub mod waiting;
