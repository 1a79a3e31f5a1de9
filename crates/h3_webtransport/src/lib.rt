//! Sessions of WebTransport over an endpoint of HTTP/3 (draft-ietf-webtrans-http3-02).
#![tactic(auto)]

pub mod laws;
mod opening;
mod sessions;

pub use opening::OpenError;
pub use sessions::Sessions;
