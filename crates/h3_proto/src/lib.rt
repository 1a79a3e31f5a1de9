//! The ids, stream types, error codes and settings of HTTP/3.
#![tactic(auto)]

pub mod config;
pub mod error;
pub mod frame;
pub mod further;
pub mod laws;
pub mod other_settings;
pub mod push;
pub mod remembered;
pub mod stream;
pub mod webtransport;
