//! One endpoint of an HTTP/3 connection for C: `include/h3.h` says what each call does.
//!
//! A handle is one pointer. An export takes it by value and writes it back; the header does this in one name.
#![tactic(auto)]

mod capsules;
mod config;
mod connection;
mod copied;
mod exports;
mod fields;
mod handle;
mod items;
mod laws;
mod loose;
mod numbers;
mod owned;
mod rows;
mod state;
mod worked;
