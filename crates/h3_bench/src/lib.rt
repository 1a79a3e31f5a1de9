//! What `bench/` measures, for C: each export does one kind of work a number of times over what the caller passes.
//!
//! Contracts here promise safety only. What the work gives is what the called crates prove; the driver compares
//! the counts and the bytes.
#![tactic(auto)]

mod endpoints;
mod ends;
mod exchange;
mod frames;
mod header;
mod huffman;
mod input;
mod judge;
mod output;
mod report;
mod section;
mod session;
mod varint;
mod wire;
mod within;
