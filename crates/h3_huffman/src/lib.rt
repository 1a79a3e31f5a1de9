//! The Huffman code of string literals (RFC 7541, section 5.2 and appendix B).
#![tactic(auto)]

mod byte_words;
pub mod decode;
pub mod encode;
pub mod laws;
mod tables;
