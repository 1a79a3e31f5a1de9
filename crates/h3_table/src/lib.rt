//! The parts of a dynamic table (RFC 9204, section 3.2), the lower layer of `h3_qpack`: its entries, the indexes that find
//! them, and the sections that hold them. Their joint rules stand in `h3_qpack`.
#![tactic(auto)]

pub mod alone;
pub mod blocking;
mod byte_queue;
pub mod canceled_streams;
pub mod entries;
mod field_queue;
mod further;
pub mod index;
mod places;
pub mod sections;
mod slices;
pub mod stream_set;
pub mod tracking;
mod words;
