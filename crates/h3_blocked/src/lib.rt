//! How many request streams wait for insertions into the dynamic table (RFC 9204, section 2.1.2), without a look at each of them. The
//! required insert counts that they wait for stand in order, each with how many streams wait for it. A stream that waits for nothing has a
//! count of 0, which is not kept.
#![tactic(auto)]

pub mod counts;

pub use counts::Blocked;
