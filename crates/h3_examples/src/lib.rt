//! Short callers of the crates, which the gate proves, and runs in `h3_cases`: what they print stands at the end of its file `stdout`.
#![tactic(auto)]

mod endpoints;
mod frames;
mod lists;
mod log;
mod reading;
mod refusals;
mod schedule;
mod session;
mod stateless;
mod table;

use std::alloc::{AllocError, Global};

/// Every example in turn, and what each prints.
pub fn all(alloc: Global, text: &mut String) -> Result<(), AllocError> {
    frames::decode_in_pieces(alloc, text)?;
    frames::count_tries(alloc, text)?;
    stateless::response(alloc, text)?;
    session::round_trip(alloc, text)?;
    reading::in_pieces(alloc, text)?;
    reading::at_once(alloc, text)?;
    refusals::of_limits(alloc, text)?;
    refusals::of_an_acknowledgment(alloc, text)?;
    table::inserts_in_the_shortest_way(alloc, text)?;
    table::finds(alloc, text)?;
    schedule::decodes_what_came(alloc, text)?;
    schedule::gives_a_stream_up(alloc, text)?;
    schedule::refuses_limits(alloc, text)?;
    endpoints::client_and_server(alloc, text)
}
