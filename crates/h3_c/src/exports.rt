//! What C calls (`include/h3.h`). Each call on an endpoint takes a handle that an earlier one wrote, and writes the handle for the next.

mod capsules;
mod closing;
mod datagrams;
mod ending;
mod events;
mod further;
mod heads;
mod items;
mod kinds;
mod making;
mod ordering;
mod outgoing;
mod priority;
mod reading;
mod receiving;
mod remembered;
mod sending;
mod sessions;
mod showing;
mod shutdown;
mod unblocked;
mod version;
