//! What happened on the connection, each reported once.
ghost use Rattle.std.specs.Prelude.{◌≡◌};
ghost use Rattle.h3_c.specs.Events.{event_kind, event_number, ReportsEvent};

use super::Connection;
use crate::numbers::{NONE, OK, Told};
use h3_session::ConnectionEvent;

impl Connection {
    /// What happened on the connection and was not reported yet.
    pub(crate) fn next_event(&mut self, kind: &mut u32, number: &mut u64) -> Told
        ensures does { ReportsEvent self.old self.new result kind.old kind.new number.old number.new }
        ensures sessions { self.new.sessions ≡ self.old.sessions }
    {
        let Some(event) = self.endpoint.next_event(&mut self.events) else {
            return NONE;
        };
        *kind = event_kind(&event);
        *number = event_number(&event);
        OK
    }
}

// Its number in `enum h3_event`.
fn event_kind(event: &ConnectionEvent) -> u32
    ensures { result ≡ event_kind event.now }
{
    match event {
        ConnectionEvent::Settings => 1,
        ConnectionEvent::Goaway(_) => 2,
    }
}

// The number that stands beside it: the id that a GOAWAY names.
fn event_number(event: &ConnectionEvent) -> u64
    ensures { result ≡ event_number event.now }
{
    match event {
        ConnectionEvent::Settings => 0,
        ConnectionEvent::Goaway(id) => id.into_inner(),
    }
}
