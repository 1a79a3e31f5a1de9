//! What happened on the connection: the peer's settings and its GOAWAY frames, each reported once.
ghost use Rattle.std.specs.Prelude.{◌≡◌, Some};
ghost use Rattle.h3_session.specs.Events.{goaway_unseen, is_reported, nothing_seen, seen_after, unseen, ReportsNext};

use super::Endpoint;
use h3_coding::varint::VarInt;

/// What `next_event` reports.
#[derive(Clone, Copy, Debug, PartialEq, Eq)]
pub enum ConnectionEvent {
    /// The peer's settings came.
    Settings,
    /// The peer's last GOAWAY frame has this id, and another one was reported before, or none.
    Goaway(VarInt),
}

/// What was reported of a connection: a caller keeps it from one `next_event` to the next.
#[derive(Clone, Copy, Debug, PartialEq, Eq)]
pub struct EventsSeen {
    settings: bool,
    // the last id
    goaway: Option<u64>,
}

impl EventsSeen {
    /// Nothing was reported.
    pub fn new() -> EventsSeen
        ensures { result ≡ nothing_seen }
    {
        EventsSeen {
            settings: false,
            goaway: None,
        }
    }

    // This event is reported too.
    fn see(&mut self, event: &ConnectionEvent)
        ensures { self.new ≡ seen_after self.old (Some event.now) }
    {
        match event {
            ConnectionEvent::Settings => self.settings = true,
            ConnectionEvent::Goaway(id) => self.goaway = Some(id.into_inner()),
        }
    }
}

impl Endpoint {
    /// What happened on the connection and was not reported yet: first the peer's settings (RFC 9114, section 7.2.4), then the id of its
    /// last GOAWAY (section 5.2). `None` if all was reported. `seen` has what was reported, this event among it. Of several GOAWAY frames
    /// the last one alone is reported, and not if the same id was before. Ask after each delivery on a unidirectional stream until it
    /// answers `None`: at most two events come. It takes no memory.
    #[tactic(auto, using(crate::proofs::Events::shows_next))]
    pub fn next_event(&self, seen: &mut EventsSeen) -> Option<ConnectionEvent>
        ensures { ReportsNext self.now seen.old seen.new result }
    {
        let has_settings = self.streams.peer.has_settings();
        let event = unseen(seen, has_settings, self.streams.peer.last_goaway())?;
        seen.see(&event);
        Some(event)
    }
}

// What comes next, by whether the settings came and by the last GOAWAY.
fn unseen(seen: &EventsSeen, has_settings: bool, goaway: Option<VarInt>) -> Option<ConnectionEvent>
    ensures { result ≡ unseen seen.now has_settings goaway }
{
    if has_settings && !seen.settings {
        return Some(ConnectionEvent::Settings);
    }
    goaway_unseen(seen.goaway, goaway)
}

// The last GOAWAY, if another id was reported or none.
fn goaway_unseen(reported: Option<u64>, goaway: Option<VarInt>) -> Option<ConnectionEvent>
    ensures { result ≡ goaway_unseen reported goaway }
{
    let Some(id) = goaway else {
        return None;
    };
    if is_reported(reported, id.into_inner()) {
        return None;
    }
    Some(ConnectionEvent::Goaway(id))
}

// Whether this id was reported last.
fn is_reported(reported: Option<u64>, id: u64) -> bool
    ensures { result ≡ is_reported reported id }
{
    match reported {
        Some(earlier) => earlier == id,
        None => false,
    }
}
