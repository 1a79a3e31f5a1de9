//! What can be read.
ghost use Rattle.std.specs.Prelude.{◌≡◌, ◌≤◌, ◌^◌};
ghost use Rattle.h3_connection.specs.Endpoint.{EndpointHistory};
ghost use Rattle.h3_connection.specs.FrameLeft.{ShowsFrameLeft};
ghost use Rattle.h3_connection.specs.Lasts.{last_id};
ghost use Rattle.h3_connection.specs.State.{StandsFor};
ghost use Rattle.h3_c.specs.Exported.{OnStream};
ghost use Rattle.h3_c.specs.Numbers.{number, ok};
ghost use Rattle.h3_c.specs.Beside.{ShowsStreamBeside};
ghost use Rattle.h3_c.specs.Showing.{ShowsConnection, ShowsSetting};

use super::Connection;
use crate::numbers::{ARGUMENT, NONE, OK, Told};
use crate::state::{ConnectionState, StreamState};
use h3_coding::varint::VarInt;
use h3_proto::frame::SettingId;
use h3_proto::stream::StreamId;

impl Connection {
    /// A stream's state. What it tells has no detail.
    pub(crate) fn stream(&self, id: u64, state: &mut StreamState) -> Told
        ensures shows { OnStream id (number result.number 0) self.now self.now ((number result.number 0 ≡ ok)
            × ShowsStreamBeside self.now id state.new) }
        ensures unwritten { 2 ^ 62 ≤ id → state.new ≡ state.old }
    {
        let Ok(id) = StreamId::try_from(id) else {
            return ARGUMENT;
        };
        *state = StreamState {
            waiting: self.sessions.waiting(&self.endpoint, id) as u64,
            unread: self.sessions.unread(&self.endpoint, id),
            has_outgoing: self.sessions.has_outgoing(&self.endpoint, id) as u32,
            is_finished: self.sessions.is_finished(&self.endpoint, id) as u32,
            is_reset: self.sessions.is_reset(&self.endpoint, id) as u32,
            tries: self.endpoint.block_tries(id) as u32,
        };
        OK
    }

    /// How many bytes of a frame's payload are still to come on a stream.
    pub(crate) fn frame_left(&self, id: u64, left: &mut u64) -> Told
        ensures shows { OnStream id result self.now self.now ((result ≡ ok) × ShowsFrameLeft self.now.endpoint id left.new) }
        ensures unwritten { 2 ^ 62 ≤ id → left.new ≡ left.old }
    {
        let Ok(id) = StreamId::try_from(id) else {
            return ARGUMENT;
        };
        *left = self.endpoint.frame_left(id);
        OK
    }

    // The id of the peer's last GOAWAY frame.
    #[tactic(auto, using(crate::proofs::Shown::last_shown))]
    fn last_goaway(&self) -> Option<VarInt>
        ensures { (e : EndpointHistory) → StandsFor self.now.endpoint e → result ≡ last_id e.peer.goaways }
    {
        self.endpoint.peer_goaways().last().copied()
    }

    /// The connection's state.
    pub(crate) fn connection(&self, state: &mut ConnectionState) -> Told
        ensures { (result ≡ ok) × ShowsConnection self.now state.new }
    {
        let tables = self.endpoint.table_size();
        let mut shown = ConnectionState {
            sending_table: tables.sending as u64,
            receiving_table: tables.receiving as u64,
            waiting_heads: self.endpoint.waiting_heads() as u64,
            sent: self.endpoint.sent(),
            goaway: 0,
            peer_table: 0,
            peer_blocked: 0,
            peer_section: 0,
            has_goaway: 0,
            has_settings: 0,
        };
        if let Some(id) = self.last_goaway() {
            shown.goaway = id.into_inner();
            shown.has_goaway = 1;
        }
        if let Some(limits) = self.endpoint.peer_limits() {
            shown.peer_table = limits.capacity;
            shown.peer_blocked = limits.blocked;
            shown.peer_section = limits.section;
            shown.has_settings = 1;
        }
        *state = shown;
        OK
    }

    /// The value of a setting that the peer announced.
    pub(crate) fn peer_setting(&self, setting: u64, value: &mut u64) -> Told
        ensures { ShowsSetting self.now setting result value.old value.new }
    {
        let Some(found) = self.endpoint.peer_setting(SettingId(setting)) else {
            return NONE;
        };
        *value = found;
        OK
    }
}
