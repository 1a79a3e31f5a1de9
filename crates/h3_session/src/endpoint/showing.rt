//! What can be read of an endpoint.
ghost use Rattle.std.specs.Prelude.{◌≡◌, option_copied};
ghost use Rattle.h3_connection.specs.OwnIds.{is_own};
ghost use Rattle.h3_connection.specs.ReadingContracts.{ShowsOutgoing, ShowsFinished, ShowsReset, ShowsSettings, ShowsPeerSetting};
ghost use Rattle.h3_connection.specs.ReadingContracts.{ShowsGoaways, ShowsSizes, ShowsHeads, HeadsAreBounded, ShowsSent, ShowsTries};
ghost use Rattle.h3_connection.specs.ReadingContracts.{TriesAreBounded, ShowsLimits};
ghost use Rattle.h3_session.specs.Frames.{LendsFrames};

use super::Endpoint;
use h3_coding::varint::VarInt;
use h3_connection::event::{PeerLimits, TableSizes};
use h3_frames::frame::FrameBuffer;
use h3_proto::frame::{SettingId, Settings};
use h3_proto::stream::{Side, StreamId};

impl Endpoint {
    /// Whether anything can be sent on a stream: it is a local unidirectional one, or a request stream that was opened.
    pub fn has_outgoing(&self, id: StreamId) -> bool
        ensures { ShowsOutgoing self.now id result }
    {
        is_own(self.side, id) || self.sender(id).is_some()
    }

    /// Whether the message on a stream was finished.
    pub fn is_finished(&self, id: StreamId) -> bool
        ensures { ShowsFinished self.now id result }
    {
        match self.sender(id) {
            Some(stream) => stream.is_finished(),
            None => false,
        }
    }

    /// Whether sending on a stream was reset.
    pub fn is_reset(&self, id: StreamId) -> bool
        ensures { ShowsReset self.now id result }
    {
        match self.sender(id) {
            Some(stream) => stream.is_reset(),
            None => false,
        }
    }

    /// The peer's settings, once they came.
    pub fn peer_settings(&self) -> Option<&Settings>
        ensures { ShowsSettings self.now (option_copied result) }
    {
        self.streams.peer.settings()
    }

    /// The value of a setting that the peer announced. One without a meaning here is kept if `Config::with_other_settings` asks for it.
    pub fn peer_setting(&self, id: SettingId) -> Option<u64>
        ensures { ShowsPeerSetting self.now id result }
    {
        self.streams.peer.setting(id)
    }

    /// The ids of the peer's GOAWAY frames, in order. If `kept_ids` of the choices limits the ids that are kept, it is the last one alone.
    pub fn peer_goaways(&self) -> &[VarInt]
        ensures { ShowsGoaways self.now result.now }
    {
        self.streams.peer.goaways()
    }

    /// What the peer's settings allow, once they came: the capacity of its table in bytes, how many streams may wait, and the
    /// greatest size of a field section in bytes.
    pub fn peer_limits(&self) -> Option<PeerLimits>
        ensures { ShowsLimits self.now result }
    {
        let settings = self.peer_settings()?;
        Some(PeerLimits {
            capacity: settings
                .get(SettingId::QPACK_MAX_TABLE_CAPACITY)
                .unwrap_or(0),
            blocked: settings
                .get(SettingId::QPACK_MAX_BLOCKED_STREAMS)
                .unwrap_or(0),
            section: settings
                .get(SettingId::MAX_HEADER_LIST_SIZE)
                .unwrap_or(VarInt::MAX.into_inner()),
        })
    }

    /// The sizes of both dynamic tables (RFC 9204, section 3.2.1), in bytes.
    pub fn table_size(&self) -> TableSizes
        ensures { ShowsSizes self.now result }
    {
        TableSizes {
            sending: self.streams.encoding.encoder().table_size(),
            receiving: self.streams.decoding.decoder().table_size(),
        }
    }

    /// How many streams wait for insertions: no more than the endpoint announced.
    #[tactic(auto, using(crate::proofs::Taking::shows_heads))]
    pub fn waiting_heads(&self) -> usize
        ensures value { ShowsHeads self.now result }
        ensures bound { HeadsAreBounded self.now result }
    {
        let inserted = self.streams.decoding.decoder().inserted();
        self.requests.waiting(inserted)
    }

    /// What was given to be sent: the bytes of names, values and bodies, and 64 for each field and each call.
    pub fn sent(&self) -> u64
        ensures { ShowsSent self.now result }
    {
        self.sent
    }

    /// How often the field section that is next on a stream was tried, else the last one: at most twice.
    pub fn block_tries(&self, id: StreamId) -> u8
        ensures value { ShowsTries self.now id result }
        ensures bound { TriesAreBounded result }
    {
        self.requests.tries(id)
    }

    /// The bytes that came and were not read, of a request stream that is there or of the peer's control stream. Their `tries` say how
    /// often the type and length of the frame under way were tried, or else those of the last frame that was read there. It is at most 17
    /// times, and 0 before the first. A try does not count that ends out of memory or at a frame that is refused.
    pub fn frames(&self, id: StreamId) -> Option<&FrameBuffer>
        ensures { LendsFrames self.now id (option_copied result) }
    {
        if let Some(frames) = self.streams.control_frames(id) {
            return Some(frames);
        }
        self.requests.frames(id)
    }
}

/// Whether an id is that of the control, encoder or decoder stream of this side.
fn is_own(side: Side, id: StreamId) -> bool
    ensures { result ≡ is_own side id }
{
    let control = match side {
        Side::Client => 2,
        Side::Server => 3,
    };
    let number = id.into_inner();
    number == control || number == control + 4 || number == control + 8
}
