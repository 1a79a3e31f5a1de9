//! Which stream sends next (RFC 9218, section 10): what is known for it of a request stream, and of a connection.
ghost use Rattle.std.specs.Prelude.{◌≡◌, ◌≤◌};
ghost use Rattle.h3_connection.specs.Order.{gives_way, rank};

use h3_priority::priority::Priority;
use h3_scheduler::round::Rounds;

/// Who said the priority of a stream. What a later one of these says counts before what an earlier one does.
#[derive(Clone, Copy, Debug, PartialEq, Eq)]
pub enum PrioritySource {
    /// Nobody.
    Unsaid,
    /// The `priority` field of its request (RFC 9218, section 5).
    Field,
    /// A PRIORITY_UPDATE frame (RFC 9218, section 7.2).
    Update,
    /// The endpoint itself (RFC 9218, section 8).
    Own,
}

impl PrioritySource {
    /// Its number, 0 to 3. Of what is said that counts first whose number is greatest.
    pub fn rank(self) -> u8
        ensures value { result ≡ rank self }
        ensures few { result ≤ 3 }
    {
        match self {
            PrioritySource::Unsaid => 0,
            PrioritySource::Field => 1,
            PrioritySource::Update => 2,
            PrioritySource::Own => 3,
        }
    }

    /// Whether what this one said gives way to what the other one says now.
    pub fn gives_way(self, now: PrioritySource) -> bool
        ensures { result ≡ gives_way self now }
    {
        self.rank() <= now.rank()
    }
}

/// What goes before what: the priority of a request stream at its sender, and whether it is skipped.
#[derive(Clone, Copy, Debug, PartialEq, Eq)]
pub struct Precedence {
    /// How urgent it is, and whether it is of use in parts.
    pub priority: Priority,
    /// Who said so.
    pub source: PrioritySource,
    /// QUIC has no credit for it.
    pub is_held: bool,
}

/// What a connection knows of turns beside its request streams.
#[derive(Clone, Copy)]
pub struct SendOrder {
    /// Of each urgency the round of its streams. It is `None` until a priority is set: no stream takes turns with another until then.
    pub rounds: Option<Rounds>,
    /// QUIC has no credit for the local control stream.
    pub control_is_held: bool,
    /// QUIC has no credit for the local encoder stream.
    pub encoder_is_held: bool,
    /// QUIC has no credit for the local decoder stream.
    pub decoder_is_held: bool,
}
