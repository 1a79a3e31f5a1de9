//! A connection is shut down (RFC 9114, section 5.2).
ghost use Rattle.std.specs.Prelude.{◌≡◌, ◌<◌, ◌^◌, is_some, IfSome};
ghost use Rattle.h3_connection.specs.Answers.{call_refused};
ghost use Rattle.h3_connection.specs.ReadingContracts.{Shows};
ghost use Rattle.h3_connection.specs.SendingContracts.{DoesOrRefuses};
ghost use Rattle.h3_connection.specs.Shutdown.{above_greatest, are_done, are_seen_below, bounded, goaway_once, is_control_taken, is_named};
ghost use Rattle.h3_connection.specs.Shutdown.{is_rejected_in, last_taken, notice_id, takes_no_more, GivesNotice, ShowsDrained};
ghost use Rattle.h3_connection.specs.Shutdown.{ShowsFirstUnseen, ShowsRejected, ShutsDown};
ghost use Rattle.h3_connection.specs.State.{kept_at};

use super::Endpoint;
use super::sending::is_server;
use h3_coding::varint::VarInt;
use h3_connection::event::Refusal;
use h3_proto::stream::{Side, StreamId};

/// The greatest id of a stream that a client opens both ways.
const GREATEST_REQUEST: u64 = (1 << 62) - 4;

impl Endpoint {
    /// Tells the peer that the connection will be shut down, while all that it sends meanwhile is taken. By a server it is a GOAWAY with
    /// 2^62 - 4, and by a client one with 2^62 - 1 (RFC 9114, section 5.2). After a round trip `shutdown` follows. If an earlier GOAWAY was
    /// sent it is `Ok`, and nothing is written. Refused as `goaway` is.
    pub fn shutdown_notice(&mut self) -> Result<(), Refusal>
        ensures { GivesNotice self.old self.new result }
    {
        let id = notice_id(self.side);
        self.goaway_once(id)
    }

    /// Takes no more: a server sends a GOAWAY with the first id that was not seen (`first_unseen`). A client, which takes no push, sends
    /// one with 0 (RFC 9114, section 5.2). If an earlier GOAWAY names that id or a lower one it is `Ok`, and nothing is written. Refused as
    /// `goaway` is, and `IdsUsedUp` if each id was seen and no GOAWAY was sent: none is left to name.
    pub fn shutdown(&mut self) -> Result<(), Refusal>
        ensures { ShutsDown self.old self.new result }
    {
        let id = self.last_taken();
        self.goaway_once(id)
    }

    /// The first id of a request stream above all that were seen: from there on no request was processed (RFC 9114, section 5.2). 0 if none
    /// was seen. It takes no memory, and looks at the streams under way, and mostly at one that is over.
    pub fn first_unseen(&self) -> u64
        ensures { ShowsFirstUnseen self.now result }
    {
        above_greatest(self.requests.greatest())
    }

    /// Whether the request on this stream is rejected (RFC 9114, sections 4.1.1 and 5.2). The endpoint has to be a server that asks for it
    /// (`Config::with_requests_rejected`), and the connection to have no fault. The stream has to be a request stream from the id of the
    /// last GOAWAY of this server on, of which nothing was seen. Ask before each delivery on such a stream. If it is so deliver nothing,
    /// and end the stream both ways in QUIC (RESET_STREAM and STOP_SENDING) with H3_REQUEST_REJECTED. No delivery asks by itself.
    pub fn is_rejected(&self, id: StreamId) -> bool
        ensures stored { result ≡ is_rejected_in self.now id }
        ensures shown { ShowsRejected self.now id result }
    {
        self.rejects(id)
    }

    // The same, by what is stored.
    fn rejects(&self, id: StreamId) -> bool
        ensures { result ≡ is_rejected_in self.now id }
    {
        self.announced.choices.extensions.requests_rejected
            && self.closed.is_none()
            && is_server(self.side)
            && self.names(id.into_inner())
            && id.into_inner() % 4 == 0
            && !self.requests.contains(id)
    }

    /// Whether nothing is left to be done, so that the connection can be closed without losing a request (RFC 9114, section 5.2). No
    /// request is to come: a server saw each request below the last id that it named, and to a client its server sent a GOAWAY. Each
    /// stream was pulled to its end or given up; sending on it has ended, all bytes were taken, and `end_taken` said so of its end. And the
    /// GOAWAY was taken. A caller that never calls `end_taken` (it goes by `next_waiting` alone) sees no connection drained on which a
    /// message was finished. What is drained stays so until another GOAWAY is sent, if a server's caller leaves out what `is_rejected`
    /// names (law `drained_stays`). It takes no memory, and looks at the streams under way alone.
    pub fn is_drained(&self) -> bool
        ensures { ShowsDrained self.now result }
    {
        if !self.takes_no_more() {
            return false;
        }
        self.are_done() && self.control_is_taken()
    }

    // Goes away, unless an earlier GOAWAY names this id or a lower one.
    fn goaway_once(&mut self, id: u64) -> Result<(), Refusal>
        ensures goes { DoesOrRefuses (λ e. goaway_once e id) self.old self.new (call_refused result) }
        ensures fits { IfSome self.old.last_goaway (λ earlier. earlier < 2 ^ 62) }
    {
        let is_named = self.names(id);
        if let Some(code) = self.closed {
            return Err(Refusal::Closed(code));
        }
        if is_named {
            return Ok(());
        }
        let Ok(id) = VarInt::from_u64(id) else {
            return Err(Refusal::IdsUsedUp);
        };
        self.goaway(id)
    }

    // Whether an earlier GOAWAY names this id, or a lower one.
    fn names(&self, id: u64) -> bool
        ensures value { result ≡ is_named self.now.last_goaway id }
        ensures fits { IfSome self.now.last_goaway (λ earlier. earlier < 2 ^ 62) }
    {
        match self.last_goaway {
            Some(earlier) => earlier.into_inner() <= id,
            None => false,
        }
    }

    // What the last GOAWAY names.
    fn last_taken(&self) -> u64
        ensures { Shows (λ e. bounded (last_taken e.side e)) self.now result }
    {
        match self.side {
            Side::Client => 0,
            Side::Server => self.first_unseen(),
        }
    }

    // Whether no request is still to come.
    fn takes_no_more(&self) -> bool
        ensures { Shows (λ e. takes_no_more e.side e) self.now result }
    {
        match self.side {
            Side::Client => self.streams.peer.last_goaway().is_some(),
            Side::Server => self.has_seen_all(),
        }
    }

    // Whether each request was seen that is below the last GOAWAY of this server.
    fn has_seen_all(&self) -> bool
        ensures { result ≡ are_seen_below self.now.last_goaway (λ id. is_some (kept_at self.now.requests id)) }
    {
        match self.last_goaway {
            Some(goaway) => self.requests.has_all_below(goaway.into_inner()),
            None => false,
        }
    }

    // Whether each request stream is done with.
    fn are_done(&self) -> bool
        ensures { Shows are_done self.now result }
    {
        match self.requests.unfinished() {
            Some(_) => false,
            None => true,
        }
    }

    // Whether nothing waits on the local control stream.
    fn control_is_taken(&self) -> bool
        ensures { Shows is_control_taken self.now result }
    {
        self.streams.own.control.len() == 0
    }
}

// The first id above the greatest.
fn above_greatest(greatest: Option<u64>) -> u64
    ensures { result ≡ bounded (above_greatest greatest) }
{
    match greatest {
        Some(id) => id.saturating_add(4),
        None => 0,
    }
}

// What the first GOAWAY of two names.
fn notice_id(side: Side) -> u64
    ensures { result ≡ notice_id side }
{
    match side {
        Side::Client => VarInt::MAX.into_inner(),
        Side::Server => GREATEST_REQUEST,
    }
}
