//! A frame at its place in a message (RFC 9114, sections 4.1 and 7.2).
ghost use Rattle.std.specs.Prelude.{◌≡◌, true, false, [], None};
ghost use Rattle.std.specs.List.{concat};
ghost use Rattle.h3_frames.specs.Frames.{frame_by};
ghost use Rattle.h3_frames.specs.Known.{IsWaiting, refusal};
ghost use Rattle.h3_qpack.specs.DecoderState.{DecoderState};
ghost use Rattle.h3_connection.specs.Codes.{excessive_load, refusal_code};
ghost use Rattle.h3_connection.specs.declared.event.Fault.TheVariants.{Connection};
ghost use Rattle.h3_connection.specs.declared.lists.ListPull.TheVariants as answer;
ghost use Rattle.h3_connection.specs.Pulling.{at_session, is_memory, just, next_frame, between_frames};
ghost use Rattle.h3_connection.specs.Lists.{list_of, pull_of};
ghost use Rattle.h3_incoming.specs.Looking.{BeginsSection};
ghost use Rattle.h3_connection.specs.StrictConnection.{kinds_of};
ghost use Rattle.h3_connection.specs.Incoming.{Incoming};
ghost use Rattle.h3_incoming.specs.Gives.{Gives};
ghost use Rattle.h3_incoming.specs.Resuming.{Resumes};
ghost use Rattle.h3_incoming.specs.Placing.{is_session};

use super::IncomingStream;
use super::begun::Begun;
use super::front::{Found, front};
use crate::answer::Plain;
use crate::block::BlockPull;
use h3_connection::event::{Fault, Malformation};
use h3_connection::place::Place;
use h3_connection::setup::Announced;
use h3_frames::frame::{FrameBuffer, FrameProtocolError};
use h3_proto::error::Code;
use h3_proto::frame::SettingsError;
use h3_proto::stream::{Side, StreamId};
use h3_proto::webtransport::SessionId;
use std::alloc::Global;

/// A session begins in this place, unless its id is that of no request stream and the endpoint asks for that.
fn begin_session(place: &mut Place, announced: &Announced, session: SessionId, out: &mut BlockPull)
    ensures is { (i : Incoming)
        → at_session announced.now (record i { place = place.old }) session ≡ just (pull_of out.new) (record i { place = place.new }) }
    ensures told { is_memory (pull_of out.new) ≡ false }
    ensures none { list_of out.new ≡ None }
{
    if announced.is_no_session(session.into_inner()) {
        return out.fail(Fault::Connection(Code::H3_ID_ERROR));
    }
    *place = Place::InSession;
    out.give(Plain::Session(session))
}

impl IncomingStream {
    /// The next frame that gives something, at its place; or the end. If it is a field section, nothing is answered, and the result is true:
    /// the section stands in the stream.
    #[tactic(auto, using(crate::proofs::SomePieces::some_rest))]
    pub(super) fn begin_frame(
        &mut self,
        alloc: Global,
        side: Side,
        announced: &Announced,
        id: StreamId,
        replies: &mut Vec<u8>,
        out: &mut BlockPull,
    ) -> bool
        requires closed { self.old.body_left ≡ 0 }
        requires open { self.old.fault ≡ None }
        requires none { self.old.section ≡ None }
        requires goes_on { self.old.is_over ≡ false }
        requires message { is_session self.old.place ≡ false }
        requires waits { self.old.waits_for ≡ 0 }
        ensures answer { result ≡ false → is_memory (pull_of out.new) ≡ false → (r : DecoderState)
            → Gives (between_frames side announced.now id r self.old)
            (pull_of out.new) self.new replies.old.items replies.new.items }
        ensures memory { result ≡ false → is_memory (pull_of out.new) ≡ true → Resumes announced.now self.old self.new
            × (replies.new.items ≡ replies.old.items) }
        ensures none { result ≡ false → list_of out.new ≡ None }
        ensures section { result ≡ true → BeginsSection side announced.now id self.old self.new × (replies.new.items ≡ replies.old.items) }
    {
        // nothing is there of a frame: so ends most of what is pulled
        if self.unread.len() == 0 {
            self.pull_end(alloc, id, replies, out);
            return false;
        }
        match front(
            &mut self.unread,
            alloc,
            side,
            self.place,
            self.content,
            announced,
        ) {
            Err(_) => {
                out.fail(Fault::Memory);
                false
            }
            Ok(Found::Unfinished) => {
                self.pull_end(alloc, id, replies, out);
                false
            }
            Ok(Found::Refused(e)) => {
                out.fail(Fault::Connection(refused_code(e)));
                false
            }
            Ok(Found::LongSection) => {
                self.refuse_message(alloc, id, Malformation::TooLong, replies, out);
                false
            }
            Ok(Found::Excessive) => {
                self.refuse_excess(alloc, out);
                false
            }
            Ok(Found::Begun(begun)) => match begun {
                Begun::Section(section) => {
                    self.section = Some(section);
                    self.waits_for = 0;
                    true
                }
                Begun::Payload(size) => {
                    let behind = self.content.left_behind(size as u64);
                    self.body_left = size;
                    self.content = behind;
                    self.pull_payload(alloc, id, replies, out);
                    false
                }
                Begun::Session(session) => {
                    begin_session(&mut self.place, announced, session, out);
                    false
                }
                Begun::Fault(code) => {
                    out.fail(Fault::Connection(code));
                    false
                }
            },
        }
    }

    // A frame that is no field section is longer than what the endpoint takes. What came is freed.
    #[inline(never)]
    fn refuse_excess(&mut self, alloc: Global, out: &mut BlockPull)
        ensures stream { self.new ≡ record self.old { unread = [] } }
        ensures is { out.new ≡ answer.Fault (Connection excessive_load) }
    {
        self.unread = FrameBuffer::new(alloc);
        out.fail(Fault::Connection(Code::H3_EXCESSIVE_LOAD))
    }

    // No frame is whole, for what the endpoint announced.
    fn pull_end(&mut self, alloc: Global, id: StreamId, replies: &mut Vec<u8>, out: &mut BlockPull)
        ensures answer { (side : Side) (own : Announced) (r : DecoderState) → IsWaiting (frame_by (kinds_of own) (concat self.old.unread))
            → is_memory (pull_of out.new) ≡ false
            → Gives (next_frame side own id r self.old (concat self.old.unread))
            (pull_of out.new) self.new replies.old.items replies.new.items }
        ensures memory { is_memory (pull_of out.new) ≡ true → (self.new ≡ self.old) × (replies.new.items ≡ replies.old.items) }
        ensures none { list_of out.new ≡ None }
    {
        if !self.ended {
            out.pause();
            return;
        }
        if self.unread.len() > 0 {
            out.fail(Fault::Connection(Code::H3_FRAME_ERROR));
            return;
        }
        if let Place::BeforeHead = self.place {
            return self.refuse_message(alloc, id, Malformation::NoHead, replies, out);
        }
        if !self.content.may_end() {
            return self.refuse_message(alloc, id, Malformation::ContentLength, replies, out);
        }
        self.finish(alloc, out)
    }
}

// The code of a frame that is refused wherever it stands.
fn refused_code(error: FrameProtocolError) -> Code
    ensures { result ≡ refusal_code (refusal error) }
{
    match error {
        FrameProtocolError::ForbiddenFrame(_) => Code::H3_FRAME_UNEXPECTED,
        FrameProtocolError::Settings(SettingsError::Malformed) => Code::H3_FRAME_ERROR,
        FrameProtocolError::Settings(_) => Code::H3_SETTINGS_ERROR,
        FrameProtocolError::Malformed
        | FrameProtocolError::InvalidFrameValue
        | FrameProtocolError::InvalidStreamId(_)
        | FrameProtocolError::InvalidPushId(_) => Code::H3_FRAME_ERROR,
    }
}
