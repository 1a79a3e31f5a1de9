//! The header sections and trailers that an endpoint sends.
ghost use Rattle.std.specs.Prelude.{◌≡◌, ◌≢◌, ◌<◌, ◌≤◌, ◌+◌, ◌^◌, ℕ, List, Some, None, IfOk, IfErr, IfSome, IfNone, OnOk, OnErr, drop};
ghost use Rattle.std.specs.Prelude.{length, unwrap_or, if◌then◌else◌};
ghost use Rattle.h3_field.specs.Field.{Field, section_size};
ghost use Rattle.h3_qpack.specs.EncoderHistory.{EncoderHistory};
ghost use Rattle.h3_qpack.specs.EncoderState.{encoder_state};
ghost use Rattle.h3_streams.specs.Placed.{StreamsState};
ghost use Rattle.h3_connection.specs.Remembering.{settings_known};
ghost use Rattle.h3_connection.specs.Answers.{call_refused};
ghost use Rattle.h3_connection.specs.Calls.{AllSame};
ghost use Rattle.h3_connection.specs.Endpoint.{EndpointHistory};
ghost use Rattle.h3_connection.specs.Pulling.{is_interim};
ghost use Rattle.h3_connection.specs.Refusals.{is_too_large, or_later};
ghost use Rattle.h3_connection.specs.Sending.{fields_cost};
ghost use Rattle.h3_connection.specs.SendingContracts.{SendsHead, SendsTrailer, CutsOff};
ghost use Rattle.h3_connection.specs.State.{StandsFor, kept_at};
ghost use Rattle.h3_connection.specs.declared.event.Refusal.TheVariants.{OutOfMemory};
ghost use Rattle.h3_connection.specs.declared.place.SendPlace.TheVariants.{TrailerSent};
ghost use Rattle.h3_requests.specs.Refused.{body_refused_at, early_trailer_at};
ghost use Rattle.h3_session.specs.Refused.{broken_behind, head_refused_in, size_refused, refused_behind};
ghost use Rattle.h3_session.specs.SendingFields.{Encodes, StopsEncoding, Queues, Remembers, SendsFields, IsJudged, asking};
ghost use Rattle.h3_session.specs.SentHeads.{IsReadAt, IsSaid};

use super::Endpoint;
use super::strict::{head_section, header_refusal};
use crate::laws::heads_are_sent_as_their_lists;
use h3_coding::varint::VarInt;
use h3_connection::event::Refusal;
use h3_connection::place::SendPlace;
use h3_field::{Fields, section_size};
use h3_header::Header;
use h3_messages::{Judgment, Said, Section};
use h3_outgoing::EncodedSection;
use h3_proto::frame::SettingId;
use h3_proto::stream::StreamId;
use h3_qpack::laws::sections_leave_their_counts;
use h3_requests::SectionRoom;
use h3_streams::streams::ConnectionStreams;
use http::StatusCode;
use std::alloc::AllocError;
use std::mem;

/// A field seldom takes more bytes of a section: one of the static table takes 1, and a value with a name of it often 10 to 30.
const SHORT_FIELD: usize = 32;

/// So many fields have room at first, at most.
const MANY_FIELDS: usize = 64;

/// No section of so many bytes fits into memory.
const SIZE_LIMIT: u64 = 1 << 62;

impl Endpoint {
    /// Sends a header section on a stream: an encoded field section in a HEADERS frame (RFC 9114, section 4.3), and its insertions on the
    /// encoder stream. One with a status from 100 to 199 is not the last one. Refused are first every call after a connection fault, then a
    /// stream that is not open, then one whose final header section or end was sent. A client that asks for a strict connection then
    /// refuses each, once the peer's GOAWAY came. Next is a header section with another protocol than the two names of `Protocol`, unless
    /// the configuration takes any (`Config::with_any_protocol`), and then one of the other side's messages. An endpoint that asks for
    /// strict messages then refuses one that a strict peer would call malformed. Last is one whose size is above what the peer's settings
    /// allow. If an allocation fails the encoder stream may have gained whole instructions, and the stream is as it was.
    pub fn send_head(&mut self, id: StreamId, head: &Header) -> Result<(), Refusal>
        ensures { SendsHead self.old self.new id head.now result }
    {
        if let Some(code) = self.closed {
            return Err(Refusal::Closed(code));
        }
        let section = head_section(self.side);
        if let Some(later) = header_refusal(&self.announced, section, head) {
            return Err(self.refusal_of_head(id, later));
        }
        let Ok(fields) = head.fields(self.alloc) else {
            return Err(self.refusal_of_head(id, Refusal::OutOfMemory));
        };
        // (for the proof: its list goes out as it does)
        heads_are_sent_as_their_lists(head);
        self.send_head_list(id, &Fields::of(fields.as_slice()))
    }

    // Room for the frame of a header section on a stream that takes one, unless the peer is going away. The streams are found as they were.
    pub(super) fn reserve_head(&mut self, id: StreamId) -> Result<SectionRoom, Refusal>
        ensures room { IfOk result (λ room. room ≡ id) }
        ensures rest { self.new ≡ record self.old { requests = self.new.requests } }
        ensures taken { OnOk result (head_refused_in self.old id ≡ None) }
        ensures why { IfErr result (λ r. r ≡ unwrap_or (head_refused_in self.old id) OutOfMemory) }
        ensures same { AllSame self.old.requests self.new.requests }
    {
        let going = self.going_refusal();
        self.requests.reserve_head(id, going)
    }

    /// Sends a trailer on a stream, as `send_head` sends a header section, and ends the message's fields. Refused are first every call
    /// after a connection fault, then a stream that is not open. Next is one whose final header section was not sent, or whose trailer or
    /// end was, then a trailer with a pseudo-header field. An endpoint that asks for strict messages then refuses a trailer after less
    /// content than the header section said, or in a tunnel. It also refuses one that a strict peer would call malformed. Last is one whose
    /// size is above what the peer's settings allow.
    pub fn send_trailer(&mut self, id: StreamId, trailer: &Header) -> Result<(), Refusal>
        ensures { SendsTrailer self.old self.new id trailer.now result }
    {
        if let Some(code) = self.closed {
            return Err(Refusal::Closed(code));
        }
        if let Some(later) = header_refusal(&self.announced, Section::Trailer, trailer) {
            return Err(self.refusal_of_trailer(id, later));
        }
        let Ok(fields) = trailer.fields(self.alloc) else {
            return Err(self.unlisted_refusal(id));
        };
        // (for the proof: its list goes out as it does)
        heads_are_sent_as_their_lists(trailer);
        self.send_trailer_list(id, &Fields::of(fields.as_slice()))
    }

    // Why a trailer is refused of whose fields no list could be made.
    fn unlisted_refusal(&mut self, id: StreamId) -> Refusal
        ensures rest { self.new ≡ record self.old { requests = self.new.requests } }
        ensures why { result ≡ unwrap_or (or_later (body_refused_at (kept_at self.old.requests id))
            (early_trailer_at (kept_at self.old.requests id))) OutOfMemory }
        ensures same { AllSame self.old.requests self.new.requests }
    {
        match self.reserve_trailer(id) {
            Ok(_) => Refusal::OutOfMemory,
            Err(refusal) => refusal,
        }
    }

    // Room for the frame of a trailer on a stream that takes one. The streams are found as they were.
    pub(super) fn reserve_trailer(&mut self, id: StreamId) -> Result<SectionRoom, Refusal>
        ensures room { IfOk result (λ room. room ≡ id) }
        ensures rest { self.new ≡ record self.old { requests = self.new.requests } }
        ensures taken { OnOk result (or_later (body_refused_at (kept_at self.old.requests id))
            (early_trailer_at (kept_at self.old.requests id)) ≡ None) }
        ensures why { IfErr result (λ r. r ≡ unwrap_or (or_later (body_refused_at (kept_at self.old.requests id))
            (early_trailer_at (kept_at self.old.requests id))) OutOfMemory) }
        ensures same { AllSame self.old.requests self.new.requests }
    {
        self.requests.reserve_trailer(id)
    }

    // Sends the fields of a header section that were read so, and remembers what they say of content.
    pub(super) fn send_head_section(
        &mut self,
        room: SectionRoom,
        fields: &Fields<'_>,
        place: SendPlace,
        read: &Judgment,
    ) -> Result<(), Refusal>
        requires { IsReadAt place self.old fields.now read.now }
        ensures { place ≢ TrailerSent → SendsFields (asking room fields.now) self.old self.new room fields.now place (call_refused result) }
    {
        let id = room.id();
        let said = match self.judge_read(id, read) {
            Ok(said) => said,
            Err(why) => return Err(Refusal::Malformed(why)),
        };
        match self.send_section(room, fields, place) {
            Ok(()) => {
                self.await_response(id, said);
                Ok(())
            }
            Err(refusal) => Err(refusal),
        }
    }

    // Remembers on its stream what a header section says of content, if the endpoint asks for strict messages. From that of a request it
    // also remembers what is awaited of the response.
    fn await_response(&mut self, id: StreamId, said: Said)
        ensures { (fields : List Field) → IsSaid self.old.side self.old.announced fields said → Remembers self.old self.new id fields }
    {
        match said {
            Said::Nothing => {}
            Said::Request(awaited, content) => self.requests.await_content(id, awaited, content),
            Said::Response(said) => self.requests.expect_said(id, said),
        }
    }

    // Sends the fields of a trailer so.
    pub(super) fn send_trailer_section(
        &mut self,
        room: SectionRoom,
        fields: &Fields<'_>,
        read: &Judgment,
    ) -> Result<(), Refusal>
        requires { IsReadAt TrailerSent self.old fields.now read.now }
        ensures { SendsFields (λ e. e) self.old self.new room fields.now TrailerSent (call_refused result) }
    {
        match self.judge_read(room.id(), read) {
            Ok(_) => self.send_section(room, fields, SendPlace::TrailerSent),
            Err(why) => Err(Refusal::Malformed(why)),
        }
    }

    // Sends fields that break no rule on a stream that takes them and has room for their frame, if the peer allows their size.
    fn send_section(
        &mut self,
        room: SectionRoom,
        fields: &Fields<'_>,
        place: SendPlace,
    ) -> Result<(), Refusal>
        requires { broken_behind place self.old room fields.now ≡ None }
        ensures { SendsFields (λ e. e) self.old self.new room fields.now place (call_refused result) }
    {
        let sum = match self.judge_size(fields) {
            Ok(sum) => sum,
            Err(refusal) => return Err(refusal),
        };
        let Ok(()) = self.queue_section(room, fields, place) else {
            return Err(Refusal::OutOfMemory);
        };
        self.sent = sum;
        Ok(())
    }

    // Why a list is refused for itself: it breaks a rule that is asked, or the peer does not allow its size.
    pub(super) fn judge_list(
        &self,
        id: StreamId,
        fields: &Fields<'_>,
        place: SendPlace,
        read: &Judgment,
    ) -> Result<(), Refusal>
        requires { IsReadAt place self.now fields.now read.now }
        ensures fits { OnOk result (refused_behind self.now id place fields.now ≡ None) }
        ensures kept { OnOk result (broken_behind place self.now id fields.now ≡ None) }
        ensures unbroken { IfErr result (λ refusal. refusal ≡ Refusal.OutOfMemory → broken_behind place self.now id fields.now ≡ None) }
        ensures err { IfErr result (λ refusal. refusal ≢ Refusal.OutOfMemory → refused_behind self.now id place fields.now ≡ Some refusal) }
    {
        if let Err(why) = self.judge_read(id, read) {
            return Err(Refusal::Malformed(why));
        }
        match self.judge_size(fields) {
            Ok(_) => Ok(()),
            Err(refusal) => Err(refusal),
        }
    }

    // What was sent, with these fields, if the peer allows their size.
    #[inline(always)]
    #[tactic(auto, using(crate::proofs::Costs::cost_is, crate::proofs::Costs::many_fields))]
    fn judge_size(&self, fields: &Fields<'_>) -> Result<u64, Refusal>
        ensures ok { IfOk result (λ sum. IsJudged self.now fields.now sum) }
        ensures err { IfErr result (λ refusal. refusal ≢ Refusal.OutOfMemory
            → size_refused (settings_known self.now.announced self.now.peer.settings) fields.now ≡ Some refusal) }
        ensures memory { IfErr result (λ refusal. refusal ≡ Refusal.OutOfMemory → 2 ^ 56 ≤ self.now.sent + fields_cost fields.now + 64) }
    {
        let Some(size) = size_of(fields) else {
            return Err(Refusal::OutOfMemory);
        };
        if self.is_too_large(size) {
            return Err(Refusal::TooLarge(size));
        }
        match self.sent_with(size + 32 * fields.len() as u64) {
            Some(sum) => Ok(sum),
            None => Err(Refusal::OutOfMemory),
        }
    }

    // RFC 9114 4.2.2: size of a section, sent
    // Whether fields of this size are more than the peer's settings allow. Before these came, and if none are remembered, every size is
    // allowed.
    fn is_too_large(&self, size: u64) -> bool
        ensures { (fields : List Field) → size ≡ section_size fields → result ≡ is_too_large
            (settings_known self.now.announced self.now.peer.settings) fields }
    {
        match self.announced.settings_known(self.streams.peer.settings()) {
            Some(settings) => {
                let most = settings
                    .get(SettingId::MAX_HEADER_LIST_SIZE)
                    .unwrap_or(VarInt::MAX.into_inner());
                size > most
            }
            None => false,
        }
    }

    // Encodes fields, and puts the section after what waits on the stream, in the room that was taken for it.
    fn queue_section(
        &mut self,
        room: SectionRoom,
        fields: &Fields<'_>,
        place: SendPlace,
    ) -> Result<(), AllocError>
        requires { section_size fields.now < 2 ^ 62 }
        ensures ok { OnOk result (Queues self.old self.new room fields.now place) }
        ensures err { OnErr result ((e : EndpointHistory) → StandsFor self.old e → CutsOff e room fields.now self.new) }
    {
        let id = room.id();
        let Ok((section, count)) = encode(&mut self.streams, &mut self.block, &room, fields) else {
            return Err(AllocError);
        };
        let Ok(()) = self.requests.send_section(room, section, place) else {
            withdraw(&mut self.streams, id, count);
            return Err(AllocError);
        };
        Ok(())
    }
}

/// Encodes a field section for which room was taken, and writes its instructions on the local encoder stream. It answers the section and
/// its required insert count. The block in which it was written is kept and serves again, unless the section is long and takes it along: so
/// little memory is kept. If an allocation fails the section ends early.
fn encode(
    streams: &mut ConnectionStreams,
    kept: &mut Vec<u8>,
    room: &SectionRoom,
    fields: &Fields<'_>,
) -> Result<(EncodedSection, usize), AllocError>
    requires { section_size fields.now < 2 ^ 62 }
    ensures ok { IfOk result (λ r. (s : EncoderHistory) → streams.old.encoding.encoder ≡ encoder_state s
        → Encodes s room.now fields.now r.0 r.1 streams.old streams.new) }
    ensures err { OnErr result ((s : EncoderHistory) → streams.old.encoding.encoder ≡ encoder_state s
        → StopsEncoding s room.now fields.now streams.old streams.new) }
{
    let id = room.id();
    let Ok(mut block) = block_for(kept, fields) else {
        return Err(AllocError);
    };
    let Ok(count) = encode_into(&mut block, streams, room, id, fields) else {
        return Err(AllocError);
    };
    let Some(section) = EncodedSection::taken_from(&mut block) else {
        withdraw(streams, id, count);
        return Err(AllocError);
    };
    *kept = block;
    Ok((section, count))
}

/// A block with room for the section of so many short fields, so that it seldom grows while that is written: the one that is kept, if it is
/// one.
fn block_for(kept: &mut Vec<u8>, fields: &Fields<'_>) -> Result<Vec<u8>, AllocError>
    ensures { IfOk result (λ block. length block.items ≡ 9) }
{
    let alloc = *kept.allocator();
    let mut block = mem::replace(kept, Vec::new(alloc));
    EncodedSection::begin(&mut block, SHORT_FIELD * fields.len().min(MANY_FIELDS))?;
    Ok(block)
}

/// The same into such a block, on the stream that there is room on. It answers the required insert count.
#[tactic(auto, using(crate::proofs::SendingSections::behind_room))]
fn encode_into(
    block: &mut Vec<u8>,
    streams: &mut ConnectionStreams,
    _room: &SectionRoom,
    id: StreamId,
    fields: &Fields<'_>,
) -> Result<usize, AllocError>
    requires small { section_size fields.now < 2 ^ 62 }
    requires empty { length block.old.items ≡ 9 }
    requires there { id ≡ _room.now }
    ensures ok { IfOk result (λ count. (s : EncoderHistory) → streams.old.encoding.encoder ≡ encoder_state s
        → Encodes s id fields.now (drop 9 block.new.items) count streams.old streams.new) }
    ensures err { OnErr result ((s : EncoderHistory) → streams.old.encoding.encoder ≡ encoder_state s
        → StopsEncoding s id fields.now streams.old streams.new) }
{
    streams
        .encoding
        .encode(id, block, &mut streams.own.encoder, fields)
}

/// Takes back the newest section of a stream: it is one then that ended early, after all its fields.
fn withdraw(streams: &mut ConnectionStreams, id: StreamId, count: usize)
    ensures { (s : EncoderHistory) (fields : List Field) (section : List ℕ) (before : StreamsState)
        → Encodes s id fields section count before streams.old → StopsEncoding s id fields before streams.new }
{
    sections_leave_their_counts();
    streams.encoding.withdraw(id, count);
}

/// The size of fields (RFC 9114, section 4.2.2), in bytes, if it is below `SIZE_LIMIT`.
fn size_of(fields: &Fields<'_>) -> Option<u64>
    ensures some { IfSome result (λ size. (size ≡ section_size fields.now) × (size < 2 ^ 62)) }
    ensures none { IfNone result (2 ^ 62 ≤ section_size fields.now) }
{
    let size = section_size(fields);
    if size >= SIZE_LIMIT {
        return None;
    }
    Some(size)
}

// RFC 9110 15.2: interim responses, as 103, sent
/// The place of the message after one with this status: one from 100 to 199 (RFC 9110, section 15.2) is not that of the final header
/// section.
pub(super) fn place_of(status: Option<StatusCode>) -> SendPlace
    ensures { result ≡ (if is_interim status then SendPlace.NothingSent else SendPlace.HeadSent) }
{
    match status {
        Some(status) => {
            if (100..=199).contains(&status.as_u16()) {
                SendPlace::NothingSent
            } else {
                SendPlace::HeadSent
            }
        }
        None => SendPlace::HeadSent,
    }
}
