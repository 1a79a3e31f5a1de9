//! What a frame begins at its place in a message (RFC 9114, sections 4.1 and 7.2).
ghost use Rattle.std.specs.Prelude.{◌≡◌, ℕ, ◌&&◌, false};
ghost use Rattle.h3_qpack.specs.DecoderState.{DecoderState};
ghost use Rattle.h3_frames.specs.MessageFrames.{as_frame};
ghost use Rattle.h3_connection.specs.Incoming.{Incoming, is_body};
ghost use Rattle.h3_connection.specs.Pulling.{at_frame};
ghost use Rattle.h3_connection.specs.Skipping.{is_empty_data};
ghost use Rattle.h3_incoming.specs.Beginning.{IsBegunBy, IsSectionOf, begun_as, is_empty};
ghost use Rattle.h3_incoming.specs.Placing.{promise_code};

use bytes::Bytes;
use h3_connection::place::Place;
use h3_connection::setup::Announced;
use h3_frames::frame::MessageFrame;
use h3_frames::proto::frame::{Frame, PayloadLen};
use h3_messages::Content;
use h3_proto::error::Code;
use h3_proto::stream::Side;
use h3_proto::webtransport::SessionId;

/// What a frame begins at its place.
#[derive(Drop)]
pub(super) enum Begun {
    Section(Bytes),
    /// The payload of a DATA frame, of so many bytes.
    Payload(usize),
    Session(SessionId),
    /// It may not stand there.
    Fault(Code),
}

// RFC 9114 7.2: frames out of place on a request stream
/// What a frame begins.
#[inline(always)]
#[tactic(auto, using(crate::proofs::FrontLaws::none_empty))]
pub(super) fn begun_by(
    side: Side,
    place: Place,
    content: Content,
    frame: Frame<PayloadLen>,
) -> Begun
    ensures is { (own : Announced) (id : ℕ) (r : DecoderState) (i : Incoming) → i.content ≡ content
        → at_frame side own id r side i place frame ≡ begun_as side own id r i result }
    ensures begins { IsBegunBy place content frame result }
    ensures section { IsSectionOf frame result }
    ensures empty { (is_body place && is_empty_data frame) ≡ is_empty result }
{
    match frame {
        Frame::Headers(section) => begun_by_section(place, content, section),
        Frame::Data(len) => begun_by_data(place, len.0),
        Frame::WebTransportStream(session) => begun_by_session(side, place, session),
        // a client permits none, since it sends no MAX_PUSH_ID (RFC 9114, section 7.2.5), and a server gets none
        Frame::PushPromise(_) => Begun::Fault(promise_code(side)),
        Frame::CancelPush(_)
        | Frame::Settings(_)
        | Frame::PriorityUpdate(_)
        | Frame::Goaway(_)
        | Frame::MaxPushId(_)
        | Frame::Grease(_) => Begun::Fault(Code::H3_FRAME_UNEXPECTED),
    }
}

/// What a frame of a message begins.
#[inline(always)]
#[tactic(auto, using(crate::proofs::FrontLaws::none_empty))]
pub(super) fn begun_by_message(place: Place, content: Content, frame: MessageFrame) -> Begun
    ensures is { (side : Side) (own : Announced) (id : ℕ) (r : DecoderState) (i : Incoming) → i.content ≡ content
        → at_frame side own id r side i place (as_frame frame) ≡ begun_as side own id r i result }
    ensures begins { IsBegunBy place content (as_frame frame) result }
    ensures section { IsSectionOf (as_frame frame) result }
    ensures empty { (is_body place && is_empty_data (as_frame frame)) ≡ is_empty result }
{
    match frame {
        MessageFrame::Headers(section) => begun_by_section(place, content, section),
        MessageFrame::Data(len) => begun_by_data(place, len.0),
    }
}

// What a HEADERS frame begins.
#[inline(always)]
fn begun_by_section(place: Place, content: Content, section: Bytes) -> Begun
    ensures is { (side : Side) (own : Announced) (id : ℕ) (r : DecoderState) (i : Incoming) → i.content ≡ content
        → at_frame side own id r side i place (Frame.Headers section) ≡ begun_as side own id r i result }
    ensures begins { IsBegunBy place content (Frame.Headers section) result }
    ensures section { IsSectionOf (Frame.Headers section) result }
    ensures empty { is_empty result ≡ false }
{
    match place {
        Place::BeforeHead => Begun::Section(section),
        Place::InBody => begun_by_trailer(content, section),
        Place::AfterTrailer | Place::InSession => Begun::Fault(Code::H3_FRAME_UNEXPECTED),
    }
}

// RFC 9114 4.1: DATA before the header section
// What a DATA frame begins whose payload has so many bytes.
#[inline(always)]
fn begun_by_data(place: Place, len: usize) -> Begun
    ensures is { (side : Side) (own : Announced) (id : ℕ) (r : DecoderState) (i : Incoming)
        → at_frame side own id r side i place (Frame.Data (record { 0 = len })) ≡ begun_as side own id r i result }
    ensures begins { (content : Content) → IsBegunBy place content (Frame.Data (record { 0 = len })) result }
    ensures section { IsSectionOf (Frame.Data (record { 0 = len })) result }
    ensures empty { (is_body place && is_empty_data (Frame.Data (record { 0 = len }))) ≡ is_empty result }
{
    match place {
        Place::InBody => Begun::Payload(len),
        Place::BeforeHead | Place::AfterTrailer | Place::InSession => {
            Begun::Fault(Code::H3_FRAME_UNEXPECTED)
        }
    }
}

// In a tunnel no trailer may stand (RFC 9114, section 4.4).
fn begun_by_trailer(content: Content, section: Bytes) -> Begun
    ensures is { (side : Side) (own : Announced) (id : ℕ) (r : DecoderState) (i : Incoming) → i.content ≡ content
        → at_frame side own id r side i Place.InBody (Frame.Headers section) ≡ begun_as side own id r i result }
    ensures begins { IsBegunBy Place.InBody content (Frame.Headers section) result }
    ensures section { IsSectionOf (Frame.Headers section) result }
    ensures empty { is_empty result ≡ false }
{
    if content.takes_trailer() {
        return Begun::Section(section);
    }
    drop(section);
    Begun::Fault(Code::H3_FRAME_UNEXPECTED)
}

// At a server a session may stand in the place of a message.
fn begun_by_session(side: Side, place: Place, session: SessionId) -> Begun
    ensures is { (own : Announced) (id : ℕ) (r : DecoderState) (i : Incoming)
        → at_frame side own id r side i place (Frame.WebTransportStream session) ≡ begun_as side own id r i result }
    ensures begins { (content : Content) → IsBegunBy place content (Frame.WebTransportStream session) result }
    ensures section { IsSectionOf (Frame.WebTransportStream session) result }
    ensures empty { is_empty result ≡ false }
{
    if let Side::Client = side {
        return Begun::Fault(Code::H3_FRAME_UNEXPECTED);
    }
    if let Place::BeforeHead = place {
        return Begun::Session(session);
    }
    Begun::Fault(Code::H3_FRAME_UNEXPECTED)
}

// RFC 9114 7.2: frames out of place on a request stream
fn promise_code(side: Side) -> Code
    ensures { result ≡ promise_code side }
{
    match side {
        Side::Client => Code::H3_ID_ERROR,
        Side::Server => Code::H3_FRAME_UNEXPECTED,
    }
}

/// Whether it is an empty payload.
#[inline(always)]
pub(super) fn is_empty(begun: &Begun) -> bool
    ensures { result ≡ is_empty begun.now }
{
    if let Begun::Payload(size) = begun {
        return *size == 0;
    }
    false
}
