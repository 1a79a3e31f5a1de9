//! Lists of fields that an endpoint sends as they are, with no header made of them.
ghost use Rattle.std.specs.Prelude.{◌≡◌, ◌≢◌, ◌<◌, None, Some, IfOk, IfErr, length, if◌then◌else◌};
ghost use Rattle.h3_header.specs.Head.{Head};
ghost use Rattle.h3_header.specs.HeadRead.{IsHead, head_by};
ghost use Rattle.h3_connection.specs.Answers.{call_refused};
ghost use Rattle.h3_connection.specs.Pulling.{is_interim};
ghost use Rattle.h3_connection.specs.State.{kept_at};
ghost use Rattle.h3_connection.specs.declared.event.Refusal.TheVariants as refusal;
ghost use Rattle.h3_requests.specs.Refused.{body_refused_at};
ghost use Rattle.h3_session.specs.InvalidFields.{NamesField};
ghost use Rattle.h3_session.specs.Refused.{head_refused_in, own_head_refused, own_trailer_refused};
ghost use Rattle.h3_session.specs.SendingLists.{IsJudgedOr, SendsFieldList, SendsTrailerList, SendsJudgedHead, SendsJudgedTrailer};
ghost use Rattle.h3_session.specs.SendingLists.{refusal_after};
ghost use Rattle.h3_messages.specs.InvalidField.{invalid_field};
ghost use Rattle.h3_session.specs.SentHeads.{IsReadAt};
ghost use Rattle.h3_session.specs.JudgedLists.{head_list_refusal, IsHeadAt};

use super::Endpoint;
use super::heads::place_of;
use super::strict::head_section;
use h3_connection::event::Refusal;
use h3_connection::place::SendPlace;
use h3_field::Fields;
use h3_messages::{Judgment, Section, invalid_field};
use h3_proto::stream::StreamId;

impl Endpoint {
    /// Sends a list of fields as a header section of a stream: the fields go out in their order, from their own memory, and no header is
    /// made of them. It refuses, in this order:
    /// - every call after a connection fault (`Refusal::Closed`),
    /// - a stream that is not open (`NotOpen`), or whose final header section or end was sent (`OutOfOrder`),
    /// - if the endpoint asks for a strict connection, each by a client after the peer's GOAWAY (`GoingAway`),
    /// - a list that `Header::try_from` refuses (`Malformed` of `Name`, `Value` or `TooMany`); with `Config::with_any_protocol` the value
    ///   of `:protocol` may be any token of at most 31 bytes,
    /// - a header section of the other side's messages (`WrongSide`),
    /// - if the endpoint asks for strict messages, a list that a strict peer would call malformed (`Malformed`),
    /// - a list whose size is above what the peer's settings allow (`TooLarge`).
    ///
    /// If an allocation fails, the encoder stream may have gained whole instructions, and the stream is as it was. A list of more than
    /// 24,576 fields takes memory to be judged.
    pub fn send_fields(&mut self, id: StreamId, fields: &Fields<'_>) -> Result<(), Refusal>
        ensures sends { SendsFieldList self.old self.new id fields.now result }
        ensures names { NamesField (call_refused result) self.new.announced.choices fields.now }
    {
        if let Some(code) = self.closed {
            return Err(Refusal::Closed(code));
        }
        self.send_head_list(id, fields)
    }

    /// Sends a trailer on a stream, as `send_trailer` does, but as the list that it is given as. Refused are first every call after a
    /// connection fault, then a stream that is not open. Next is one whose final header section was not sent, or whose trailer or end was.
    /// Then come a list that `Header::try_from` refuses, and one with a pseudo-header field. An endpoint that asks for strict messages then
    /// refuses a trailer after less content than the header section said, or in a tunnel. It also refuses one that a strict peer would call
    /// malformed. Last is one whose size is above what the peer's settings allow.
    pub fn send_trailer_fields(&mut self, id: StreamId, fields: &Fields<'_>) -> Result<(), Refusal>
        ensures sends { SendsTrailerList self.old self.new id fields.now result }
        ensures names { NamesField (call_refused result) self.new.announced.choices fields.now }
    {
        if let Some(code) = self.closed {
            return Err(Refusal::Closed(code));
        }
        self.send_trailer_list(id, fields)
    }

    /// The index of the field for which a list is refused as `Refusal::Malformed` of `Name` or `Value`: the first whose name or value
    /// may be in no message (RFC 9114, 4.2 and 4.3). If there is none and the endpoint asks for strict messages, it is the first with white
    /// space around its value (RFC 9114, 10.3). After such a refusal there always is one. It takes no memory.
    pub fn invalid_field(&self, fields: &Fields<'_>) -> Option<usize>
        ensures { result ≡ invalid_field self.now.announced.choices.extensions.any_protocol self.now.announced.choices.strict_messages
            fields.now }
    {
        let choices = &self.announced.choices;
        invalid_field(
            fields,
            choices.extensions.any_protocol,
            choices.strict_messages,
        )
    }

    // Sends a list as a header section, of a connection without a fault.
    #[inline(always)]
    pub(super) fn send_head_list(
        &mut self,
        id: StreamId,
        fields: &Fields<'_>,
    ) -> Result<(), Refusal>
        requires { self.old.closed ≡ None }
        ensures sends { SendsFieldList self.old self.new id fields.now result }
        ensures names { NamesField (call_refused result) self.new.announced.choices fields.now }
    {
        let (place, read) = match self.judge_head(fields) {
            Ok(judged) => judged,
            Err(later) => return Err(self.refusal_of_head(id, later)),
        };
        self.send_head_at(id, fields, place, &read)
    }

    // Sends a list as a trailer, of a connection without a fault.
    pub(super) fn send_trailer_list(
        &mut self,
        id: StreamId,
        fields: &Fields<'_>,
    ) -> Result<(), Refusal>
        requires { self.old.closed ≡ None }
        ensures sends { SendsTrailerList self.old self.new id fields.now result }
        ensures names { NamesField (call_refused result) self.new.announced.choices fields.now }
    {
        let read = match self.judge_sent(fields, Section::Trailer) {
            Ok(read) => read,
            Err(later) => return Err(self.refusal_of_trailer(id, later)),
        };
        self.send_trailer_at(id, fields, &read)
    }

    // The place of the message after a list that is sent as a header section, and what it is, or why the list is not one of this side.
    #[inline(always)]
    fn judge_head(&self, fields: &Fields<'_>) -> Result<(SendPlace, Judgment), Refusal>
        ensures ok { IfOk result
            (λ judged. IsHeadAt self.now.side (head_by self.now.announced.choices.extensions.any_protocol fields.now) judged.0) }
        ensures read { IfOk result (λ judged. IsReadAt judged.0 self.now fields.now judged.1) }
        ensures err { IfErr result (λ e. e ≢ refusal.OutOfMemory → head_list_refusal self.now.side
            (head_by self.now.announced.choices.extensions.any_protocol fields.now) ≡ Some e) }
        ensures memory { IfErr result (λ e. e ≡ refusal.OutOfMemory → 24576 < length fields.now) }
    {
        match self.judge_sent(fields, head_section(self.side)) {
            Ok(read) => Ok((place_of(read.outline.status()), read)),
            Err(e) => Err(e),
        }
    }

    // Why a list is refused as a header section that is refused by itself: the stream's own refusal comes first.
    pub(super) fn refusal_of_head(&self, id: StreamId, later: Refusal) -> Refusal
        ensures { result ≡ refusal_after (head_refused_in self.now id) later }
    {
        match self.head_order_refusal(id) {
            Some(refusal) => refusal,
            None => later,
        }
    }

    // The same of a trailer.
    pub(super) fn refusal_of_trailer(&self, id: StreamId, later: Refusal) -> Refusal
        ensures { result ≡ refusal_after (body_refused_at (kept_at self.now.requests id)) later }
    {
        match self.trailer_order_refusal(id) {
            Some(refusal) => refusal,
            None => later,
        }
    }

    // A list that reads as a header section of this side goes out, and the message is at this place after it.
    fn send_head_at(
        &mut self,
        id: StreamId,
        fields: &Fields<'_>,
        place: SendPlace,
        read: &Judgment,
    ) -> Result<(), Refusal>
        requires open { self.old.closed ≡ None }
        requires read { IsReadAt place self.old fields.now read.now }
        ensures sends { (head : Head) → own_head_refused self.old.announced self.old.side head ≡ None
            → place ≡ (if is_interim head.status then SendPlace.NothingSent else SendPlace.HeadSent)
            → SendsJudgedHead self.old self.new id head fields.now result }
        ensures names { (head : Head) → head_by self.old.announced.choices.extensions.any_protocol fields.now ≡ IsHead head
            → place ≢ SendPlace.TrailerSent → NamesField (call_refused result) self.old.announced.choices fields.now }
    {
        let room = match self.reserve_head(id) {
            Ok(room) => room,
            Err(refusal) => return Err(self.judged_or(id, refusal, fields, place, read)),
        };
        self.send_head_section(room, fields, place, read)
    }

    // A list that reads as a trailer goes out.
    fn send_trailer_at(
        &mut self,
        id: StreamId,
        fields: &Fields<'_>,
        read: &Judgment,
    ) -> Result<(), Refusal>
        requires open { self.old.closed ≡ None }
        requires read { IsReadAt SendPlace.TrailerSent self.old fields.now read.now }
        ensures sends { (trailer : Head) → own_trailer_refused self.old.announced trailer ≡ None
            → SendsJudgedTrailer self.old self.new id trailer fields.now result }
        ensures names { (trailer : Head) → head_by self.old.announced.choices.extensions.any_protocol fields.now ≡ IsHead trailer
            → NamesField (call_refused result) self.old.announced.choices fields.now }
    {
        let room = match self.reserve_trailer(id) {
            Ok(room) => room,
            Err(refusal) => {
                return Err(self.judged_or(id, refusal, fields, SendPlace::TrailerSent, read));
            }
        };
        self.send_trailer_section(room, fields, read)
    }

    // Why a list is not sent for which no room was made: it is at hand, so its own refusal comes before out of memory.
    fn judged_or(
        &self,
        id: StreamId,
        refusal: Refusal,
        fields: &Fields<'_>,
        place: SendPlace,
        read: &Judgment,
    ) -> Refusal
        requires { IsReadAt place self.now fields.now read.now }
        ensures { IsJudgedOr self.now id place fields.now refusal result }
    {
        if refusal != Refusal::OutOfMemory {
            return refusal;
        }
        match self.judge_list(id, fields, place, read) {
            Ok(_) => Refusal::OutOfMemory,
            Err(why) => why,
        }
    }
}
