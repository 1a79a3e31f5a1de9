//! What the rules of well-formed messages make of a list that is to be sent (RFC 9114, sections 4.1.2 and 4.2 to 4.5). That is which of
//! them the list breaks, as a strict peer would judge it and by the rules of its sender, and what it says of content.
ghost use Rattle.std.specs.Prelude.{◌≡◌, ◌≢◌, ◌<◌, ◌&&◌, true, List, None, Some, IfOk, IfErr, OnOk, length};
ghost use Rattle.h3_field.specs.Field.{Field};
ghost use Rattle.h3_header.specs.HeadRead.{HeadRefusal, head_by};
ghost use Rattle.h3_connection.specs.Remembering.{settings_known};
ghost use Rattle.h3_connection.specs.State.{kept_at};
ghost use Rattle.h3_connection.specs.StrictSending.{peer_connects};
ghost use Rattle.h3_connection.specs.declared.event.Refusal.TheVariants as refusal;
ghost use Rattle.h3_session.specs.JudgedLists.{head_section, header_refused, list_refusal, misplaced};
ghost use Rattle.h3_session.specs.Refused.{broken_behind};
ghost use Rattle.h3_messages.specs.Outline.{IsOutlined, is_outline_of, refusal_by};
ghost use Rattle.h3_messages.specs.OwnMessages.{awaits_tunnel};
ghost use Rattle.h3_requests.specs.Refused.{known_in};
ghost use Rattle.h3_session.specs.SendingLists.{malformed};
ghost use Rattle.h3_session.specs.SentHeads.{IsJudgedAs, IsReadAt, says_length_of_tunnel};

use super::Endpoint;
use h3_connection::event::{Malformation, Refusal};
use h3_connection::place::SendPlace;
use h3_connection::setup::Announced;
use h3_field::Fields;
use h3_header::Header;
use h3_incoming::malformed::malformation_in;
use h3_messages::{
    Judgment, ListError, Outline, Rules, Said, Section, Violation, judge, or_broken,
};
use h3_proto::frame::SettingId;
use h3_proto::stream::{Side, StreamId};

impl Endpoint {
    // What a list says that was read, or the rule that it breaks on its stream. A server's answer may break one by what was asked there
    // (RFC 9110, section 8.6). The stream is looked up only for such an answer.
    #[inline(always)]
    pub(super) fn judge_read(&self, id: StreamId, read: &Judgment) -> Result<Said, Malformation>
        ensures kept { OnOk result ((place : SendPlace) (fields : List Field)
            → IsReadAt place self.now fields read.now → broken_behind place self.now id fields ≡ None) }
        ensures broken { IfErr result (λ why. (place : SendPlace) (fields : List Field)
            → IsReadAt place self.now fields read.now → broken_behind place self.now id fields ≡ Some why) }
        ensures said { IfOk result (λ said. said ≡ read.now.said) }
    {
        let is_broken = self.is_wrong_answer(id, read.said);
        match or_broken(read.violation, is_broken, Violation::ContentLength) {
            Some(violation) => Err(Malformation::by(violation)),
            None => Ok(read.said),
        }
    }

    // Whether a list opens a tunnel, and says a length, on a stream whose request asks for a tunnel.
    fn is_wrong_answer(&self, id: StreamId, said: Said) -> bool
        ensures { result ≡ (says_length_of_tunnel said && awaits_tunnel (known_in (kept_at self.now.requests id))) }
    {
        says_tunnel_length(said) && self.requests.awaits_tunnel(id)
    }

    // What a list is that is to be sent as such a section, or why it is not one.
    #[inline(always)]
    pub(super) fn judge_sent(
        &self,
        fields: &Fields<'_>,
        section: Section,
    ) -> Result<Judgment, Refusal>
        ensures outline { IfOk result (λ it. IsOutlined (head_by self.now.announced.choices.extensions.any_protocol fields.now) it.outline) }
        ensures place { IfOk result (λ it. is_outline_of section it.outline ≡ true) }
        ensures read { IfOk result (λ it. IsJudgedAs section self.now fields.now it) }
        ensures err { IfErr result (λ e. e ≢ refusal.OutOfMemory → list_refusal section
            (head_by self.now.announced.choices.extensions.any_protocol fields.now) ≡ Some e) }
        ensures memory { IfErr result (λ e. e ≡ refusal.OutOfMemory → 24576 < length fields.now) }
    {
        let rules = Rules {
            is_sent: true,
            strict_messages: self.announced.choices.strict_messages,
            any_protocol: self.announced.choices.extensions.any_protocol,
            extended_connect: self.peer_connects(),
        };
        match judge(self.alloc, fields, section, &rules) {
            Ok(read) => {
                if !read.outline.is_of(section) {
                    return Err(misplaced(section));
                }
                Ok(read)
            }
            Err(e) => Err(refusal_of(e)),
        }
    }

    // Whether the peer takes requests of extended CONNECT, as far as its settings came or are remembered.
    fn peer_connects(&self) -> bool
        ensures { result ≡ peer_connects (settings_known self.now.announced self.now.peer.settings) }
    {
        match self.announced.settings_known(self.streams.peer.settings()) {
            Some(settings) => {
                settings
                    .get(SettingId::ENABLE_CONNECT_PROTOCOL)
                    .unwrap_or(0)
                    != 0
            }
            None => false,
        }
    }
}

// Whether a list opens a tunnel, and says a length, as no answer to CONNECT does.
fn says_tunnel_length(said: Said) -> bool
    ensures { result ≡ says_length_of_tunnel said }
{
    match said {
        Said::Response(response) => response.says_tunnel_length,
        Said::Nothing | Said::Request(_, _) => false,
    }
}

// As which section a side sends a header section: a client sends requests, and a server responses.
pub(super) fn head_section(side: Side) -> Section
    ensures { result ≡ head_section side }
{
    match side {
        Side::Client => Section::Request,
        Side::Server => Section::Response,
    }
}

// Why a header is refused as such a section whose protocol the endpoint takes from no peer (RFC 8441, section 4), or that is another one.
pub(super) fn header_refusal(
    announced: &Announced,
    section: Section,
    header: &Header,
) -> Option<Refusal>
    ensures { result ≡ header_refused announced.now section header.now }
{
    if !header.takes_protocol(announced.choices.extensions.any_protocol) {
        return Some(Refusal::Malformed(Malformation::Value));
    }
    if !Outline::of(header).is_of(section) {
        return Some(misplaced(section));
    }
    None
}

// Why a header is refused that is another section.
fn misplaced(section: Section) -> Refusal
    ensures { result ≡ misplaced section }
{
    match section {
        Section::Request | Section::Response => Refusal::WrongSide,
        Section::Trailer => Refusal::PseudoInTrailer,
    }
}

// Why a list is refused that reads as no header.
fn refusal_of(e: ListError) -> Refusal
    ensures why { (why : HeadRefusal) → refusal_by e ≡ Some why → result ≡ malformed why }
    ensures none { refusal_by e ≡ None → result ≡ refusal.OutOfMemory }
    ensures memory { result ≡ refusal.OutOfMemory → refusal_by e ≡ None }
{
    match malformation_in(e) {
        Some(why) => Refusal::Malformed(why),
        None => Refusal::OutOfMemory,
    }
}
