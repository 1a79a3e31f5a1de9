//! What a decoded field section is at its place of a message (RFC 9114, sections 4.1 to 4.3).
ghost use Rattle.std.specs.Prelude.{◌≡◌, ◌<◌, ◌≤◌, ℕ, Bool, List, false, Some, None, IfOk, IfSome, OnErr, length, option_map, codes};
ghost use Rattle.h3_field.specs.Field.{Field};
ghost use Rattle.h3_field.specs.Instruction.{DecoderInstruction};
ghost use Rattle.h3_qpack.specs.DecoderState.{DecoderState};
ghost use Rattle.h3_header.specs.BadPart.{IsHeadUnlessMany};
ghost use Rattle.h3_header.specs.Head.{Head};
ghost use Rattle.h3_connection.specs.Incoming.{Incoming};
ghost use Rattle.h3_connection.specs.Lists.{list_of, pull_of};
ghost use Rattle.h3_connection.specs.declared.event.Item.TheVariants as item;
ghost use Rattle.h3_connection.specs.declared.event.Pull.TheVariants as pull;
ghost use Rattle.h3_qpack.specs.Sizes.{IsLarge, IsBlockWithin, last_value, told_size};
ghost use Rattle.h3_connection.specs.Announcing.{section_of};
ghost use Rattle.h3_connection.specs.Pulling.{read_section, whole_head, whole_trailer, head_or_trailer, next_place, is_interim_text};
ghost use Rattle.h3_connection.specs.Pulling.{is_client, is_memory};
ghost use Rattle.h3_incoming.specs.Answering.{Lists, message_at};
ghost use Rattle.h3_incoming.specs.HeaderSlots.{ReadsAsHead};
ghost use Rattle.h3_incoming.specs.Judging.{is_read_outline, judged_as};
ghost use Rattle.h3_messages.specs.Outline.{outline_of};

use crate::answer::{Plain, is_interim, kind_at};
use crate::block::BlockPull;
use crate::malformed::malformation_in;
use crate::strict::{if_whole, large_content_at, read_at};
use h3_connection::event::Malformation;
use h3_connection::place::Place;
use h3_connection::setup::Announced;
use h3_field::FieldBlock;
use h3_messages::{Content, Outline, is_interim_status};
use h3_proto::stream::Side;
use h3_qpack::{BlockWithin, LargeSection};
use std::alloc::{AllocError, Global};

/// What a field section is at its place.
#[derive(Drop)]
pub(crate) enum Judged {
    /// It is returned, and this is the place after it, the content that is left to come, and what is known of that of a response.
    HandsOut(Place, Content, Option<Content>),
    /// Why it is malformed, and what is known of the content of a response.
    Malformed(Malformation, Option<Content>),
}

// RFC 9204 2.2.2.1: section acknowledgment, written
/// Whether a section named an entry of the table: then it has to be acknowledged (RFC 9204, section 4.4.1).
pub(crate) fn names_entries(decoded: &BlockWithin) -> bool
    ensures { (max : ℕ) (name : List ℕ) (dyn_ref : Bool) (fields block : List Field)
        → IsBlockWithin max name dyn_ref fields decoded.now block → result ≡ dyn_ref }
{
    match decoded {
        BlockWithin::Fields(summary) => summary.dyn_ref,
        BlockWithin::TooLarge(large) => large.dyn_ref,
    }
}

// RFC 9114 4.2.2: size of a section, received
/// A section that is too large, at this place. The item that is returned of it is its size alone.
pub(crate) fn judge_large(
    side: Side,
    announced: &Announced,
    place: Place,
    content: Content,
    response: Option<Content>,
    large: LargeSection,
    out: &mut BlockPull,
) -> Judged
    ensures judged { (id : ℕ) (r : DecoderState) (i : Incoming) (replies : List DecoderInstruction) (dyn_ref : Bool) (fields : List Field)
        → section_of announced.now < told_size fields → IsLarge (codes ":status") dyn_ref fields large → i.place ≡ place
        → i.content ≡ content → i.response ≡ response
        → read_section side announced.now id r i replies fields ≡ judged_as id i replies (pull_of out.new) result }
    ensures item { is_memory (pull_of out.new) ≡ false }
    ensures none { list_of out.new ≡ None }
{
    let expected = large_content_at(side, announced, place, content, &large.last_value);
    let behind = place_behind(side, place, large.last_value);
    out.give(Plain::TooLarge(large.mem_size));
    Judged::HandsOut(behind, expected, response)
}

/// A section that is not too large, whose fields stand in this block, at this place. The item that is returned of it is written to `out`.
/// An allocation fails only for a list that has more fields than a map has names for, and for no other malformed one.
pub(crate) fn judge_fields(
    alloc: Global,
    side: Side,
    announced: &Announced,
    place: Place,
    content: Content,
    response: Option<Content>,
    fields: FieldBlock,
    out: &mut BlockPull,
) -> Result<Judged, AllocError>
    ensures judged { IfOk result (λ j. (id : ℕ) (r : DecoderState) (i : Incoming) (replies : List DecoderInstruction)
        → told_size fields ≤ section_of announced.now → i.place ≡ place → i.content ≡ content → i.response ≡ response
        → read_section side announced.now id r i replies fields ≡ judged_as id i replies (pull_of out.new) j) }
    ensures item { is_memory (pull_of out.new) ≡ false }
    ensures list { Lists (list_of out.new) (Some fields) }
    ensures reads { IfSome (list_of out.new) (ReadsAsHead announced.now.choices.extensions.any_protocol) }
    ensures memory { OnErr result (24576 < length fields) }
    ensures good { OnErr result (IsHeadUnlessMany announced.now.choices.extensions.any_protocol fields) }
{
    h3_header::laws::lists_are_their_value();
    let read = read_at(alloc, side, announced, place, content, response, &fields);
    let strict = read.1;
    let outline = match read.0 {
        Ok(outline) => outline,
        Err(e) => {
            out.keep(fields);
            return match malformation_in(e) {
                Some(why) => Ok(Judged::Malformed(why, strict.response)),
                None => Err(AllocError),
            };
        }
    };
    let broken = if_whole(content, strict.broken);
    let judged = judge_message(
        side,
        place,
        strict.content,
        strict.response,
        broken,
        &outline,
    );
    match judged {
        Judged::HandsOut(behind, content, response) => {
            let kind = kind_at(side, place, &outline);
            out.give_message(kind, outline.status(), fields);
            Ok(Judged::HandsOut(behind, content, response))
        }
        Judged::Malformed(why, response) => {
            out.keep(fields);
            Ok(Judged::Malformed(why, response))
        }
    }
}

// A header or trailer section of this outline, whose list breaks this rule or none, and after which so much content is left.
fn judge_message(
    side: Side,
    place: Place,
    behind: Content,
    response: Option<Content>,
    broken: Option<Malformation>,
    outline: &Outline,
) -> Judged
    ensures { (id : ℕ) (i : Incoming) (replies : List DecoderInstruction) (h : Head) → outline.now ≡ outline_of h → i.place ≡ place
        → i.content ≡ behind → i.response ≡ response
        → head_or_trailer side id i replies broken place h ≡ judged_as id i replies (pull.Item (message_at side place h)) result }
{
    match place {
        Place::BeforeHead => judge_head(side, behind, response, broken, outline),
        Place::InBody | Place::AfterTrailer | Place::InSession => {
            judge_trailer(behind, response, broken, outline)
        }
    }
}

// RFC 9110 15.2: interim responses, as 103, received
// A header section: a client reads responses, interim ones among them, and a server requests.
fn judge_head(
    side: Side,
    behind: Content,
    response: Option<Content>,
    broken: Option<Malformation>,
    outline: &Outline,
) -> Judged
    ensures { (id : ℕ) (i : Incoming) (replies : List DecoderInstruction) (h : Head) → outline.now ≡ outline_of h
        → i.place ≡ Place.BeforeHead → i.content ≡ behind → i.response ≡ response
        → whole_head side id i replies broken h ≡ judged_as id i replies (pull.Item (message_at side Place.BeforeHead h)) result }
{
    if !is_read_by(side, outline) {
        return Judged::Malformed(Malformation::WrongSide, response);
    }
    if let Some(why) = broken {
        return Judged::Malformed(why, response);
    }
    if is_client(side) && is_interim(outline) {
        return Judged::HandsOut(Place::BeforeHead, behind, response);
    }
    Judged::HandsOut(Place::InBody, behind, response)
}

// Whether a side reads such header sections: a client those of responses, a server those of requests.
fn is_read_by(side: Side, outline: &Outline) -> bool
    ensures { result ≡ is_read_outline side outline.now }
{
    match side {
        Side::Client => outline.is_response(),
        Side::Server => outline.is_request(),
    }
}

fn is_client(side: Side) -> bool
    ensures { result ≡ is_client side }
{
    match side {
        Side::Client => true,
        Side::Server => false,
    }
}

// RFC 9114 4.3: pseudo-header fields in a trailer section
// A trailer section, which has no pseudo-header field (RFC 9114, section 4.3).
fn judge_trailer(
    behind: Content,
    response: Option<Content>,
    broken: Option<Malformation>,
    outline: &Outline,
) -> Judged
    ensures { (id : ℕ) (i : Incoming) (replies : List DecoderInstruction) (h : Head) → outline.now ≡ outline_of h → i.content ≡ behind
        → i.response ≡ response
        → whole_trailer id i replies broken h ≡ judged_as id i replies (pull.Item (item.Trailer h)) result }
{
    if outline.has_pseudo() {
        return Judged::Malformed(Malformation::PseudoInTrailer, response);
    }
    if let Some(why) = broken {
        return Judged::Malformed(why, response);
    }
    Judged::HandsOut(Place::AfterTrailer, behind, response)
}

// RFC 9110 15.2: interim responses, as 103, received
// The place after a section that is too large: after an interim response, a client goes on to wait for the final one.
fn place_behind(side: Side, place: Place, status: Option<Vec<u8>>) -> Place
    ensures { (fields : List Field) → option_map (λ v. v.items) status ≡ last_value (codes ":status") fields
        → result ≡ next_place side place fields }
{
    match place {
        Place::BeforeHead => match side {
            Side::Client => {
                if counts_as_interim(status) {
                    return Place::BeforeHead;
                }
                Place::InBody
            }
            Side::Server => Place::InBody,
        },
        Place::InBody => Place::AfterTrailer,
        Place::AfterTrailer => Place::AfterTrailer,
        Place::InSession => Place::InSession,
    }
}

// Whether a status is one of an interim response.
fn counts_as_interim(status: Option<Vec<u8>>) -> bool
    ensures { result ≡ is_interim_text (option_map (λ v. v.items) status) }
{
    match status {
        Some(text) => is_interim_status(text.as_slice()),
        None => false,
    }
}
