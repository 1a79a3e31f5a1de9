//! The next frame of a message that gives something.
ghost use Rattle.std.specs.Prelude.{◌≡◌, ◌<◌, length, OnErr, IfOk, IfSome, IfNone};
ghost use Rattle.std.specs.List.{concat};
ghost use Rattle.h3_frames.specs.Pieces.{IsRest, ending};
ghost use Rattle.h3_frames.specs.UnreadFrames.{AreBetween};
ghost use Rattle.h3_frames.specs.ExcessiveFrames.{is_excessive_by};
ghost use Rattle.h3_frames.specs.Known.{known_by};
ghost use Rattle.h3_connection.specs.Incoming.{is_body};
ghost use Rattle.h3_connection.specs.StrictConnection.{kinds_of};
ghost use Rattle.h3_incoming.specs.Finding.{Finds, GivesBegun, IsWithin, LeavesBetween, PassesFrames};

use super::begun::{Begun, begun_by, begun_by_message, is_empty};
use h3_connection::place::Place;
use h3_connection::setup::Announced;
use h3_frames::frame::{FrameBuffer, FrameProtocolError, FrameStreamError};
use h3_messages::Content;
use h3_proto::stream::Side;
use std::alloc::{AllocError, Global};

/// What stands after all frames that give nothing.
#[derive(Drop)]
pub(super) enum Found {
    /// A frame: what it begins.
    Begun(Begun),
    /// Less than a frame, or nothing.
    Unfinished,
    Refused(FrameProtocolError),
    /// HEADERS that say a length above the limit.
    LongSection,
    /// Another frame that says one.
    Excessive,
}

/// Reads up to the first frame that gives something, and takes it. Unknown frames are skipped (RFC 9114, section 9), and in a body DATA
/// frames without a payload. One that says a length above the limit is reported, and not taken.
#[inline(always)]
#[tactic(auto, using(crate::proofs::FrontLaws::finds_on, crate::proofs::FrontLaws::within_on, crate::proofs::FrontLaws::passed_then, h3_frames::specs::PieceLaws::rest_same, h3_frames::specs::PieceLaws::rest_then))]
pub(super) fn front(
    unread: &mut FrameBuffer,
    alloc: Global,
    side: Side,
    place: Place,
    content: Content,
    announced: &Announced,
) -> Result<Found, AllocError>
    ensures finds { IfOk result
        (λ f. Finds (kinds_of announced.now) side place content f (concat unread.old.pieces) (concat unread.new.pieces)) }
    ensures within { IfOk result
        (λ f. IsWithin (kinds_of announced.now) announced.now.choices.unfinished_limit (is_body place) f (concat unread.old.pieces)) }
    ensures between { IfOk result (λ f. LeavesBetween f unread.new) }
    ensures err { OnErr result
        (PassesFrames (kinds_of announced.now) (is_body place) (concat unread.old.pieces) (concat unread.new.pieces)) }
    ensures rest { IsRest unread.old.pieces unread.new.pieces }
{
    loop {
        match front_one(unread, alloc, side, place, content, announced) {
            Ok(Some(found)) => return Ok(found),
            Ok(None) => {}
            Err(e) => return Err(e),
        }
    }
}

// RFC 9114 10.5: unfinished_limit of frames
// Reads one frame. It returns `None` if the frame gives nothing.
#[inline(always)]
#[tactic(auto, using(crate::proofs::FrontLaws::finds_unfinished, crate::proofs::FrontLaws::finds_refused, crate::proofs::FrontLaws::finds_frame, crate::proofs::FrontLaws::within_unfinished, crate::proofs::FrontLaws::within_refused, crate::proofs::FrontLaws::within_frame, crate::proofs::FrontLaws::long_stays, crate::proofs::FrontLaws::section_stays, crate::proofs::FrontLaws::passes_empty, crate::proofs::FrontLaws::passes_known, h3_connection::specs::SkippingLaws::rest_shorter, h3_frames::specs::PieceLaws::ending_rest))]
fn front_one(
    unread: &mut FrameBuffer,
    alloc: Global,
    side: Side,
    place: Place,
    content: Content,
    announced: &Announced,
) -> Result<Option<Found>, AllocError>
    ensures finds { IfOk result
        (λ o. IfSome o (λ f. Finds (kinds_of announced.now) side place content f (concat unread.old.pieces) (concat unread.new.pieces))) }
    ensures within { IfOk result
        (λ o. IfSome o (λ f. IsWithin (kinds_of announced.now) announced.now.choices.unfinished_limit (is_body place) f
        (concat unread.old.pieces))) }
    ensures between { IfOk result (λ o. IfSome o (λ f. LeavesBetween f unread.new)) }
    ensures on { IfOk result
        (λ o. IfNone o (PassesFrames (kinds_of announced.now) (is_body place) (concat unread.old.pieces) (concat unread.new.pieces))) }
    ensures less { IfOk result (λ o. IfNone o (length (concat unread.new.pieces) < length (concat unread.old.pieces))) }
    ensures err { OnErr result
        (PassesFrames (kinds_of announced.now) (is_body place) (concat unread.old.pieces) (concat unread.new.pieces)) }
    ensures rest { IsRest unread.old.pieces unread.new.pieces }
{
    if is_excessive(unread, announced) {
        if unread.begins_section(announced.kinds()) {
            return Ok(Some(Found::LongSection));
        }
        return Ok(Some(Found::Excessive));
    }
    match next_begun(unread, alloc, side, place, content, announced) {
        Ok(None) => Ok(Some(Found::Unfinished)),
        Ok(Some(begun)) => {
            if is_empty(&begun) {
                return Ok(None);
            }
            Ok(Some(Found::Begun(begun)))
        }
        Err(FrameStreamError::Proto(e)) => Ok(Some(Found::Refused(e))),
        Err(_) => Err(AllocError),
    }
}

// Whether the first frame that is no whole unknown one says a length above the limit. Which kinds are known is asked only if the type
// and length in the first piece do not tell it.
#[inline(always)]
fn is_excessive(unread: &FrameBuffer, announced: &Announced) -> bool
    ensures { result ≡ is_excessive_by (kinds_of announced.now) announced.now.choices.unfinished_limit
        (known_by (kinds_of announced.now) (concat unread.now.pieces)) }
{
    let most = announced.choices.unfinished_limit;
    match unread.is_first_excessive(most) {
        Some(is_excessive) => is_excessive,
        None => unread.is_excessive(most, announced.kinds()),
    }
}

// Takes the next frame, as `FrameBuffer::next_frame` does, and returns what it begins.
#[inline(always)]
fn next_begun(
    unread: &mut FrameBuffer,
    alloc: Global,
    side: Side,
    place: Place,
    content: Content,
    announced: &Announced,
) -> Result<Option<Begun>, FrameStreamError>
    ensures gives { GivesBegun (kinds_of announced.now) side place content result (concat unread.old.pieces) (concat unread.new.pieces) }
    ensures between { IfOk result (λ o. IfSome o (λ b. AreBetween unread.new)) }
    ensures pieces { unread.new.pieces ≡ ending (length (concat unread.new.pieces)) unread.old.pieces }
{
    match unread.next_first() {
        Some(Some(frame)) => Ok(Some(begun_by_message(place, content, frame))),
        Some(None) => Ok(None),
        None => begun_anywhere(unread, alloc, side, place, content, announced),
    }
}

// The same wherever the frame lies. It stays apart, so that a frame in the first piece is read without making room for the largest.
#[inline(never)]
fn begun_anywhere(
    unread: &mut FrameBuffer,
    alloc: Global,
    side: Side,
    place: Place,
    content: Content,
    announced: &Announced,
) -> Result<Option<Begun>, FrameStreamError>
    ensures gives { GivesBegun (kinds_of announced.now) side place content result (concat unread.old.pieces) (concat unread.new.pieces) }
    ensures between { IfOk result (λ o. IfSome o (λ b. AreBetween unread.new)) }
    ensures pieces { unread.new.pieces ≡ ending (length (concat unread.new.pieces)) unread.old.pieces }
{
    let kinds = announced.kinds();
    // (not reached: what is announced stays)
    if !unread.suits(kinds) {
        return Err(FrameStreamError::OutOfMemory);
    }
    match unread.next_frame(alloc, kinds) {
        Ok(Some(frame)) => Ok(Some(begun_by(side, place, content, frame))),
        Ok(None) => Ok(None),
        Err(e) => Err(e),
    }
}
