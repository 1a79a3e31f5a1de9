//! The bytes of a stream of frames that came and were not read.
ghost use Rattle.std.specs.Prelude.{◌≡◌, ◌+◌, ◌^◌, ◌<◌, ◌≤◌, ◌++◌, [], None, Ok, false, true, length, IfOk, IfErr, IfSome, IfNone, IsNone};
ghost use Rattle.std.specs.Prelude.{OnOk, OnErr};
ghost use Rattle.std.specs.List.{concat};
ghost use Rattle.h3_frames.specs.declared.frame.kinds.FrameKinds.{FrameKinds};
ghost use Rattle.h3_frames.specs.ExcessiveFrames.{begins_section, is_excessive_by};
ghost use Rattle.h3_frames.specs.FirstFrames.{begins_other};
ghost use Rattle.h3_frames.specs.FrameLeft.{left_of_frame};
ghost use Rattle.h3_frames.specs.Known.{Gives, known_by};
ghost use Rattle.h3_frames.specs.MessageFrames.{any_frame};
ghost use Rattle.h3_frames.specs.OtherSettings.{others_at};
ghost use Rattle.h3_frames.specs.Pieces.{chunk_of, ending, first_of, with_piece};
ghost use Rattle.h3_frames.specs.Tries.{Counts};
ghost use Rattle.h3_frames.specs.UnknownSize.{held_length, suits};
ghost use Rattle.h3_frames.specs.UnreadFrames.{gives_none, none_unread, AreBetween, AreSpared, IsStillUnderWay, IsPassed};

use super::decoder::{FrameDecoder, MessageFrame};
use super::errors::FrameStreamError;
use super::kinds::FrameKinds;
use super::sparing::FrameBytes;
use crate::proto::frame::{Frame, PayloadLen};
use bytes::Bytes;
use h3_coding::varint::VarInt;
use std::alloc::{AllocError, Global};
use std::marker::Model;

/// The bytes of a stream of frames that came and were not read, and how far the frame at their front was read. Both stand in one value, and
/// no call parts them. So no frame is tried again that is known to be unfinished, and none more than 17 times.
#[derive(Drop)]
pub struct FrameBuffer {
    unread: FrameBytes,
    decoder: FrameDecoder,
}

impl Model for FrameBuffer {
    ghost use Rattle.std.specs.List.{concat};
    ghost use Rattle.h3_frames.specs.Tries.{Expects};
    ghost use Rattle.h3_frames.specs.UnknownSize.{let_go_by};
    ghost use Rattle.h3_frames.specs.UnreadFrames.{UnreadFrames};

    ghost Value = { UnreadFrames };

    ghost view = { λ b. record {
      pieces = b.unread.pieces;
      passing = b.unread.passing;
      known_to = b.unread.known_to;
      decoder = b.decoder;
    } };

    ghost invariant = { λ b. Expects (let_go_by b.unread.known_to) b.decoder (concat b.unread.pieces) };
}

impl FrameBuffer {
    /// Those of a stream of which nothing came.
    pub fn new(alloc: Global) -> FrameBuffer
        ensures { result ≡ none_unread }
    {
        FrameBuffer {
            unread: FrameBytes::new(alloc),
            decoder: FrameDecoder::default(),
        }
    }

    /// More bytes came. They are kept as they are, with no copy but of small pieces. If they belong to an unknown frame under way and are
    /// its last so far, they are freed instead. An `Err` changes nothing, and returns them: an allocation failed.
    #[tactic(auto, using(crate::proofs::Pushing::expects_pushed))]
    pub fn push(&mut self, bytes: Bytes) -> Result<(), Bytes>
        requires fits { length (concat self.old.pieces) + length bytes < 2 ^ 64 }
        ensures ok { OnOk result (self.new ≡ record self.old { pieces = with_piece self.old.pieces bytes }) }
        ensures bytes { OnOk result (concat self.new.pieces ≡ concat self.old.pieces ++ bytes) }
        ensures same { OnErr result (self.new ≡ self.old) }
        ensures back { IfErr result (λ b. b ≡ bytes) }
    {
        self.unread.push(bytes)
    }

    /// Takes the next known frame, of DATA its type and length alone, and the unknown ones before it. What is known is to be as at the call
    /// that freed bytes of an unknown frame (`suits`). Without a whole frame, and at an
    /// error, only unknown frames are taken, and the bytes of an unknown one under way are freed. Fewer bytes than the frame at the front
    /// is known to need are not tried.
    pub fn next_frame(
        &mut self,
        alloc: Global,
        kinds: FrameKinds,
    ) -> Result<Option<Frame<PayloadLen>>, FrameStreamError>
        requires suits { suits self.old.known_to kinds ≡ true }
        ensures gives { Gives kinds result (concat self.old.pieces) (concat self.new.pieces) }
        ensures between { IfOk result (λ o. IfSome o (λ f. AreBetween self.new)) }
        ensures spared { IfOk result (λ o. IfNone o (AreSpared kinds self.new)) }
        ensures counts { Counts kinds self.old.decoder (concat self.old.pieces) result self.new.decoder }
        ensures pieces { self.new.pieces ≡ ending (length (concat self.new.pieces)) self.old.pieces }
    {
        if self.is_at_frame() {
            return self.decode(alloc, kinds);
        }
        Ok(None)
    }

    /// The same, if the first piece has a whole HEADERS frame or the type and length of a DATA frame at its front, or fewer bytes came than
    /// the frame at the front is known to need. Otherwise `None`, which changes nothing.
    #[inline(always)]
    pub fn next_first(&mut self) -> Option<Option<MessageFrame>>
        ensures gives { (kinds : FrameKinds)
            → IfSome result (λ o. Gives kinds (Ok (any_frame o)) (concat self.old.pieces) (concat self.new.pieces)) }
        ensures between { IfSome result (λ o. IfSome o (λ f. AreBetween self.new)) }
        ensures counts { (kinds : FrameKinds)
            → IfSome result (λ o. Counts kinds self.old.decoder (concat self.old.pieces) (Ok (any_frame o)) self.new.decoder) }
        ensures same { IsNone result → self.new ≡ self.old }
        ensures pieces { self.new.pieces ≡ ending (length (concat self.new.pieces)) self.old.pieces }
    {
        if self.unread.passing() > 0 {
            return None;
        }
        self.unread.decode_first(&mut self.decoder)
    }

    // Whether a frame begins at the front: none is under way there, or the unknown one that was is whole, and is passed.
    fn is_at_frame(&mut self) -> bool
        ensures same { self.old.passing ≡ 0 → (result ≡ true) × (self.new ≡ self.old) }
        ensures waits { (kinds : FrameKinds) → suits self.old.known_to kinds ≡ true → result ≡ false
            → IsStillUnderWay kinds self.old self.new }
        ensures passed { (kinds : FrameKinds) → suits self.old.known_to kinds ≡ true → 0 < self.old.passing → result ≡ true
            → IsPassed kinds self.old self.new }
    {
        if self.unread.passing() == 0 {
            return true;
        }
        self.pass_unknown()
    }

    // An unknown frame is under way, of which some bytes were freed. If it is whole it is passed.
    fn pass_unknown(&mut self) -> bool
        requires under_way { 0 < self.old.passing }
        ensures waits { (kinds : FrameKinds) → suits self.old.known_to kinds ≡ true → result ≡ false
            → IsStillUnderWay kinds self.old self.new }
        ensures passed { (kinds : FrameKinds) → suits self.old.known_to kinds ≡ true → result ≡ true → IsPassed kinds self.old self.new }
    {
        let len = self.unread.len();
        if len < self.decoder.needed() {
            return false;
        }
        let size = self.unread.passing();
        if len < size {
            self.decoder.count(Some(size));
            return false;
        }
        self.unread.pass();
        self.decoder.count(None);
        true
    }

    // The same if none is under way.
    fn decode(
        &mut self,
        alloc: Global,
        kinds: FrameKinds,
    ) -> Result<Option<Frame<PayloadLen>>, FrameStreamError>
        requires none { self.old.passing ≡ 0 }
        ensures gives { Gives kinds result (concat self.old.pieces) (concat self.new.pieces) }
        ensures between { IfOk result (λ o. IfSome o (λ f. AreBetween self.new)) }
        ensures spared { IfOk result (λ o. IfNone o (AreSpared kinds self.new)) }
        ensures counts { Counts kinds self.old.decoder (concat self.old.pieces) result self.new.decoder }
        ensures pieces { self.new.pieces ≡ ending (length (concat self.new.pieces)) self.old.pieces }
    {
        let decoded = self.unread.decode(alloc, kinds, &mut self.decoder);
        if is_waiting(&decoded) {
            self.unread.spare(kinds);
        }
        decoded
    }

    /// If the front is an unknown frame under way, its bytes are freed, as far as they came, and from then on as they come. It is to be
    /// called when a frame may begin there. All that a contract sees of the bytes stays.
    pub fn spare(&mut self, kinds: FrameKinds)
        ensures pieces { self.new.pieces ≡ self.old.pieces }
        ensures decoder { self.new.decoder ≡ self.old.decoder }
        ensures spared { AreSpared kinds self.new }
    {
        self.unread.spare(kinds);
    }

    /// Whether these kinds are as at the call that freed bytes of the unknown frame under way, as far as that matters.
    pub fn suits(&self, kinds: FrameKinds) -> bool
        ensures { result ≡ suits self.now.known_to kinds }
    {
        self.unread.suits(kinds)
    }

    /// Whether the first byte is the type of a frame that has a meaning, whichever kinds are known. Then `spare` frees nothing.
    pub fn begins_known(&self) -> bool {
        self.unread.begins_known()
    }

    /// Whether there is a limit, and the first frame that is no whole unknown one says a length above it (RFC 9114, section 10.5). It has
    /// to be one whose payload is kept until it is whole. The payload need not be there. Nothing is taken. 2^62 - 1 or more: no limit.
    pub fn is_excessive(&self, most: u64, kinds: FrameKinds) -> bool
        ensures { result ≡ is_excessive_by kinds most (known_by kinds (concat self.now.pieces)) }
    {
        most < VarInt::MAX.into_inner() && self.unread.is_excessive(most, kinds)
    }

    /// The same, if the type and length in the first piece tell it, whichever kinds are known.
    pub fn is_first_excessive(&self, most: u64) -> Option<bool>
        ensures { (kinds : FrameKinds) → IfSome result (λ is. is ≡ is_excessive_by kinds most (known_by kinds (concat self.now.pieces))) }
    {
        if most < VarInt::MAX.into_inner() {
            return self.unread.is_first_excessive(most);
        }
        Some(false)
    }

    /// Whether the first frame that is no whole unknown one is HEADERS (RFC 9114, section 7.2.2), as far as its type came. Nothing is
    /// taken. It stays apart, so that a reader that finds no frame too long is as short as it was.
    #[inline(never)]
    pub fn begins_section(&self, kinds: FrameKinds) -> bool
        ensures { result ≡ begins_section (known_by kinds (concat self.now.pieces)) }
    {
        self.unread.begins_section(kinds)
    }

    /// Whether the bytes begin with the type and the length of a frame that is not SETTINGS (RFC 9114, section 7.2.4). Its payload need
    /// not be there. Nothing is taken.
    pub fn begins_other(&self) -> bool
        ensures { result ≡ begins_other (concat self.now.pieces) }
    {
        self.unread.begins_other()
    }

    /// How many bytes of the payload are still to come of the frame at the front: 0 while its type and length are not whole, and 0 once it
    /// is. It is to be asked when a frame may begin there. Nothing is taken.
    pub fn frame_left(&self) -> usize
        ensures { result ≡ left_of_frame (concat self.now.pieces) }
    {
        self.unread.frame_left()
    }

    /// Of the settings in the SETTINGS frame that comes first those that have no meaning here (RFC 9114, section 7.2.4), `most` at most.
    /// There are none if another frame comes first that is no whole unknown one, or if not all of it came. Nothing is taken.
    pub fn other_settings(
        &self,
        alloc: Global,
        kinds: FrameKinds,
        most: usize,
    ) -> Result<Vec<(u64, u64)>, AllocError>
        ensures { IfOk result (λ kept. kept.items ≡ others_at most (known_by kinds (concat self.now.pieces))) }
    {
        self.unread.other_settings(alloc, kinds, most)
    }

    /// The first piece's first bytes, `max` or all of it, when no frame is under way at the front. Nothing is copied. An `Err` changes
    /// nothing.
    pub fn take_chunk(&mut self, max: usize) -> Result<Option<Bytes>, AllocError>
        requires between { AreBetween self.old }
        ensures ok { IfOk result (λ o. (o, self.new.pieces) ≡ chunk_of max self.old.pieces) }
        ensures err { OnErr result (self.new.pieces ≡ self.old.pieces) }
        ensures decoder { self.new.decoder ≡ self.old.decoder }
        ensures none { self.new.passing ≡ 0 }
    {
        self.unread.take_chunk(max)
    }

    /// The first piece, when no frame is under way at the front.
    pub fn take_first_chunk(&mut self) -> Option<Bytes>
        requires between { AreBetween self.old }
        ensures pieces { (result, self.new.pieces) ≡ first_of self.old.pieces }
        ensures decoder { self.new.decoder ≡ self.old.decoder }
        ensures none { self.new.passing ≡ 0 }
    {
        self.unread.take_first_chunk()
    }

    /// Whether no byte is unread, and there is no memory for any: then there is nothing to free.
    pub fn is_bare(&self) -> bool
        ensures { result ≡ true → self.now.pieces ≡ [] }
    {
        self.unread.is_bare()
    }

    /// How many bytes were not read.
    pub fn len(&self) -> usize
        ensures { result ≡ length (concat self.now.pieces) }
    {
        self.unread.len()
    }

    /// How many of them are held: none while an unknown frame is under way at the front. It is to be asked when a frame may begin there.
    pub fn held(&self, kinds: FrameKinds) -> usize
        ensures { result ≡ held_length kinds (concat self.now.pieces) }
    {
        if self.unread.is_under_way(kinds) {
            return 0;
        }
        self.unread.len()
    }

    /// How often the frame under way was tried, or else the last frame that was taken, an unknown one too: at most 17 times, and 0 before
    /// the first. A try does not count that ends because an allocation fails, or at a frame that is refused.
    pub fn tries(&self) -> u8
        ensures value { result ≡ self.now.decoder.tries }
        ensures bound { result ≤ 17 }
    {
        self.decoder.tries()
    }
}

// Whether less than a frame was found.
#[inline(always)]
fn is_waiting(decoded: &Result<Option<Frame<PayloadLen>>, FrameStreamError>) -> bool
    ensures { result ≡ gives_none decoded.now }
{
    matches!(decoded, Ok(None))
}
