//! The bytes of a stream of frames, of which those of an unknown frame that is under way are not kept.
ghost use Rattle.std.specs.Prelude.{◌≡◌, ℕ, ◌&&◌, ◌+◌, ◌^◌, ◌<◌, ◌≤◌, ◌++◌, [], None, Ok, true, nat_lt, length, drop, IfOk, IfErr, IfSome};
ghost use Rattle.std.specs.Prelude.{OnOk, OnErr, IsNone, MatchOption};
ghost use Rattle.h3_coding.specs.Varint.{varint_at};
ghost use Rattle.std.specs.List.{concat};
ghost use Rattle.h3_proto.specs.Config.{is_limit};
ghost use Rattle.h3_frames.specs.declared.frame.kinds.FrameKinds.{FrameKinds};
ghost use Rattle.h3_frames.specs.Frames.{plain_frames};
ghost use Rattle.h3_frames.specs.ExcessiveFrames.{SaysLength, begins_section, head_said, is_excessive_by, number_said};
ghost use Rattle.h3_frames.specs.FirstFrames.{begins_other};
ghost use Rattle.h3_frames.specs.FrameLeft.{left_of_frame};
ghost use Rattle.h3_frames.specs.Known.{Gives, known_by};
ghost use Rattle.h3_frames.specs.MessageFrames.{any_frame};
ghost use Rattle.h3_frames.specs.OtherSettings.{others_at};
ghost use Rattle.h3_frames.specs.Pieces.{IsRest, chunk_of, ending, first_of, with_piece};
ghost use Rattle.h3_frames.specs.Tries.{Counts, Expects};
ghost use Rattle.h3_frames.specs.UnknownSize.{AreLetGo, IsPassing, IsSpared, choices_for, is_known_type, is_longer, is_under_way};
ghost use Rattle.h3_frames.specs.UnknownSize.{let_go_by};
ghost use Rattle.h3_frames.specs.UnknownSize.{no_kinds, suits, unknown_size};

use super::decoder::{FrameDecoder, MessageFrame};
use super::errors::FrameStreamError;
use super::kinds::FrameKinds;
use super::let_go::LetGo;
use super::{excess, first, frame_left, other_settings};
use crate::buf::BufList;
use crate::proto::frame::{Frame, PayloadLen, is_update_type};
use bytes::{Buf, Bytes};
use h3_coding::coding::BufExt;
use std::alloc::{AllocError, Global};
use std::marker::Model;

/// Pieces of bytes. If an unknown frame is under way at their front, it frees them as they come (RFC 9114, section 9). A contract sees all
/// of them.
#[derive(Drop)]
pub(super) struct FrameBytes {
    kept: BufList<Bytes>,
    // the pieces in front of those, and how many bytes they have
    let_go: LetGo,
    gone: usize,
    // how many bytes the unknown frame has of which they are, or 0
    passing: usize,
    // by which choices its type would be known: it is 0x41, or one of PRIORITY_UPDATE
    known_to: FrameKinds,
    // the length after its type
    number: u64,
}

impl Model for FrameBytes {
    ghost use Rattle.std.specs.Prelude.{◌++◌, ◌<◌, ◌^◌, length};
    ghost use Rattle.std.specs.List.{concat};
    ghost use Rattle.h3_frames.specs.ExcessiveFrames.{SaysLength};
    ghost use Rattle.h3_frames.specs.UnknownSize.{Sparing, AreLetGo, IsSpared};

    ghost Value = { Sparing };

    ghost view = { λ b. record { pieces = b.let_go.pieces ++ b.kept.pieces; passing = b.passing; known_to = b.known_to } };

    ghost invariant = { λ b. AreLetGo b.known_to b.passing b.gone b.let_go.pieces
        × (length (concat (b.let_go.pieces ++ b.kept.pieces)) < 2 ^ 64)
        × IsSpared b.passing b.gone b.kept.pieces
        × SaysLength b.passing b.number (concat b.let_go.pieces) };
}

impl FrameBytes {
    /// Those of a stream of which nothing came.
    pub(super) fn new(alloc: Global) -> FrameBytes
        ensures { result ≡ record { pieces = []; passing = 0; known_to = no_kinds } }
    {
        FrameBytes {
            kept: BufList::new(alloc),
            let_go: LetGo::new(),
            gone: 0,
            passing: 0,
            known_to: FrameKinds::NONE,
            number: 0,
        }
    }

    /// More bytes came. If they belong to the unknown frame under way, and that goes on after them, they are freed.
    pub(super) fn push(&mut self, bytes: Bytes) -> Result<(), Bytes>
        requires fits { length (concat self.old.pieces) + length bytes < 2 ^ 64 }
        ensures ok { OnOk result (self.new ≡ record self.old { pieces = with_piece self.old.pieces bytes }) }
        ensures same { OnErr result (self.new ≡ self.old) }
        ensures back { IfErr result (λ b. b ≡ bytes) }
    {
        match self.kept.keep(bytes) {
            Ok(()) => {
                release(
                    &mut self.kept,
                    &mut self.let_go,
                    &mut self.gone,
                    self.passing,
                );
                Ok(())
            }
            Err(e) => Err(e.value),
        }
    }

    /// If the front is an unknown frame under way, its bytes are freed. A frame has to begin there.
    pub(super) fn spare(&mut self, kinds: FrameKinds)
        ensures pieces { self.new.pieces ≡ self.old.pieces }
        ensures same { 0 < self.old.passing → self.new ≡ self.old }
        ensures plain { self.old.passing ≡ 0 → self.old.known_to ≡ no_kinds }
        ensures is { IsPassing self.new }
        ensures spared { is_under_way kinds (concat self.new.pieces) ≡ true → 0 < self.new.passing }
    {
        let len = self.kept.remaining();
        if self.passing > 0 || len == 0 {
            return;
        }
        match unknown_size(&self.kept, kinds) {
            Some(size) if len < size => {
                self.known_to = choices_of(&self.kept);
                self.number = number_of(&self.kept);
                let_all_go(&mut self.kept, &mut self.let_go);
                self.gone = len;
                self.passing = size;
            }
            _ => {}
        }
    }

    /// Whether the unknown frame of which bytes were freed is unknown by these kinds too.
    pub(super) fn suits(&self, kinds: FrameKinds) -> bool
        ensures { result ≡ suits self.now.known_to kinds }
    {
        !(self.known_to.sessions && kinds.sessions) && !(self.known_to.updates && kinds.updates)
    }

    /// Whether the first byte is the type of a frame that has a meaning, whichever kinds are known.
    pub(super) fn begins_known(&self) -> bool {
        match self.kept.first_bytes().first() {
            Some(kind) => *kind < 64 && is_known_type(*kind as u64, FrameKinds::NONE),
            None => false,
        }
    }

    /// How many bytes the unknown frame under way has, its type and length among them, if some of them were freed; else 0.
    pub(super) fn passing(&self) -> usize
        ensures value { result ≡ self.now.passing }
        ensures is { IsPassing self.now }
    {
        self.passing
    }

    // RFC 9114 9: unknown frames skipped
    /// The unknown frame under way is whole, and is passed.
    pub(super) fn pass(&mut self)
        requires under_way { 0 < self.old.passing }
        requires whole { self.old.passing ≤ length (concat self.old.pieces) }
        ensures bytes { concat self.new.pieces ≡ drop self.old.passing (concat self.old.pieces) }
        ensures rest { IsRest self.old.pieces self.new.pieces }
        ensures none { self.new.passing ≡ 0 }
        ensures plain { self.new.known_to ≡ no_kinds }
    {
        self.kept.advance(self.passing - self.gone);
        self.let_go = LetGo::new();
        self.gone = 0;
        self.passing = 0;
        self.known_to = FrameKinds::NONE;
    }

    /// `FrameDecoder::decode_by`, when no unknown frame is under way.
    pub(super) fn decode(
        &mut self,
        alloc: Global,
        kinds: FrameKinds,
        decoder: &mut FrameDecoder,
    ) -> Result<Option<Frame<PayloadLen>>, FrameStreamError>
        requires none { self.old.passing ≡ 0 }
        requires expects { Expects (let_go_by self.old.known_to) decoder.old (concat self.old.pieces) }
        ensures gives { Gives kinds result (concat self.old.pieces) (concat self.new.pieces) }
        ensures expects { Expects kinds decoder.new (concat self.new.pieces) }
        ensures plain { OnErr result (Expects plain_frames decoder.new (concat self.new.pieces)) }
        ensures fresh { IfOk result (λ o. IfSome o (λ f. decoder.new.expected ≡ None)) }
        ensures counts { Counts kinds decoder.old (concat self.old.pieces) result decoder.new }
        ensures pieces { self.new.pieces ≡ ending (length (concat self.new.pieces)) self.old.pieces }
        ensures none { self.new.passing ≡ 0 }
        ensures known_to { self.new.known_to ≡ no_kinds }
    {
        decoder.decode_by(alloc, kinds, &mut self.kept)
    }

    /// `FrameDecoder::decode_first`, when no unknown frame is under way.
    #[inline(always)]
    pub(super) fn decode_first(
        &mut self,
        decoder: &mut FrameDecoder,
    ) -> Option<Option<MessageFrame>>
        requires none { self.old.passing ≡ 0 }
        requires expects { Expects (let_go_by self.old.known_to) decoder.old (concat self.old.pieces) }
        ensures gives { (kinds : FrameKinds)
            → IfSome result (λ o. Gives kinds (Ok (any_frame o)) (concat self.old.pieces) (concat self.new.pieces)) }
        ensures expects { Expects (let_go_by self.new.known_to) decoder.new (concat self.new.pieces) }
        ensures fresh { IfSome result (λ o. IfSome o (λ f. decoder.new.expected ≡ None)) }
        ensures counts { (kinds : FrameKinds)
            → IfSome result (λ o. Counts kinds decoder.old (concat self.old.pieces) (Ok (any_frame o)) decoder.new) }
        ensures decoder { IsNone result → decoder.new ≡ decoder.old }
        ensures same { IsNone result → self.new.pieces ≡ self.old.pieces }
        ensures rest { IsRest self.old.pieces self.new.pieces }
        ensures none { self.new.passing ≡ 0 }
        ensures known_to { self.new.known_to ≡ self.old.known_to }
    {
        decoder.decode_first(&mut self.kept)
    }

    /// `BufList::take_chunk`, when no unknown frame is under way.
    pub(super) fn take_chunk(&mut self, max: usize) -> Result<Option<Bytes>, AllocError>
        requires none { self.old.passing ≡ 0 }
        ensures ok { IfOk result (λ o. (o, self.new.pieces) ≡ chunk_of max self.old.pieces) }
        ensures err { OnErr result (self.new.pieces ≡ self.old.pieces) }
        ensures none { self.new.passing ≡ 0 }
        ensures known_to { self.new.known_to ≡ self.old.known_to }
    {
        self.kept.take_chunk(max)
    }

    /// `BufList::take_first_chunk`, when no unknown frame is under way.
    pub(super) fn take_first_chunk(&mut self) -> Option<Bytes>
        requires none { self.old.passing ≡ 0 }
        ensures pieces { (result, self.new.pieces) ≡ first_of self.old.pieces }
        ensures none { self.new.passing ≡ 0 }
        ensures known_to { self.new.known_to ≡ self.old.known_to }
    {
        self.kept.take_first_chunk()
    }

    /// How many bytes came and were not read.
    pub(super) fn len(&self) -> usize
        ensures { result ≡ length (concat self.now.pieces) }
    {
        self.gone + self.kept.remaining()
    }

    /// Whether no byte is unread, and there is no memory for any.
    pub(super) fn is_bare(&self) -> bool
        ensures { result ≡ true → self.now.pieces ≡ [] }
    {
        self.passing == 0 && self.kept.is_bare()
    }

    /// Whether the first frame that is no whole unknown one says a length above this limit, and is one whose payload is kept until it is
    /// whole. Nothing is taken.
    pub(super) fn is_excessive(&self, most: u64, kinds: FrameKinds) -> bool
        requires { is_limit most ≡ true }
        ensures { result ≡ is_excessive_by kinds most (known_by kinds (concat self.now.pieces)) }
    {
        if let Some(is_excessive) = self.is_first_excessive(most) {
            return is_excessive;
        }
        // an update that was unknown as its bytes were freed
        if !self.suits(kinds) {
            return is_long_update(self.known_to, kinds, self.number, most);
        }
        if self.len() < self.passing {
            return false;
        }
        excess::is_excessive_behind(&self.kept, self.passing - self.gone, most, kinds)
    }

    /// Of the settings that come first those that have no meaning, `most` at most: none if another frame comes first, or not all of them
    /// came. Nothing is taken.
    pub(super) fn other_settings(
        &self,
        alloc: Global,
        kinds: FrameKinds,
        most: usize,
    ) -> Result<Vec<(u64, u64)>, AllocError>
        ensures { IfOk result (λ kept. kept.items ≡ others_at most (known_by kinds (concat self.now.pieces))) }
    {
        if self.len() < self.passing {
            return Ok(Vec::new(alloc));
        }
        if !self.suits(kinds) {
            return Ok(Vec::new(alloc));
        }
        other_settings::other_settings(alloc, &self.kept, self.passing - self.gone, kinds, most)
    }

    /// The same, if the type and length in the first piece tell it, whichever kinds are known.
    pub(super) fn is_first_excessive(&self, most: u64) -> Option<bool>
        requires { is_limit most ≡ true }
        ensures { (kinds : FrameKinds) → IfSome result (λ is. is ≡ is_excessive_by kinds most (known_by kinds (concat self.now.pieces))) }
    {
        if self.passing > 0 {
            return None;
        }
        excess::is_first_excessive(&self.kept, most)
    }

    /// Whether the first frame that is no whole unknown one is HEADERS, as far as its type came. Nothing is taken.
    pub(super) fn begins_section(&self, kinds: FrameKinds) -> bool
        ensures { result ≡ begins_section (known_by kinds (concat self.now.pieces)) }
    {
        if self.len() < self.passing {
            return false;
        }
        if !self.suits(kinds) {
            return false;
        }
        excess::begins_section(&self.kept, self.passing - self.gone, kinds)
    }

    /// Whether the bytes begin with the type and the length of a frame that is not SETTINGS: an unknown frame under way is one. Nothing
    /// is taken.
    pub(super) fn begins_other(&self) -> bool
        ensures { result ≡ begins_other (concat self.now.pieces) }
    {
        if self.passing > 0 {
            return true;
        }
        first::begins_other(&self.kept)
    }

    /// How many bytes of the payload are still to come of the frame at the front: 0 while its type and length are not whole, and 0 once it
    /// is. A frame has to begin there.
    pub(super) fn frame_left(&self) -> usize
        ensures { result ≡ left_of_frame (concat self.now.pieces) }
    {
        if self.passing > 0 {
            return self.passing.saturating_sub(self.len());
        }
        frame_left::frame_left(&self.kept)
    }

    /// Whether an unknown frame is under way at the front. A frame has to begin there.
    pub(super) fn is_under_way(&self, kinds: FrameKinds) -> bool
        ensures { result ≡ is_under_way kinds (concat self.now.pieces) }
    {
        if self.passing > 0 {
            return self.suits(kinds) && self.len() < self.passing;
        }
        is_longer(self.len(), unknown_size(&self.kept, kinds))
    }
}

// Frees what is kept, if the unknown frame under way goes on after it.
fn release(kept: &mut BufList<Bytes>, let_go: &mut LetGo, gone: &mut usize, passing: usize)
    requires fits { gone.old + length (concat kept.old.pieces) < 2 ^ 64 }
    ensures front { (known_to : FrameKinds) → AreLetGo known_to passing gone.old let_go.old.pieces
        → AreLetGo known_to passing gone.new let_go.new.pieces }
    ensures says { (known_to : FrameKinds) (number : ℕ) → AreLetGo known_to passing gone.old let_go.old.pieces
        → SaysLength passing number (concat let_go.old.pieces) → SaysLength passing number (concat let_go.new.pieces) }
    ensures pieces { let_go.new.pieces ++ kept.new.pieces ≡ let_go.old.pieces ++ kept.old.pieces }
    ensures spared { IsSpared passing gone.new kept.new.pieces }
{
    let len = kept.remaining();
    if *gone + len >= passing {
        return;
    }
    *gone += len;
    let_all_go(kept, let_go);
}

// Frees all pieces.
fn let_all_go(kept: &mut BufList<Bytes>, let_go: &mut LetGo)
    ensures pieces { let_go.new.pieces ≡ let_go.old.pieces ++ kept.old.pieces }
    ensures none { kept.new.pieces ≡ [] }
{
    while let Some(piece) = kept.take_first_chunk() {
        *let_go = LetGo::with(let_go, &piece);
    }
}

// Whether a frame of a type that is known to these choices is an update to those kinds, and longer than this.
fn is_long_update(known_to: FrameKinds, kinds: FrameKinds, number: u64, most: u64) -> bool
    ensures { result ≡ ((known_to.updates && kinds.updates) && nat_lt most number) }
{
    known_to.updates && kinds.updates && number > most
}

// Whether a frame of this size has more bytes.
fn is_longer(len: usize, size: Option<usize>) -> bool
    ensures { result ≡ is_longer len size }
{
    match size {
        Some(size) => len < size,
        None => false,
    }
}

// How many bytes the frame at the front has, if its type and length are whole and its type is unknown.
pub(super) fn unknown_size(pieces: &BufList<Bytes>, kinds: FrameKinds) -> Option<usize>
    ensures { result ≡ unknown_size kinds (concat pieces.now.pieces) }
{
    // (a type of one byte, which all known ones but those of PRIORITY_UPDATE are written as)
    if let Some(kind) = pieces.first_bytes().first() {
        if *kind < 64 && is_known_type(*kind as u64, kinds) {
            return None;
        }
    }
    unknown_size_anywhere(pieces, kinds)
}

// The same, wherever type and length lie. It stays apart, so that a known type is found without a cursor.
#[tactic(auto, unfolding(crate::specs::UnknownSize::unknown_size))]
#[inline(never)]
fn unknown_size_anywhere(pieces: &BufList<Bytes>, kinds: FrameKinds) -> Option<usize>
    ensures { result ≡ unknown_size kinds (concat pieces.now.pieces) }
{
    let mut cursor = pieces.cursor();
    let all = cursor.remaining();
    let Ok(kind) = cursor.get_var() else {
        return None;
    };
    if is_known_type(kind, kinds) {
        return None;
    }
    let Ok(number) = cursor.get_var() else {
        return None;
    };
    Some(all - cursor.remaining() + number as usize)
}

// By which choices the type of the frame at the front would be known.
fn choices_of(pieces: &BufList<Bytes>) -> FrameKinds
    ensures { MatchOption (varint_at (concat pieces.now.pieces)) (result ≡ no_kinds) (λ p. result ≡ choices_for p.0) }
{
    let mut cursor = pieces.cursor();
    let Ok(kind) = cursor.get_var() else {
        return FrameKinds::NONE;
    };
    FrameKinds {
        sessions: kind == 0x41,
        updates: is_update_type(kind),
    }
}

// The length of the frame at the front, as it stands after its type, or 0 if it did not come.
fn number_of(pieces: &BufList<Bytes>) -> u64
    ensures { result ≡ number_said (head_said (varint_at (concat pieces.now.pieces))) }
{
    let mut cursor = pieces.cursor();
    let Ok(_) = cursor.get_var() else {
        return 0;
    };
    let Ok(number) = cursor.get_var() else {
        return 0;
    };
    number
}

// Whether a type has a meaning, or is refused.
fn is_known_type(kind: u64, kinds: FrameKinds) -> bool
    ensures { result ≡ is_known_type kinds kind }
{
    (kind == 0x41 && kinds.sessions)
        || (kinds.updates && is_update_type(kind))
        || kind == 0
        || kind == 1
        || kind == 3
        || kind == 4
        || kind == 5
        || kind == 7
        || kind == 13
        || kind == 2
        || kind == 6
        || kind == 8
        || kind == 9
}
