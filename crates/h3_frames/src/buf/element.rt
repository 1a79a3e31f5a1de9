//! What a list of pieces holds one after the other.
ghost use Rattle.std.specs.Prelude.{◌≡◌, ◌<◌, ◌≤◌, ◌++◌, [], ◌∷◌, true, false, length, drop, nat_le, Some, IsNone, IfOk, IfSome, OnErr};
ghost use Rattle.h3_frames.specs.Elements.{all_of, cuts};
ghost use Rattle.h3_frames.specs.Pieces.{chunk_of, first_bytes, first_size, without};

use super::pieces::Piece;
use super::singles::{Singles, single};
use bytes::{Buf, Bytes};
use std::alloc::AllocError;

/// One piece, or several of one byte.
#[derive(Debug, Drop)]
pub enum Element<T> {
    /// A piece as it came.
    Whole(T),
    /// A small piece, in a block that others share.
    Shared(Bytes),
    /// Pieces of one byte each.
    Singles(Singles),
}

impl<T: Buf> Element<T> {
    // Whether it is one piece, or none.
    #[inline]
    pub(crate) fn is_one_piece(&self) -> bool
        ensures { result ≡ nat_le (length (cuts T.unread self.now)) 1 }
    {
        match self {
            Element::Singles(run) => run.as_slice().len() <= 1,
            Element::Whole(_) | Element::Shared(_) => true,
        }
    }

    // Passes so many bytes.
    #[inline]
    pub(crate) fn pass(&mut self, count: usize)
        requires { count ≤ length (all_of T.unread self.old) }
        ensures value { all_of T.unread self.new ≡ drop count (all_of T.unread self.old) }
        ensures pieces { count < length (all_of T.unread self.old) → cuts T.unread self.new ≡ without count (cuts T.unread self.old) }
    {
        match self {
            Element::Whole(piece) => piece.advance(count),
            Element::Shared(piece) => piece.advance(count),
            Element::Singles(run) => run.advance(count),
        }
    }
}

impl Element<Bytes> {
    // The first piece.
    #[inline]
    pub(crate) fn first(&self) -> &[u8]
        requires { 0 < length (all_of (λ b. b) self.now) }
        ensures { result.now ≡ first_bytes (cuts (λ b. b) self.now) }
    {
        match self {
            Element::Whole(piece) => piece.as_slice(),
            Element::Shared(piece) => piece.as_slice(),
            Element::Singles(run) => &run.as_slice()[..1],
        }
    }

    // Takes the first piece, if others follow it.
    #[inline]
    pub(crate) fn take_one(&mut self) -> Option<Bytes>
        ensures some { IfSome result (λ p. cuts (λ b. b) self.old ≡ p ∷ cuts (λ b. b) self.new) }
        ensures bytes { IfSome result (λ p. all_of (λ b. b) self.old ≡ p ++ all_of (λ b. b) self.new) }
        ensures size { IfSome result (λ p. 0 < length p) }
        ensures left { IfSome result (λ p. 0 < length (all_of (λ b. b) self.new)) }
        ensures same { IsNone result → self.new ≡ self.old }
        ensures one { IsNone result → length (cuts (λ b. b) self.old) ≤ 1 }
    {
        match self {
            Element::Singles(run) => take_single(run),
            Element::Whole(_) | Element::Shared(_) => None,
        }
    }

    // The piece that it is.
    #[inline]
    pub(crate) fn into_piece(self) -> Bytes
        requires some { 0 < length (all_of (λ b. b) self) }
        requires one { length (cuts (λ b. b) self) ≤ 1 }
        ensures pieces { cuts (λ b. b) self ≡ result ∷ [] }
        ensures bytes { all_of (λ b. b) self ≡ result }
    {
        match self {
            Element::Whole(piece) => piece,
            Element::Shared(piece) => piece,
            Element::Singles(run) => single(run.as_slice()[0]),
        }
    }

    // Takes the first bytes of the first piece, which is longer. An `Err` changes nothing.
    pub(crate) fn cut(&mut self, max: usize) -> Result<Bytes, AllocError>
        requires { max < first_size (cuts (λ b. b) self.old) }
        ensures cut { IfOk result (λ c. (Some c, cuts (λ b. b) self.new) ≡ chunk_of max (cuts (λ b. b) self.old)) }
        ensures bytes { IfOk result (λ c. all_of (λ b. b) self.old ≡ c ++ all_of (λ b. b) self.new) }
        ensures size { IfOk result (λ c. length c ≡ max) }
        ensures left { IfOk result (λ c. 0 < length (all_of (λ b. b) self.new)) }
        ensures err { OnErr result (self.new ≡ self.old) }
    {
        match self {
            Element::Whole(piece) => piece.split_to(max),
            Element::Shared(piece) => piece.split_to(max),
            Element::Singles(_) => Ok(Bytes::new()),
        }
    }

    // Adds a piece of one byte, if it is such pieces, and answers whether it did.
    pub(crate) fn push_single(&mut self, byte: u8) -> bool
        ensures taken { result ≡ true → cuts (λ b. b) self.new ≡ cuts (λ b. b) self.old ++ (byte ∷ []) ∷ [] }
        ensures bytes { result ≡ true → all_of (λ b. b) self.new ≡ all_of (λ b. b) self.old ++ byte ∷ [] }
        ensures same { result ≡ false → self.new ≡ self.old }
    {
        match self {
            Element::Singles(run) => run.push(byte),
            Element::Whole(_) | Element::Shared(_) => false,
        }
    }
}

// The first of several pieces of one byte.
#[inline(never)]
fn take_single(run: &mut Singles) -> Option<Bytes>
    ensures some { IfSome result (λ p. (run.old ≡ p ++ run.new) × (length p ≡ 1) × (0 < length run.new)) }
    ensures same { IsNone result → run.new ≡ run.old }
    ensures one { IsNone result → length run.old ≤ 1 }
{
    let bytes = run.as_slice();
    if bytes.len() <= 1 {
        return None;
    }
    let first = bytes[0];
    run.advance(1);
    Some(single(first))
}

impl<T: Buf> Buf for Element<T> {
    ghost unread = { all_of T.unread };

    fn remaining(&self) -> usize {
        match self {
            Element::Whole(piece) => piece.remaining(),
            Element::Shared(piece) => piece.len(),
            Element::Singles(run) => run.as_slice().len(),
        }
    }

    fn chunk(&self) -> &[u8] {
        match self {
            Element::Whole(piece) => piece.chunk(),
            Element::Shared(piece) => piece.as_slice(),
            Element::Singles(run) => run.as_slice(),
        }
    }

    fn advance(&mut self, cnt: usize) {
        self.pass(cnt);
    }
}

impl<T: Piece> Piece for Element<T> {
    #[inline]
    fn bytes(&self) -> &[u8] {
        match self {
            Element::Whole(piece) => piece.bytes(),
            Element::Shared(piece) => piece.as_slice(),
            Element::Singles(run) => run.as_slice(),
        }
    }
}
