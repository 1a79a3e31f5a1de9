//! A list of pieces of bytes that is read as one run.
ghost use Rattle.std.specs.Prelude.{◌≡◌, ◌+◌, ◌-◌, ◌^◌, ◌<◌, ◌≤◌, ◌++◌, [], ◌∷◌, true, false, length, drop, nat_le, IfOk, IfErr, IfSome};
ghost use Rattle.std.specs.Prelude.{OnOk, OnErr, MatchOption};
ghost use Rattle.std.specs.List.{concat};
ghost use Rattle.h3_frames.specs.Numbers.{TakesNumber};
ghost use Rattle.h3_frames.specs.Pieces.{with_piece, without, chunk_of, ending, first_of, first_bytes, first_size};

use bytes::{Buf, Bytes};
use element::Element;
use h3_coding::coding::BufExt;
use queue::Queue;
use std::alloc::{AllocError, AllocFailed, Global};
use std::fmt;
use std::marker::Model;

mod block;
mod element;
mod pieces;
mod queue;
mod singles;

pub use pieces::{Cursor, Piece};

/// Pieces, none of them empty. A contract sees the pieces as byte lists, of which `concat` is all
/// their bytes, and how many more pieces fit. A list of `Bytes` can let small ones share a block (`keep`).
#[derive(Drop)]
pub struct BufList<T: Buf> {
    // the first piece, if it came to an empty list: it takes no memory but its own
    front: Option<T>,
    behind: Queue<T>,
}

impl<T: Buf> Model for BufList<T> {
    ghost use Rattle.std.specs.Prelude.{ℕ, ◌+◌, ◌<◌, ◌^◌, ◌++◌, List, length, IfSome};
    ghost use Rattle.std.specs.List.{concat};
    ghost use Rattle.h3_frames.specs.Elements.{held, front_room};
    ghost use Rattle.h3_frames.specs.Pieces.{Listed};

    ghost Value = { Listed };

    ghost view = { λ b. record {
      pieces = held T.unread b.front ++ b.behind.pieces;
      room = b.behind.room + front_room b.front b.behind.pieces;
    } };

    ghost invariant = { λ b. IfSome b.front (λ p. 0 < length (T.unread p))
        × (length (concat (held T.unread b.front ++ b.behind.pieces)) < 2 ^ 64) };
}

impl<T: Buf> BufList<T> {
    /// A list without pieces.
    pub fn new(alloc: Global) -> BufList<T>
        ensures pieces { result.pieces ≡ [] }
        ensures bytes { concat result.pieces ≡ [] }
    {
        BufList {
            front: None,
            behind: Queue::new(alloc),
        }
    }

    /// A cursor at the first byte.
    pub fn cursor(&self) -> Cursor<'_, T>
        ensures position { result.position ≡ 0 }
        ensures all { result.all ≡ concat self.now.pieces }
    {
        Cursor::new(&self.front, self.behind.elements(), self.count())
    }

    /// Adds a piece at the end. An empty one keeps nothing. An `Err` returns the piece.
    pub fn push(&mut self, piece: T) -> Result<(), AllocFailed<T>>
    where
        T: Drop,
        requires fits { length (concat self.old.pieces) + length (T.unread piece) < 2 ^ 64 }
        ensures pieces { OnOk result (self.new.pieces ≡ with_piece self.old.pieces (T.unread piece)) }
        ensures bytes { OnOk result (concat self.new.pieces ≡ concat self.old.pieces ++ T.unread piece) }
        ensures same { OnErr result (self.new.pieces ≡ self.old.pieces) }
        ensures value { IfErr result (λ e. e.value ≡ piece) }
    {
        if self.reserve().is_err() {
            return Err(AllocFailed { value: piece });
        }
        self.push_reserved(piece);
        Ok(())
    }

    /// Makes room for one more piece, which `push_reserved` then takes. An `Err` comes only if
    /// there was none, and changes nothing.
    pub fn reserve(&mut self) -> Result<(), AllocError>
        ensures pieces { self.new.pieces ≡ self.old.pieces }
        ensures room { OnOk result (0 < self.new.room) }
        ensures full { OnErr result (self.old.room < 1) }
        ensures kept { self.old.room ≤ self.new.room }
    {
        if self.is_empty() {
            return Ok(());
        }
        self.behind.reserve()?;
        Ok(())
    }

    /// Adds a piece at the end, for which there is room. An empty one keeps nothing. It cannot be
    /// refused.
    pub fn push_reserved(&mut self, piece: T)
    where
        T: Drop,
        requires room { 0 < self.old.room }
        requires fits { length (concat self.old.pieces) + length (T.unread piece) < 2 ^ 64 }
        ensures pieces { self.new.pieces ≡ with_piece self.old.pieces (T.unread piece) }
        ensures bytes { concat self.new.pieces ≡ concat self.old.pieces ++ T.unread piece }
        ensures left { self.old.room ≤ self.new.room + 1 }
    {
        if piece.remaining() == 0 {
            return;
        }
        self.put(piece);
    }

    // Adds a piece, for which there is room.
    #[inline]
    fn put(&mut self, piece: T)
    where
        T: Drop,
        requires some { 0 < length (T.unread piece) }
        requires room { 0 < self.old.room }
        requires fits { length (concat self.old.pieces) + length (T.unread piece) < 2 ^ 64 }
        ensures pieces { self.new.pieces ≡ self.old.pieces ++ T.unread piece ∷ [] }
        ensures left { self.old.room ≤ self.new.room + 1 }
    {
        if self.is_empty() {
            self.begin(piece);
            return;
        }
        self.behind.append(Element::Whole(piece));
    }

    // Adds the first piece.
    #[inline]
    fn begin(&mut self, piece: T)
    where
        T: Drop,
        requires none { self.old.pieces ≡ [] }
        requires some { 0 < length (T.unread piece) }
        requires fits { length (T.unread piece) < 2 ^ 64 }
        ensures pieces { self.new.pieces ≡ T.unread piece ∷ [] }
        ensures left { self.old.room ≤ self.new.room + 1 }
    {
        self.front = Some(piece);
    }

    // How many bytes there are.
    #[inline]
    fn count(&self) -> usize
        ensures { result ≡ length (concat self.now.pieces) }
    {
        let others = self.behind.remaining();
        match &self.front {
            Some(first) => first.remaining() + others,
            None => others,
        }
    }

    // Whether there are no pieces.
    #[inline]
    fn is_empty(&self) -> bool
        ensures none { result ≡ true → self.now.pieces ≡ [] }
        ensures some { result ≡ false → 0 < length self.now.pieces }
    {
        match &self.front {
            Some(_) => false,
            None => self.behind.is_empty(),
        }
    }

    // Whether there are no pieces, and no memory for any.
    pub(crate) fn is_bare(&self) -> bool
        ensures { result ≡ true → self.now.pieces ≡ [] }
    {
        self.front.is_none() && self.behind.is_bare()
    }

    /// Whether there is at most one piece: what is read then waits for no other piece.
    pub fn is_one_piece(&self) -> bool
        ensures { result ≡ nat_le (length self.now.pieces) 1 }
    {
        match &self.front {
            Some(_) => self.behind.is_empty(),
            None => self.behind.is_one_piece(),
        }
    }
}

impl<T: Buf + Drop> Buf for BufList<T> {
    ghost unread = { λ b. concat b.pieces };

    fn remaining(&self) -> usize {
        self.count()
    }

    fn chunk(&self) -> &[u8] {
        match &self.front {
            Some(first) => first.chunk(),
            None => self.behind.chunk(),
        }
    }

    fn advance(&mut self, cnt: usize)
        requires { cnt ≤ length (concat self.old.pieces) }
        ensures value { concat self.new.pieces ≡ drop cnt (concat self.old.pieces) }
        ensures pieces { self.new.pieces ≡ without cnt self.old.pieces }
    {
        let mut left = cnt;
        while left > 0 {
            left -= self.advance_first(left);
        }
    }
}

impl<T: Buf + Drop> BufList<T> {
    // Passes up to `cnt` bytes, and answers how many: all of them, if the first piece has so many.
    pub(crate) fn advance_first(&mut self, cnt: usize) -> usize
        requires { (0 < cnt) × (cnt ≤ length (concat self.old.pieces)) }
        ensures count { (0 < result) × (result ≤ cnt) }
        ensures all { cnt ≤ first_size self.old.pieces → result ≡ cnt }
        ensures rest { concat self.new.pieces ≡ drop result (concat self.old.pieces) }
        ensures pieces { without (cnt - result) self.new.pieces ≡ without cnt self.old.pieces }
    {
        match &mut self.front {
            Some(first) => {
                let there = first.remaining();
                if cnt < there {
                    first.advance(cnt);
                    return cnt;
                }
                self.front = None;
                there
            }
            None => self.behind.advance_first(cnt),
        }
    }
}

impl BufList<Bytes> {
    /// `push` that lets small pieces share a block, so that a peer that sends a byte at a time is kept in little room. It keeps the places
    /// at which one piece ends and the next begins.
    pub fn keep(&mut self, piece: Bytes) -> Result<(), AllocFailed<Bytes>>
        requires fits { length (concat self.old.pieces) + length piece < 2 ^ 64 }
        ensures pieces { OnOk result (self.new.pieces ≡ with_piece self.old.pieces piece) }
        ensures bytes { OnOk result (concat self.new.pieces ≡ concat self.old.pieces ++ piece) }
        ensures same { OnErr result (self.new.pieces ≡ self.old.pieces) }
        ensures value { IfErr result (λ e. e.value ≡ piece) }
    {
        if self.reserve().is_err() {
            return Err(AllocFailed { value: piece });
        }
        self.keep_reserved(piece);
        Ok(())
    }

    /// `push_reserved` that lets small pieces share a block, as `keep` does it.
    pub fn keep_reserved(&mut self, piece: Bytes)
        requires room { 0 < self.old.room }
        requires fits { length (concat self.old.pieces) + length piece < 2 ^ 64 }
        ensures pieces { self.new.pieces ≡ with_piece self.old.pieces piece }
        ensures bytes { concat self.new.pieces ≡ concat self.old.pieces ++ piece }
        ensures left { self.old.room ≤ self.new.room + 1 }
    {
        self.add(piece);
    }

    #[inline]
    fn add(&mut self, piece: Bytes)
        requires room { 0 < self.old.room }
        requires fits { length (concat self.old.pieces) + length piece < 2 ^ 64 }
        ensures pieces { self.new.pieces ≡ with_piece self.old.pieces piece }
        ensures left { self.old.room ≤ self.new.room + 1 }
    {
        if piece.is_empty() {
            return;
        }
        self.put_small(piece);
    }

    // `put` that lets small pieces share a block.
    #[inline]
    fn put_small(&mut self, piece: Bytes)
        requires some { 0 < length piece }
        requires room { 0 < self.old.room }
        requires fits { length (concat self.old.pieces) + length piece < 2 ^ 64 }
        ensures pieces { self.new.pieces ≡ self.old.pieces ++ piece ∷ [] }
        ensures left { self.old.room ≤ self.new.room + 1 }
    {
        if self.is_empty() {
            self.begin(piece);
            return;
        }
        self.behind.add(piece);
    }

    // The first piece.
    #[inline]
    pub(crate) fn first_bytes(&self) -> &[u8]
        ensures { result.now ≡ first_bytes self.now.pieces }
    {
        match &self.front {
            Some(first) => first.as_slice(),
            None => self.behind.first_bytes(),
        }
    }

    /// Takes a variable-length integer (RFC 9000, section 16) from the front, if one is whole.
    /// Otherwise nothing changes.
    #[tactic(auto, using(crate::specs::PieceLaws::rest_same))]
    pub fn take_var(&mut self) -> Option<u64>
        ensures takes { TakesNumber result (concat self.old.pieces) (concat self.new.pieces) }
        ensures below { IfSome result (λ n. n < 2 ^ 62) }
        ensures pieces { self.new.pieces ≡ ending (length (concat self.new.pieces)) self.old.pieces }
    {
        let mut cursor = self.cursor();
        let number = cursor.get_var();
        let position = cursor.position();
        match number {
            Ok(number) => {
                self.advance(position);
                Some(number)
            }
            Err(_) => None,
        }
    }

    /// The first piece, which leaves the list.
    pub fn take_first_chunk(&mut self) -> Option<Bytes>
        ensures pieces { (result, self.new.pieces) ≡ first_of self.old.pieces }
        ensures bytes { MatchOption result ((concat self.old.pieces ≡ []) × (concat self.new.pieces ≡ []))
            (λ b. (concat self.old.pieces ≡ b ++ concat self.new.pieces) × (0 < length b)) }
    {
        match self.front.take() {
            Some(first) => Some(first),
            None => self.behind.take_first_chunk(),
        }
    }

    /// The first piece's first bytes, `max` or all of it. Nothing is copied. An `Err` changes
    /// nothing.
    pub fn take_chunk(&mut self, max: usize) -> Result<Option<Bytes>, AllocError>
        ensures pieces { IfOk result (λ o. (o, self.new.pieces) ≡ chunk_of max self.old.pieces) }
        ensures some { IfOk result (λ o. MatchOption o ((concat self.old.pieces ≡ []) × (concat self.new.pieces ≡ []))
            (λ b. (concat self.old.pieces ≡ b ++ concat self.new.pieces) × (length b ≤ max) × (0 < max → 0 < length b))) }
        ensures err { OnErr result (self.new.pieces ≡ self.old.pieces) }
    {
        match &mut self.front {
            Some(first) => {
                if max < first.len() {
                    return Ok(Some(first.split_to(max)?));
                }
                Ok(self.front.take())
            }
            None => self.behind.take_chunk(max),
        }
    }

    /// Adds all of a buffer at the end, as one piece, which is a copy. An empty one keeps nothing.
    /// An `Err` leaves the list as it was, and the buffer with a front of its bytes taken.
    pub fn push_bytes<B: Buf>(&mut self, alloc: Global, buf: &mut B) -> Result<(), AllocError>
        requires fits { length (concat self.old.pieces) + length (B.unread buf.old) < 2 ^ 64 }
        ensures pieces { OnOk result (self.new.pieces ≡ with_piece self.old.pieces (B.unread buf.old)) }
        ensures bytes { OnOk result (concat self.new.pieces ≡ concat self.old.pieces ++ B.unread buf.old) }
        ensures drained { OnOk result (B.unread buf.new ≡ []) }
        ensures same { OnErr result (self.new.pieces ≡ self.old.pieces) }
        ensures kept { B.kept buf.new ≡ B.kept buf.old }
    {
        self.reserve()?;
        let len = buf.remaining();
        let Ok(piece) = buf.copy_to_bytes(alloc, len) else {
            return Err(AllocError);
        };
        self.keep_reserved(piece);
        Ok(())
    }
}

impl<T: Buf + fmt::Debug> fmt::Debug for BufList<T> {
    fn fmt<W: fmt::Write>(&self, f: &mut fmt::Formatter<W>) -> fmt::Result {
        match &self.front {
            Some(first) => f
                .debug_struct("BufList")
                .field("front", first)
                .field("bufs", self.behind.elements())
                .finish(),
            None => f
                .debug_struct("BufList")
                .field("bufs", self.behind.elements())
                .finish(),
        }
    }
}
