//! A queue of pieces.
ghost use Rattle.std.specs.Prelude.{◌≡◌, ◌+◌, ◌-◌, ◌^◌, ◌<◌, ◌≤◌, ◌++◌, [], ◌∷◌, true, false, length, drop, nat_le, IfOk, IfSome, OnOk};
ghost use Rattle.std.specs.Prelude.{OnErr, Some, All, MatchOption};
ghost use Rattle.bytes.specs.Unread.{IsChunkOf};
ghost use Rattle.std.specs.List.{concat};
ghost use Rattle.h3_frames.specs.Elements.{all_cuts, all_of, cuts};
ghost use Rattle.h3_frames.specs.Pieces.{without, chunk_of, first_of, first_bytes, first_size};

use super::block::{Block, copied};
use super::element::Element;
use super::singles::Singles;
use bytes::{Buf, Bytes};
use std::alloc::{AllocError, Global};
use std::collections::VecDeque;
use std::marker::Model;

// A piece of at most so many bytes is put into a block with others, if this many elements wait before it.
const SMALL: usize = 32;

const MANY: usize = 8;

// A block for small pieces has room for as many of the size that comes as wait already, within these bounds.
const LEAST_BLOCK: usize = 256;

const LARGEST_BLOCK: usize = 4096;

// A list of so many elements takes much memory.
const LONG: usize = 1024;

// Room for more elements is freed when none is left.
const KEPT: usize = 64;

/// Pieces, none of them empty. A contract sees the pieces as byte lists, and how many more fit.
#[derive(Drop)]
pub(super) struct Queue<T: Buf> {
    bufs: VecDeque<Element<T>>,
    len: usize,
    // the block that small pieces are copied to; none after the last element
    block: Block,
}

impl<T: Buf> Model for Queue<T> {
    ghost use Rattle.std.specs.Prelude.{◌≡◌, ℕ, ◌<◌, ◌-◌, List, length, All};
    ghost use Rattle.std.specs.VecDeque.{deque_len, deque_capacity};
    ghost use Rattle.h3_frames.specs.Elements.{all_of, all_cuts};
    ghost use Rattle.h3_frames.specs.Pieces.{Listed, joined};

    ghost Value = { Listed };

    ghost view = { λ b. record {
      pieces = all_cuts T.unread b.bufs.items;
      room = deque_capacity b.bufs - deque_len b.bufs;
    } };

    ghost invariant = { λ b. (b.len ≡ length (joined (all_of T.unread) b.bufs.items))
        × All (λ e. 0 < length (all_of T.unread e)) b.bufs.items };
}

impl<T: Buf> Queue<T> {
    /// Without pieces.
    pub(super) fn new(alloc: Global) -> Queue<T>
        ensures { result.pieces ≡ [] }
    {
        Queue {
            bufs: VecDeque::new(alloc),
            len: 0,
            block: None,
        }
    }

    /// What it holds, one after the other.
    pub(super) fn elements(&self) -> &VecDeque<Element<T>>
        ensures pieces { self.now.pieces ≡ all_cuts T.unread result.now.items }
        ensures filled { All (λ e. 0 < length (all_of T.unread e)) result.now.items }
    {
        &self.bufs
    }

    /// How many bytes the pieces have.
    #[inline]
    pub(super) fn remaining(&self) -> usize
        ensures { result ≡ length (concat self.now.pieces) }
    {
        self.len
    }

    /// Whether there are none.
    #[inline]
    pub(super) fn is_empty(&self) -> bool
        ensures none { result ≡ true → self.now.pieces ≡ [] }
        ensures some { result ≡ false → 0 < length self.now.pieces }
    {
        self.len == 0
    }

    /// Whether there are none, and no memory for any.
    pub(super) fn is_bare(&self) -> bool
        ensures { result ≡ true → self.now.pieces ≡ [] }
    {
        self.bufs.capacity() == 0 && self.is_empty()
    }

    /// A front of the bytes.
    pub(super) fn chunk(&self) -> &[u8]
        ensures { IsChunkOf result.now (concat self.now.pieces) }
    {
        match self.bufs.front() {
            Some(first) => first.chunk(),
            None => &[],
        }
    }

    /// Makes room for one more piece. An `Err` comes only if there was none, and changes nothing.
    #[inline(never)]
    pub(super) fn reserve(&mut self) -> Result<(), AllocError>
        ensures pieces { self.new.pieces ≡ self.old.pieces }
        ensures room { OnOk result (0 < self.new.room) }
        ensures full { OnErr result (self.old.room < 1) }
        ensures kept { self.old.room ≤ self.new.room }
    {
        let count = self.bufs.len();
        if count < self.bufs.capacity() {
            return Ok(());
        }
        self.bufs.reserve_exact(more_room(count))
    }

    // Adds an element, for which there is room.
    #[inline]
    pub(super) fn append(&mut self, element: Element<T>)
        requires some { 0 < length (all_of T.unread element) }
        requires room { 0 < self.old.room }
        requires fits { length (concat self.old.pieces) + length (all_of T.unread element) < 2 ^ 64 }
        ensures pieces { self.new.pieces ≡ self.old.pieces ++ cuts T.unread element }
        ensures left { self.old.room ≤ self.new.room + 1 }
    {
        self.len += element.remaining();
        self.bufs.push_back_reserved(element);
    }

    // Whether there is at most one piece.
    pub(super) fn is_one_piece(&self) -> bool
        ensures { result ≡ nat_le (length self.now.pieces) 1 }
    {
        match self.bufs.front() {
            Some(first) => self.bufs.len() == 1 && first.is_one_piece(),
            None => true,
        }
    }
}

// For how many elements more room is made, if so many fill it: as many at first, and a quarter of many.
fn more_room(count: usize) -> usize
    ensures { 0 < result }
{
    if count < LONG {
        count.max(2)
    } else {
        count / 4
    }
}

impl<T: Buf + Drop> Queue<T> {
    // Passes up to `cnt` bytes of the first element, and answers how many: all of them, if the first piece has so many.
    #[inline(never)]
    pub(super) fn advance_first(&mut self, cnt: usize) -> usize
        requires { (0 < cnt) × (cnt ≤ length (concat self.old.pieces)) }
        ensures count { (0 < result) × (result ≤ cnt) }
        ensures all { cnt ≤ first_size self.old.pieces → result ≡ cnt }
        ensures rest { concat self.new.pieces ≡ drop result (concat self.old.pieces) }
        ensures pieces { without (cnt - result) self.new.pieces ≡ without cnt self.old.pieces }
    {
        let Some(first) = self.bufs.front_mut() else {
            unreachable!()
        };
        let there = first.remaining();
        if cnt < there {
            first.pass(cnt);
            self.len -= cnt;
            return cnt;
        }
        self.bufs.pop_front();
        self.len -= there;
        self.let_go();
        there
    }

    // If no element is left, no memory is kept beyond room for a few.
    #[inline]
    fn let_go(&mut self)
        ensures { self.new.pieces ≡ self.old.pieces }
    {
        if !self.bufs.is_empty() {
            return;
        }
        self.block = None;
        if self.bufs.capacity() > KEPT {
            self.bufs = VecDeque::new(*self.bufs.allocator());
        }
    }
}

impl Queue<Bytes> {
    /// Adds a piece at the end, for which there is room. Small ones share a block.
    #[inline(never)]
    pub(super) fn add(&mut self, piece: Bytes)
        requires some { 0 < length piece }
        requires room { 0 < self.old.room }
        requires fits { length (concat self.old.pieces) + length piece < 2 ^ 64 }
        ensures pieces { self.new.pieces ≡ self.old.pieces ++ piece ∷ [] }
        ensures left { self.old.room ≤ self.new.room + 1 }
    {
        if self.push_small(piece.as_slice()) {
            return;
        }
        self.append(Element::Whole(piece));
    }

    // Adds a small piece if it takes less room than as it came, and answers whether it did. An allocation for that may fail.
    #[inline]
    fn push_small(&mut self, piece: &[u8]) -> bool
        requires some { 0 < length piece.now }
        requires room { 0 < self.old.room }
        requires fits { length (concat self.old.pieces) + length piece.now < 2 ^ 64 }
        ensures taken { result ≡ true → self.new.pieces ≡ self.old.pieces ++ piece.now ∷ [] }
        ensures same { result ≡ false → self.new ≡ self.old }
        ensures left { self.old.room ≤ self.new.room + 1 }
    {
        let len = piece.len();
        if len == 1 {
            return self.push_single(piece[0]);
        }
        let count = self.bufs.len();
        if len > SMALL || count < MANY {
            return false;
        }
        let room = count.saturating_mul(len).clamp(LEAST_BLOCK, LARGEST_BLOCK);
        self.push_copy(room, piece)
    }

    // Adds a copy of a piece, in a block that others share.
    #[inline(never)]
    fn push_copy(&mut self, room: usize, piece: &[u8]) -> bool
        requires some { 0 < length piece.now }
        requires room { 0 < self.old.room }
        requires fits { length (concat self.old.pieces) + length piece.now < 2 ^ 64 }
        ensures taken { result ≡ true → self.new.pieces ≡ self.old.pieces ++ piece.now ∷ [] }
        ensures same { result ≡ false → self.new ≡ self.old }
        ensures left { self.old.room ≤ self.new.room + 1 }
    {
        let alloc = *self.bufs.allocator();
        let Ok(copy) = copied(&mut self.block, alloc, room, piece) else {
            return false;
        };
        self.append(Element::Shared(copy));
        true
    }

    // Adds a piece of one byte.
    #[inline(never)]
    fn push_single(&mut self, byte: u8) -> bool
        requires room { 0 < self.old.room }
        requires fits { length (concat self.old.pieces) + 1 < 2 ^ 64 }
        ensures taken { result ≡ true → self.new.pieces ≡ self.old.pieces ++ (byte ∷ []) ∷ [] }
        ensures same { result ≡ false → self.new ≡ self.old }
        ensures left { self.old.room ≤ self.new.room + 1 }
    {
        if self.push_behind(byte) {
            return true;
        }
        let alloc = *self.bufs.allocator();
        let Ok(run) = Singles::new(alloc, byte) else {
            return false;
        };
        self.append(Element::Singles(run));
        true
    }

    // Adds a piece of one byte to the last element, if that is such pieces and has room.
    fn push_behind(&mut self, byte: u8) -> bool
        requires fits { length (concat self.old.pieces) + 1 < 2 ^ 64 }
        ensures taken { result ≡ true → self.new.pieces ≡ self.old.pieces ++ (byte ∷ []) ∷ [] }
        ensures same { result ≡ false → self.new ≡ self.old }
        ensures room { self.new.room ≡ self.old.room }
    {
        let Some(last) = self.bufs.back_mut() else {
            return false;
        };
        if last.push_single(byte) {
            self.len += 1;
            return true;
        }
        false
    }

    // The first piece.
    pub(super) fn first_bytes(&self) -> &[u8]
        ensures { result.now ≡ first_bytes self.now.pieces }
    {
        match self.bufs.front() {
            Some(first) => first.first(),
            None => &[],
        }
    }

    /// The first piece, which leaves the queue. It stays apart, since the first piece of most lists stands before the queue.
    #[inline(never)]
    pub(super) fn take_first_chunk(&mut self) -> Option<Bytes>
        ensures pieces { (result, self.new.pieces) ≡ first_of self.old.pieces }
        ensures bytes { MatchOption result ((concat self.old.pieces ≡ []) × (concat self.new.pieces ≡ []))
            (λ b. (concat self.old.pieces ≡ b ++ concat self.new.pieces) × (0 < length b)) }
    {
        if let Some(piece) = self.bufs.front_mut()?.take_one() {
            self.len -= piece.len();
            return Some(piece);
        }
        let first = self.bufs.pop_front()?;
        self.len -= first.remaining();
        self.let_go();
        Some(first.into_piece())
    }

    /// The first piece's first bytes, `max` or all of it. An `Err` changes nothing.
    #[inline(never)]
    pub(super) fn take_chunk(&mut self, max: usize) -> Result<Option<Bytes>, AllocError>
        ensures pieces { IfOk result (λ o. (o, self.new.pieces) ≡ chunk_of max self.old.pieces) }
        ensures some { IfOk result (λ o. MatchOption o ((concat self.old.pieces ≡ []) × (concat self.new.pieces ≡ []))
            (λ b. (concat self.old.pieces ≡ b ++ concat self.new.pieces) × (length b ≤ max) × (0 < max → 0 < length b))) }
        ensures err { OnErr result (self.new.pieces ≡ self.old.pieces) }
    {
        if self.first_bytes().len() <= max {
            return Ok(self.take_first_chunk());
        }
        Ok(Some(self.cut(max)?))
    }

    // The first bytes of the first piece, which is longer. An `Err` changes nothing.
    fn cut(&mut self, max: usize) -> Result<Bytes, AllocError>
        requires { max < first_size self.old.pieces }
        ensures pieces { IfOk result (λ b. (Some b, self.new.pieces) ≡ chunk_of max self.old.pieces) }
        ensures bytes { IfOk result (λ b. concat self.old.pieces ≡ b ++ concat self.new.pieces) }
        ensures size { IfOk result (λ b. length b ≡ max) }
        ensures err { OnErr result (self.new.pieces ≡ self.old.pieces) }
    {
        let Some(first) = self.bufs.front_mut() else {
            unreachable!()
        };
        let front = first.cut(max)?;
        self.len -= front.len();
        Ok(front)
    }
}
