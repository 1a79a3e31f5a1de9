//! A place in a list of pieces, which leaves the list as it is.
ghost use Rattle.std.specs.Prelude.{◌≡◌, ◌+◌, ◌<◌, ◌≤◌, [], length, drop, slice_index_or};
ghost use Rattle.h3_frames.specs.declared.buf.element.Element.{Element};
ghost use Rattle.h3_frames.specs.Elements.{all_of, all_elements};
ghost use Rattle.h3_frames.specs.Place.{left_at, place_kept};

use super::element::Element;
use bytes::{Buf, Bytes};
use std::collections::VecDeque;
use std::marker::Model;

/// A buffer whose bytes lie together.
pub trait Piece: Buf {
    /// All the bytes that are left.
    fn bytes(&self) -> &[u8]
        ensures { result.now ≡ Self.unread self.now };
}

impl Piece for Bytes {
    fn bytes(&self) -> &[u8] {
        self.as_slice()
    }
}

impl Piece for &[u8] {
    fn bytes(&self) -> &[u8] {
        *self
    }
}

/// Reads the pieces of a list and leaves them there.
#[derive(Drop)]
pub struct Cursor<'a, T: Buf> {
    front: &'a Option<T>,
    behind: &'a VecDeque<Element<T>>,
    index: usize,
    passed: usize,
    position: usize,
    len: usize,
}

impl<'a, T: Buf> Model for Cursor<'a, T> {
    ghost use Rattle.std.specs.Prelude.{drop};
    ghost use Rattle.h3_frames.specs.Elements.{all_of, all_elements};
    ghost use Rattle.h3_frames.specs.Pieces.{joined};
    ghost use Rattle.h3_frames.specs.Place.{Place, IsPlaced};

    ghost Value = { Place };

    ghost view = { λ c. record { all = joined (all_of T.unread) (all_elements c.front.now c.behind.now.items); position = c.position } };

    ghost invariant = { λ c. IsPlaced (all_of T.unread) (all_elements c.front.now c.behind.now.items) c.index c.passed c.position c.len };
}

impl<'a, T: Buf> Cursor<'a, T> {
    ghost use Rattle.std.specs.Prelude.{All};
    ghost use Rattle.h3_frames.specs.Elements.{all_of, all_elements};
    ghost use Rattle.h3_frames.specs.Pieces.{joined};

    pub(super) fn new(
        front: &'a Option<T>,
        behind: &'a VecDeque<Element<T>>,
        len: usize,
    ) -> Cursor<'a, T>
        requires len { len ≡ length (joined (all_of T.unread) (all_elements front.now behind.now.items)) }
        requires filled { All (λ e. 0 < length (all_of T.unread e)) (all_elements front.now behind.now.items) }
        ensures position { result.position ≡ 0 }
        ensures all { result.all ≡ joined (all_of T.unread) (all_elements front.now behind.now.items) }
    {
        Cursor {
            front,
            behind,
            index: 0,
            passed: 0,
            position: 0,
            len,
        }
    }

    /// How many bytes were read.
    pub fn position(&self) -> usize
        ensures { result ≡ self.now.position }
    {
        self.position
    }
}

// The bytes at this place among a first piece and those after it; none past them.
fn piece_at<'a, T: Piece>(
    front: &'a Option<T>,
    behind: &'a VecDeque<Element<T>>,
    index: usize,
) -> &'a [u8]
    ensures some { index < length (all_elements front.now behind.now.items) → (d : Element T)
        → result.now ≡ all_of T.unread (slice_index_or (all_elements front.now behind.now.items) index d) }
    ensures none { length (all_elements front.now behind.now.items) ≤ index → result.now ≡ [] }
{
    match front {
        Some(first) => {
            if index == 0 {
                return first.bytes();
            }
            bytes_at(behind, index - 1)
        }
        None => bytes_at(behind, index),
    }
}

fn bytes_at<T: Piece>(behind: &VecDeque<Element<T>>, index: usize) -> &[u8]
    ensures some { index < length behind.now.items → (d : Element T)
        → result.now ≡ all_of T.unread (slice_index_or behind.now.items index d) }
    ensures none { length behind.now.items ≤ index → result.now ≡ [] }
{
    match behind.get(index) {
        Some(element) => element.bytes(),
        None => &[],
    }
}

impl<'a, T: Piece> Cursor<'a, T> {
    // Passes up to `cnt` bytes of the piece under the cursor, and answers how many.
    fn advance_piece(&mut self, cnt: usize) -> usize
        requires { (0 < cnt) × (cnt ≤ length (left_at self.old)) }
        ensures count { (0 < result) × (result ≤ cnt) }
        ensures position { self.new.position ≡ self.old.position + result }
        ensures all { self.new.all ≡ self.old.all }
    {
        let left = piece_at(self.front, self.behind, self.index).len() - self.passed;
        if cnt < left {
            self.passed += cnt;
            self.position += cnt;
            cnt
        } else {
            self.index += 1;
            self.passed = 0;
            self.position += left;
            left
        }
    }
}

impl<'a, T: Piece> Buf for Cursor<'a, T> {
    ghost unread = { left_at };

    ghost kept = { place_kept };

    fn remaining(&self) -> usize {
        self.len - self.position
    }

    fn chunk(&self) -> &[u8] {
        &piece_at(self.front, self.behind, self.index)[self.passed..]
    }

    fn advance(&mut self, cnt: usize) {
        let mut left = cnt;
        while left > 0 {
            left -= self.advance_piece(left);
        }
    }
}
