//! The DATA frame of a payload that the caller holds.
ghost use Rattle.std.specs.Prelude.{◌≡◌, ◌<◌, ◌≤◌, ◌^◌, length};
ghost use Rattle.h3_connection.specs.WaitingPieces.{frame_piece, without_first};
ghost use Rattle.h3_outgoing.specs.Held.{held};
ghost use Rattle.h3_frames.specs.Outgoing.{all_of};

use crate::section::{HEAD_ROOM, write_front};
use std::marker::Model;

/// The type of a DATA frame (RFC 9114, section 7.2.1).
const DATA: u8 = 0;

/// The bytes of two words, in which a type and a length have room.
const WORDS: usize = 16;

/// The place from which on they may begin.
const HEAD_START: usize = WORDS - HEAD_ROOM;

/// A DATA frame that waits, whose payload the caller holds: its type and length, and how many bytes of the payload are left. A contract
/// sees the places of these bytes.
#[derive(Drop)]
pub(crate) struct HeldFrame {
    // the type and the length end with the last byte, and lie in two words, so that a move of them is one of two words
    head: [u8; WORDS],
    start: usize,
    left: usize,
}

impl Model for HeldFrame {
    ghost use Rattle.std.specs.Prelude.{◌≤◌, ◌<◌, ◌^◌, drop};
    ghost use Rattle.h3_outgoing.specs.Held.{held};
    ghost use Rattle.h3_frames.specs.Outgoing.{Outgoing};

    ghost Value = { Outgoing };

    ghost view = { λ f. record { head = drop f.start f.head; payload = held f.left } };

    ghost invariant = { λ f. (f.start ≤ 16) × (f.left < 2 ^ 62) };
}

impl HeldFrame {
    /// The frame of a payload of so many bytes.
    pub(crate) fn of(len: usize) -> HeldFrame
        requires { len < 2 ^ 62 }
        ensures { result ≡ frame_piece 0 (held len) }
    {
        let mut head = [0; WORDS];
        let start = write_front(&mut head[HEAD_START..], DATA, len as u64);
        HeldFrame {
            head,
            start: HEAD_START + start,
            left: len,
        }
    }

    /// What is left of the type and length.
    pub(crate) fn head(&self) -> &[u8]
        ensures { result.now ≡ self.now.head }
    {
        &self.head[self.start..]
    }

    /// How many bytes of the payload are left.
    pub(crate) fn left(&self) -> usize
        ensures { self.now.payload ≡ held result }
    {
        self.left
    }

    /// How many bytes are left.
    pub(crate) fn remaining(&self) -> usize
        ensures { result ≡ length (all_of self.now) }
    {
        WORDS - self.start + self.left
    }

    /// Takes the first bytes of what is left.
    pub(crate) fn advance(&mut self, count: usize)
        requires { count ≤ length (all_of self.old) }
        ensures { self.new ≡ without_first count self.old }
    {
        let of_head = count.min(WORDS - self.start);
        self.start += of_head;
        self.left -= count - of_head;
    }
}
