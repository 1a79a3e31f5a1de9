//! What a SETTINGS frame at the front says that has no meaning here (RFC 9114, section 7.2.4).
ghost use Rattle.std.specs.Prelude.{◌≡◌, ◌≤◌, ℕ, List, drop, length, take, IfOk};
ghost use Rattle.std.specs.List.{concat};
ghost use Rattle.h3_coding.specs.Varint.{varint_at};
ghost use Rattle.h3_frames.specs.Known.{known_by};
ghost use Rattle.h3_frames.specs.OtherSettings.{others_at, payload_behind, payload_of_settings};
ghost use Rattle.h3_frames.specs.Place.{left_at};

use super::excess::look;
use super::kinds::FrameKinds;
use crate::buf::{BufList, Cursor};
use bytes::{Buf, Bytes};
use h3_proto::other_settings::read_others;
use std::alloc::{AllocError, Global};

/// The type of SETTINGS (RFC 9114, section 7.2.4).
const SETTINGS: u64 = 4;

/// Of the settings of the first frame after so many bytes that is no whole unknown one those that have no meaning, `most` at most. There
/// are none if that frame is another one, or is not whole. Nothing is taken.
pub(super) fn other_settings(
    alloc: Global,
    src: &BufList<Bytes>,
    passed: usize,
    kinds: FrameKinds,
    most: usize,
) -> Result<Vec<(u64, u64)>, AllocError>
    requires there { passed ≤ length (concat src.now.pieces) }
    ensures { IfOk result (λ kept. kept.items ≡ others_at most (known_by kinds (drop passed (concat src.now.pieces)))) }
{
    let mut cursor = src.cursor();
    cursor.advance(passed);
    let len = find_settings(&mut cursor, kinds);
    read_others(alloc, &mut cursor, len, most)
}

// Puts the cursor at the payload of the SETTINGS frame that is the first one to be known, if it is whole, and says how long that is; else
// 0.
fn find_settings(cursor: &mut Cursor<'_, Bytes>, kinds: FrameKinds) -> usize
    ensures there { result ≤ length (left_at cursor.new) }
    ensures is { payload_of_settings (varint_at (known_by kinds (left_at cursor.old))) ≡ take result (left_at cursor.new) }
{
    loop {
        if let Some(head) = look(cursor, kinds) {
            return settings_length(head, cursor.remaining());
        }
    }
}

// How long the payload is after this type and length, if they are of SETTINGS, and so many bytes are there; else 0.
fn settings_length(head: Option<(u64, u64)>, left: usize) -> usize
    ensures there { result ≤ left }
    ensures is { (bytes : List ℕ) → left ≡ length bytes → payload_behind head bytes ≡ take result bytes }
{
    match head {
        Some((kind, number)) => {
            if kind == SETTINGS && number <= left as u64 {
                return number as usize;
            }
            0
        }
        None => 0,
    }
}
