//! Frames that are longer than their reader takes (RFC 9114, section 10.5).
ghost use Rattle.std.specs.Prelude.{◌≡◌, ◌<◌, ◌≤◌, ◌||◌, ◌==◌, true, drop, length, IfSome, IsNone, nat_lt};
ghost use Rattle.h3_frames.specs.declared.frame.kinds.FrameKinds.{FrameKinds};
ghost use Rattle.h3_frames.specs.Frames.{is_session, is_update};
ghost use Rattle.std.specs.List.{concat};
ghost use Rattle.h3_proto.specs.Config.{is_limit};
ghost use Rattle.h3_coding.specs.Varint.{varint_at};
ghost use Rattle.h3_frames.specs.ExcessiveFrames.{begins_section, head_said, is_excessive_by, is_kept_whole};
ghost use Rattle.h3_frames.specs.Known.{known_by};
ghost use Rattle.h3_frames.specs.OtherSettings.{payload_behind, payload_of_settings};
ghost use Rattle.h3_frames.specs.Place.{left_at};

use super::kinds::FrameKinds;
use crate::buf::{BufList, Cursor};
use crate::proto::frame::{FrameHead, is_update_type};
use bytes::{Buf, Bytes};
use h3_coding::coding::BufExt;

// RFC 9114 10.5: unfinished_limit of frames
/// Whether the first frame that is no whole unknown one says a length above this limit, and is one whose payload is kept until it is whole,
/// if type and length in the first piece tell that, whichever kinds are known. Nothing is taken. It stays apart, so that a reader without a
/// limit is as short as it was.
#[tactic(auto, using(crate::proofs::SparedExcess::nothing_is_long))]
#[inline(never)]
pub(super) fn is_first_excessive(src: &BufList<Bytes>, most: u64) -> Option<bool>
    requires { is_limit most ≡ true }
    ensures { (kinds : FrameKinds) → IfSome result (λ is. is ≡ is_excessive_by kinds most (known_by kinds (concat src.now.pieces))) }
{
    if src.remaining() == 0 {
        return Some(false);
    }
    let head = FrameHead::at_front(src.first_bytes())?;
    if is_kept_whole(head.kind) {
        return Some(head.number > most);
    }
    // the type of DATA
    if head.kind == 0 {
        return Some(false);
    }
    None
}

/// The same after so many bytes, wherever types and lengths lie. It stays apart, so that a look at one piece makes no room for a cursor.
#[inline(never)]
pub(super) fn is_excessive_behind(
    src: &BufList<Bytes>,
    passed: usize,
    most: u64,
    kinds: FrameKinds,
) -> bool
    requires limit { is_limit most ≡ true }
    requires there { passed ≤ length (concat src.now.pieces) }
    ensures { result ≡ is_excessive_by kinds most (known_by kinds (drop passed (concat src.now.pieces))) }
{
    match first_head(src, passed, kinds) {
        Some((kind, number)) => (is_kept_whole(kind) || is_update(kind, kinds)) && number > most,
        None => false,
    }
}

/// Whether the first frame after so many bytes that is no whole unknown one is HEADERS, as far as its type came. Nothing is taken.
pub(super) fn begins_section(src: &BufList<Bytes>, passed: usize, kinds: FrameKinds) -> bool
    requires there { passed ≤ length (concat src.now.pieces) }
    ensures { result ≡ begins_section (known_by kinds (drop passed (concat src.now.pieces))) }
{
    match first_head(src, passed, kinds) {
        Some((kind, _)) => kind == 1,
        None => false,
    }
}

// What that frame says, as far as it came: its type, and its length or 0.
fn first_head(src: &BufList<Bytes>, passed: usize, kinds: FrameKinds) -> Option<(u64, u64)>
    requires there { passed ≤ length (concat src.now.pieces) }
    ensures { result ≡ head_said (varint_at (known_by kinds (drop passed (concat src.now.pieces)))) }
{
    let mut cursor = src.cursor();
    cursor.advance(passed);
    loop {
        if let Some(head) = look(&mut cursor, kinds) {
            return head;
        }
    }
}

// What the frame under the cursor says, as far as its type and length came: the cursor stands after these then. A frame that is unknown and
// whole says nothing, and is passed.
pub(super) fn look(cursor: &mut Cursor<'_, Bytes>, kinds: FrameKinds) -> Option<Option<(u64, u64)>>
    ensures some { IfSome result (λ h. h ≡ head_said (varint_at (known_by kinds (left_at cursor.old)))) }
    ensures behind { IfSome result (λ h. payload_of_settings (varint_at (known_by kinds (left_at cursor.old))) ≡ payload_behind h
        (left_at cursor.new)) }
    ensures same { IsNone result → known_by kinds (left_at cursor.new) ≡ known_by kinds (left_at cursor.old) }
    ensures less { IsNone result → length (left_at cursor.new) < length (left_at cursor.old) }
{
    let Ok(kind) = cursor.get_var() else {
        return Some(None);
    };
    let Ok(number) = cursor.get_var() else {
        return Some(Some((kind, 0)));
    };
    if is_kept_whole(kind) || is_handed_out(kind, kinds) || is_update(kind, kinds) {
        return Some(Some((kind, number)));
    }
    let size = number as usize;
    if cursor.remaining() < size {
        return Some(Some((kind, number)));
    }
    cursor.advance(size);
    None
}

// The types of frames whose payload is kept until it is whole.
fn is_kept_whole(kind: u64) -> bool
    ensures { result ≡ is_kept_whole kind }
{
    (1 <= kind && kind <= 9) || kind == 13
}

// The types whose payload is delivered as it comes: DATA, and a stream of WebTransport if sessions are known.
fn is_handed_out(kind: u64, kinds: FrameKinds) -> bool
    ensures { result ≡ ((kind == 0) || is_session kinds kind) }
{
    kind == 0 || (kind == 0x41 && kinds.sessions)
}

// The types of PRIORITY_UPDATE, if it is known: its payload is kept until it is whole, too.
fn is_update(kind: u64, kinds: FrameKinds) -> bool
    ensures { result ≡ is_update kinds kind }
{
    kinds.updates && is_update_type(kind)
}
