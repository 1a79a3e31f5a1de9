//! PRIORITY_UPDATE frames (RFC 9218, section 7.2).
ghost use Rattle.std.specs.Prelude.{◌≡◌, ◌<◌, ◌≤◌, ◌^◌, ◌++◌, length, drop, take, IfOk, IfSome, IsNone, OnOk, OnErr};
ghost use Rattle.h3_coding.specs.Varint.{varint_at};
ghost use Rattle.h3_coding.specs.Writing.{AppendsFront, UsesRoom};
ghost use Rattle.h3_frames.specs.Encoded.{frame_encoding, update_front, update_payload};
ghost use Rattle.h3_frames.specs.Frames.{Refused, Whole, TakesMemory, update_frame};
ghost use Rattle.h3_frames.specs.declared.proto.frame.Frame.TheVariants as frame;
ghost use Rattle.h3_frames.specs.declared.proto.frame.FrameError.TheVariants as error;
ghost use Rattle.h3_frames.specs.Update.{is_update_type, type_of_update};

use super::FrameType;
use super::encode::{write_bytes, write_head};
use bytes::{Buf, BufMut, Bytes};
use h3_coding::coding::{BufExt, Encode, WriteRefused};
use h3_coding::varint::VarInt;
use std::alloc::{AllocError, Global};
use std::marker::Model;

/// What a PRIORITY_UPDATE frame says: the priority of a response, or of a push.
#[derive(PartialEq, Debug, Drop)]
pub struct PriorityUpdate {
    // whether it is for a push
    pub(super) is_push: bool,
    pub(super) id: VarInt,
    pub(super) value: Bytes,
}

impl Model for PriorityUpdate {
    ghost use Rattle.h3_frames.specs.Update.{Update};

    ghost Value = { Update };

    ghost view = { λ u. record { is_push = u.is_push; id = u.id; value = u.value } };

    ghost inverse = { λ u. record { is_push = u.is_push; id = u.id; value = u.value } };
}

impl PriorityUpdate {
    /// An update for the request stream of this id, or for the push, with the text of a priority.
    pub fn new(is_push: bool, id: VarInt, value: Bytes) -> PriorityUpdate
        ensures { result ≡ record { is_push = is_push; id = id; value = value } }
    {
        PriorityUpdate { is_push, id, value }
    }

    /// Whether it is for a push.
    pub fn is_push(&self) -> bool
        ensures { result ≡ self.now.is_push }
    {
        self.is_push
    }

    /// The id of the request stream or of the push.
    pub fn id(&self) -> VarInt
        ensures { result ≡ self.now.id }
    {
        self.id
    }

    /// The text of the priority: the value of a `priority` field.
    pub fn value(&self) -> &[u8]
        ensures { result.now ≡ self.now.value }
    {
        self.value.as_slice()
    }
}

/// Whether a type is one of PRIORITY_UPDATE: 0xf0700 for a request stream, 0xf0701 for a push.
pub(crate) fn is_update_type(kind: u64) -> bool
    ensures { result ≡ is_update_type kind }
{
    kind == FrameType::PRIORITY_UPDATE.0 || kind == FrameType::PUSH_PRIORITY_UPDATE.0
}

// The type of an update.
fn type_of(is_push: bool) -> FrameType
    ensures { result ≡ type_of_update is_push }
{
    if is_push {
        FrameType::PUSH_PRIORITY_UPDATE
    } else {
        FrameType::PRIORITY_UPDATE
    }
}

/// Takes the payload of an update: the id, then the text to the end. None: it does not begin with an id. An `Err`: an allocation failed.
pub(crate) fn read_update<B: Buf>(
    alloc: Global,
    buf: &mut B,
    kind: u64,
    len: usize,
) -> Option<Result<PriorityUpdate, AllocError>>
    requires { len ≤ length (B.unread buf.old) }
    ensures ok { IfSome result (λ r. IfOk r (λ u. update_frame kind (varint_at (take len (B.unread buf.old))) (drop len (B.unread buf.old))
        ≡ Whole (frame.PriorityUpdate u) (B.unread buf.new))) }
    ensures memory { IfSome result (λ r. OnErr r (TakesMemory
        (update_frame kind (varint_at (take len (B.unread buf.old))) (drop len (B.unread buf.old))))) }
    ensures refused { IsNone result
        → update_frame kind (varint_at (take len (B.unread buf.old))) (drop len (B.unread buf.old)) ≡ Refused error.Malformed }
    ensures kept { B.kept buf.new ≡ B.kept buf.old }
{
    let (id, left) = buf.get_var_within(len)?;
    let is_push = kind == FrameType::PUSH_PRIORITY_UPDATE.0;
    match buf.copy_to_bytes(alloc, left) {
        Ok(value) => Some(Ok(PriorityUpdate::new(is_push, VarInt::from_u64_unchecked(id), value))),
        Err(_) => Some(Err(AllocError)),
    }
}

/// Appends an update up to its text.
pub(crate) fn write_update_front<W: BufMut>(
    update: &PriorityUpdate,
    out: &mut W,
) -> Result<(), WriteRefused>
    requires { length (update_payload update.now) < 2 ^ 62 }
    ensures ok { OnOk result (W.written out.new ≡ W.written out.old ++ update_front update.now) }
    ensures err { OnErr result (AppendsFront (update_front update.now) (W.written out.old) (W.written out.new)) }
    ensures room { UsesRoom result (W.spare out.old) (W.spare out.new) (length (update_front update.now)) }
    ensures short { length (update_front update.now) ≤ 24 }
{
    let kind = type_of(update.is_push);
    let len = update.id.size() + update.value.len();
    write_head(kind, len as u64, out)?;
    update.id.encode(out)
}

/// Appends an update.
pub(crate) fn write_update<W: BufMut>(
    update: &PriorityUpdate,
    out: &mut W,
) -> Result<(), WriteRefused>
    requires { length (update_payload update.now) < 2 ^ 62 }
    ensures ok { OnOk result (W.written out.new ≡ W.written out.old ++ frame_encoding (type_of_update update.now.is_push)
        (update_payload update.now)) }
    ensures err { OnErr result (AppendsFront (frame_encoding (type_of_update update.now.is_push) (update_payload update.now))
        (W.written out.old) (W.written out.new)) }
    ensures room { UsesRoom result (W.spare out.old) (W.spare out.new)
        (length (frame_encoding (type_of_update update.now.is_push) (update_payload update.now))) }
{
    write_update_front(update, out)?;
    write_bytes(update.value.as_slice(), out)
}
