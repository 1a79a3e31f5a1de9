//! What came and is read where it lies.
ghost use Rattle.std.specs.Prelude.{◌≡◌, ◌<◌, ◌≤◌, ◌^◌, true, false, length, Err, IfErr, OnOk};
ghost use Rattle.h3_connection.specs.Calls.{IsSame};
ghost use Rattle.h3_connection.specs.Shutdown.{is_rejected_in};
ghost use Rattle.h3_connection.specs.declared.lists.ListPull.TheVariants as answer;
ghost use Rattle.h3_session.specs.ReadingBodies.{BeginsBody};
ghost use Rattle.h3_c.specs.Exported.{OnStream, UnlessRejected};
ghost use Rattle.h3_c.specs.Numbers.{delivery_told};
ghost use Rattle.h3_c.specs.Reads.{ends_with, is_after_end, is_kept, place_shown, taken_of};
ghost use Rattle.h3_c.specs.ReadsBeside.{EndsThereBeside, ReadsCopiedBeside, ReadsNextBeside, RefusesEndBeside, StopsAtBeside};
ghost use Rattle.h3_c.specs.ReadsBeside.{TakesBytesBeside, TakesEndBeside};

use super::Connection;
use crate::copied::copied;
use crate::items::{PulledItem, plain_shown};
use crate::numbers::{OK, Told, delivered, or_memory};
use h3_coding::coding::BufExt;
use h3_connection::event::{DeliverError, Refusal};
use h3_incoming::answer::Plain;
use h3_incoming::{BlockPull, BodyPlace, Told as PulledTold};
use h3_proto::stream::StreamId;
use std::alloc::Global;

/// How many bytes a frame's type and length have at least and at most (RFC 9114, section 7.1).
const SHORTEST_HEAD: usize = 2;

const LONGEST_HEAD: usize = 16;

impl Connection {
    /// Bytes came on a stream, and with `fin` its end: the next item, and how many of the bytes were used for it.
    pub(crate) fn read(
        &mut self,
        alloc: Global,
        id: u64,
        bytes: &[u8],
        fin: u32,
        used: &mut usize,
        item: &mut PulledItem,
    ) -> Told
        ensures reads { OnStream id result self.old self.new
            (UnlessRejected id result self.old self.new
            (ReadsNextBeside self.old self.new id bytes.now fin result item.old item.new used.new)) }
        ensures unknown { 2 ^ 62 ≤ id → (item.new ≡ item.old) × (used.new ≡ 0) }
        ensures rejected { id < 2 ^ 62 → is_rejected_in self.old.endpoint id ≡ true → (item.new ≡ item.old) × (used.new ≡ 0) }
    {
        *used = 0;
        let stream = match self.receiving(id) {
            Ok(stream) => stream,
            Err(told) => return told,
        };
        self.read_on(alloc, stream, bytes, fin, used, item)
    }

    // The same on a stream whose request is not rejected.
    fn read_on(
        &mut self,
        alloc: Global,
        id: StreamId,
        bytes: &[u8],
        fin: u32,
        used: &mut usize,
        item: &mut PulledItem,
    ) -> Told
        requires { used.old ≡ 0 }
        ensures { ReadsNextBeside self.old self.new id bytes.now fin result item.old item.new used.new }
    {
        if !self.begin(id, bytes, fin) {
            return self.read_next(alloc, id, bytes, fin, used, item);
        }
        *used = bytes.len();
        hold_none(&mut self.last);
        *item = plain_shown(&Plain::Pending);
        OK
    }

    // The same of bytes that are not a DATA frame's type and length alone.
    fn read_next(
        &mut self,
        alloc: Global,
        id: StreamId,
        bytes: &[u8],
        fin: u32,
        used: &mut usize,
        item: &mut PulledItem,
    ) -> Told
        requires { used.old ≡ 0 }
        ensures { ReadsNextBeside self.old self.new id bytes.now fin result item.old item.new used.new }
    {
        let Some(place) = self.endpoint.read_body(id, bytes) else {
            return self.read_copied(alloc, id, bytes, fin, used, item);
        };
        *used = place.offset + place.len;
        *item = placed(place);
        hold_none(&mut self.last);
        OK
    }

    // The type and length of a DATA frame are read where they lie, if they are all that came, and no stream may be one of a session.
    #[tactic(auto, using(crate::proofs::Reading::same_itself))]
    fn begin(&mut self, id: StreamId, bytes: &[u8], fin: u32) -> bool
        ensures last { self.new.last ≡ self.old.last }
        ensures events { self.new.events ≡ self.old.events }
        ensures sessions { self.new.sessions ≡ self.old.sessions }
        ensures off { result ≡ true → self.old.sessions.is_on ≡ false }
        ensures no_fin { result ≡ true → fin ≡ 0 }
        ensures begins { result ≡ true → BeginsBody self.old.endpoint self.new.endpoint id bytes.now }
        ensures same { result ≡ false → IsSame self.old.endpoint self.new.endpoint }
    {
        let count = bytes.len();
        if self.sessions.is_on() {
            return false;
        }
        if count > LONGEST_HEAD || count < SHORTEST_HEAD || fin > 0 {
            return false;
        }
        self.endpoint.begin_body(id, bytes)
    }

    // The same, by a delivery of a front of the bytes and a pull.
    fn read_copied(
        &mut self,
        alloc: Global,
        id: StreamId,
        bytes: &[u8],
        fin: u32,
        used: &mut usize,
        item: &mut PulledItem,
    ) -> Told
        requires { used.old ≡ 0 }
        ensures { ReadsCopiedBeside self.old self.new id bytes.now fin result item.old item.new used.new }
    {
        let count = self.front_len(id, bytes);
        if let Err(stop) = self.take(alloc, id, &bytes[..count]) {
            *used = taken_of(stop, count);
            return stop.told;
        }
        *used = count;
        let is_last = is_behind(fin, bytes, count);
        if let Err(told) = self.take_fin(id, is_last, bytes.is_empty()) {
            return told;
        }
        self.pull(alloc, id.into_inner(), item)
    }

    // How many of the bytes are delivered at once. If nothing of the stream is held and the end of the frame that they begin with is known:
    // up to that end. A body after it is then read in its place. Else, and on a stream of a session, all.
    fn front_len(&self, id: StreamId, bytes: &[u8]) -> usize
        ensures within { result ≤ length bytes.now }
        ensures some { 0 < length bytes.now → 0 < result }
    {
        let count = first_frame_len(bytes);
        let is_whole = count == bytes.len();
        if !is_whole && (self.sessions.has(id) || self.sessions.unread(&self.endpoint, id) > 0) {
            return bytes.len();
        }
        count
    }

    // The bytes are delivered, if there are any: a copy of them. If the allocation for it fails, anything else that refuses them is
    // answered first.
    #[tactic(auto, using(crate::proofs::Reading::takes_none))]
    fn take(&mut self, alloc: Global, id: StreamId, bytes: &[u8]) -> Result<(), Stop>
        ensures last { self.new.last ≡ self.old.last }
        ensures events { self.new.events ≡ self.old.events }
        ensures ok { OnOk result (TakesBytesBeside self.old self.new id bytes.now) }
        ensures stop { IfErr result (λ stop. StopsAtBeside self.old self.new id bytes.now stop) }
    {
        if bytes.is_empty() {
            return Ok(());
        }
        let Ok(copy) = copied(alloc, bytes) else {
            return Err(Stop {
                told: or_memory(self.sessions.bytes_refusal(&self.endpoint, id)),
                is_taken: false,
            });
        };
        match self.sessions.deliver(&mut self.endpoint, id, copy) {
            Ok(()) => Ok(()),
            Err(e) => Err(stopped(e)),
        }
    }

    // The end is delivered if it comes right after what was used.
    fn take_fin(&mut self, id: StreamId, is_last: bool, is_alone: bool) -> Result<(), Told>
        ensures last { self.new.last ≡ self.old.last }
        ensures events { self.new.events ≡ self.old.events }
        ensures ok { OnOk result (TakesEndBeside is_last is_alone self.old self.new id) }
        ensures refused { IfErr result (λ told. (is_last ≡ true) × RefusesEndBeside is_alone self.old self.new id told) }
    {
        if is_last {
            return self.take_end(id, is_alone);
        }
        Ok(())
    }

    // The end is delivered. With no bytes before it, it may have come before.
    fn take_end(&mut self, id: StreamId, is_alone: bool) -> Result<(), Told>
        ensures last { self.new.last ≡ self.old.last }
        ensures events { self.new.events ≡ self.old.events }
        ensures ok { OnOk result (EndsThereBeside is_alone self.old self.new id) }
        ensures refused { IfErr result (λ told. RefusesEndBeside is_alone self.old self.new id told) }
    {
        match self.sessions.deliver_end(&mut self.endpoint, id) {
            Ok(()) => Ok(()),
            Err(e) => {
                if is_alone && is_after_end(&e) {
                    return Ok(());
                }
                Err(delivered(&Err(e)))
            }
        }
    }
}

// No item is held. Most pieces of a body follow another one, after which none is: then nothing is written.
#[tactic(auto, using(crate::proofs::Reading::is_pending))]
fn hold_none(last: &mut BlockPull)
    ensures { last.new ≡ answer.Pending }
{
    if holds_none(last) {
        return;
    }
    last.pause();
}

fn holds_none(last: &BlockPull) -> bool
    ensures { result ≡ true → last.now ≡ answer.Pending }
{
    match last.told() {
        PulledTold::Plain(Plain::Pending) => true,
        _ => false,
    }
}

// Why a delivery goes no further.
#[derive(Clone, Copy)]
struct Stop {
    told: Told,
    // the bytes were taken, though an allocation failed
    is_taken: bool,
}

// What a refused delivery tells.
fn stopped(e: DeliverError) -> Stop
    ensures { result ≡ record { told = delivery_told {X = Unit {0}} (Err e); is_taken = is_kept e } }
{
    let is_taken = matches!(e, DeliverError::Kept);
    Stop {
        told: delivered(&Err(e)),
        is_taken,
    }
}

// The end comes right after so many of the bytes.
fn is_behind(fin: u32, bytes: &[u8], count: usize) -> bool
    ensures { result ≡ ends_with fin bytes.now count }
{
    fin > 0 && count == bytes.len()
}

// So many of these bytes were taken.
fn taken_of(stop: Stop, count: usize) -> usize
    ensures { result ≡ taken_of stop.is_taken count }
{
    if stop.is_taken {
        return count;
    }
    0
}

// Whether the end or a reset came before.
fn is_after_end(e: &DeliverError) -> bool
    ensures { result ≡ is_after_end e.now }
{
    matches!(e, DeliverError::Refused(Refusal::AfterEnd))
}

// A piece of a body where it lies in the bytes that were given.
fn placed(place: BodyPlace) -> PulledItem
    ensures { result ≡ place_shown place }
{
    PulledItem {
        kind: 17,
        status: 0,
        number: place.offset as u64,
        fields: 0,
        len: place.len,
    }
}

// How many bytes the frame has that they begin with (RFC 9114, section 7.1), if so many are there: of DATA its type and length, if no
// payload follows. Else all.
#[tactic(auto, using(h3_coding::specs::VarintLaws::shorter))]
fn first_frame_len(bytes: &[u8]) -> usize
    ensures within { result ≤ length bytes.now }
    ensures some { 0 < length bytes.now → 0 < result }
{
    if bytes.len() < SHORTEST_HEAD {
        return bytes.len();
    }
    let mut left = bytes;
    let Ok(kind) = left.get_var() else {
        return bytes.len();
    };
    let Ok(size) = left.get_var() else {
        return bytes.len();
    };
    // a stream of WebTransport has no length there
    if size as usize > left.len() || kind == 0x41 || (kind == 0 && size > 0) {
        return bytes.len();
    }
    bytes.len() - left.len() + size as usize
}
