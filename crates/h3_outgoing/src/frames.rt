//! The frames that wait on a stream.
ghost use Rattle.std.specs.Prelude.{◌≡◌, ◌+◌, ◌-◌, ◌*◌, ◌<◌, ◌≤◌, ◌^◌, ◌++◌, [], ◌∷◌, ◌==◌, true, length, drop, min, max, All, IfSome};
ghost use Rattle.std.specs.Prelude.{MatchOption, OnOk, OnErr};
ghost use Rattle.std.specs.VecDeque.{deque_len, deque_capacity};
ghost use Rattle.h3_frames.specs.Outgoing.{all_of, first_part};
ghost use Rattle.h3_connection.specs.WaitingPieces.{bytes_of, lent, without_front};
ghost use Rattle.h3_outgoing.specs.Copied.{Filled, Puts};
ghost use Rattle.h3_outgoing.specs.Held.{AreApart, FrontsAt, front_of, past_of};
ghost use Rattle.h3_outgoing.specs.Queue.{at_most_one, has_own_place};

use crate::frame::Frame;
use bytes::Bytes;
use std::alloc::{AllocError, Global};
use std::collections::VecDeque;
use std::marker::Model;

/// How many frames a queue has memory for at first.
const FIRST_PLACES: usize = 4;

/// Frames that wait in order, none of them empty. Two have places of their own, since most messages are a header section and a body: only
/// further ones take memory for a queue. A contract sees the frames, and how many more find a place.
pub(crate) struct WaitingFrames {
    first: Option<Frame>,
    second: Option<Frame>,
    later: VecDeque<Frame>,
    // how many bytes wait
    waiting: usize,
}

impl Model for WaitingFrames {
    ghost use Rattle.std.specs.Prelude.{◌≡◌, ◌<◌, ◌+◌, ◌-◌, length, All};
    ghost use Rattle.std.specs.VecDeque.{deque_len, deque_capacity};
    ghost use Rattle.h3_frames.specs.Outgoing.{all_of};
    ghost use Rattle.h3_connection.specs.WaitingPieces.{bytes_of};
    ghost use Rattle.h3_outgoing.specs.Queue.{Queue, frames_in, has_own_place, own_room};

    ghost Value = { Queue };

    ghost view = { λ w. record {
      frames = frames_in w.first w.second w.later.items;
      room = own_room (has_own_place w.second w.later.items) + (deque_capacity w.later - deque_len w.later);
    } };

    ghost invariant = { λ w. (w.waiting ≡ length (bytes_of (frames_in w.first w.second w.later.items)))
        × All (λ f. 0 < length (all_of f)) (frames_in w.first w.second w.later.items) };
}

impl WaitingFrames {
    /// No frame. It takes no memory.
    pub(crate) fn new(alloc: Global) -> WaitingFrames
        ensures { result.frames ≡ [] }
    {
        WaitingFrames {
            first: None,
            second: None,
            later: VecDeque::new(alloc),
            waiting: 0,
        }
    }

    /// How many bytes wait.
    pub(crate) fn waiting(&self) -> usize
        ensures { result ≡ length (bytes_of self.now.frames) }
    {
        self.waiting
    }

    /// Whether no frame waits.
    pub(crate) fn is_empty(&self) -> bool
        ensures { result ≡ (length self.now.frames == 0) }
    {
        self.waiting == 0
    }

    /// Makes room for one more frame, which `push` then takes. An `Err` comes only if there was none. No frame changes.
    #[inline(always)]
    pub(crate) fn reserve(&mut self) -> Result<(), AllocError>
        ensures same { self.new.frames ≡ self.old.frames }
        ensures room { OnOk result (0 < self.new.room) }
        ensures full { OnErr result (self.old.room ≡ 0) }
    {
        if has_own_place(&self.second, &self.later) {
            return Ok(());
        }
        take_place(&mut self.later)
    }

    /// One frame more, after the others. It takes no memory.
    #[inline(always)]
    pub(crate) fn push(&mut self, frame: Frame)
        requires room { 0 < self.old.room }
        requires some { 0 < length (all_of frame) }
        requires fits { length (bytes_of self.old.frames) + length (all_of frame) < 2 ^ 64 }
        ensures { self.new.frames ≡ self.old.frames ++ frame ∷ [] }
    {
        self.waiting += frame.remaining();
        if !has_own_place(&self.second, &self.later) {
            self.later.push_back_reserved(frame);
            return;
        }
        if self.first.is_some() {
            self.second = Some(frame);
        } else {
            self.first = Some(frame);
        }
    }

    /// No frame waits any longer, and no memory is kept for a queue.
    pub(crate) fn clear(&mut self)
        ensures { self.new.frames ≡ [] }
    {
        let alloc = *self.later.allocator();
        self.first = None;
        self.second = None;
        self.later = VecDeque::new(alloc);
        self.waiting = 0;
    }

    /// No memory is kept for a queue if no frame waits in it.
    pub(crate) fn release(&mut self)
        ensures { self.new.frames ≡ self.old.frames }
    {
        if self.later.is_empty() && self.later.capacity() > 0 {
            let alloc = *self.later.allocator();
            self.later = VecDeque::new(alloc);
        }
    }

    /// The first bytes: the rest of a frame's type and length, or of its payload. Empty exactly if none waits, or first those that the
    /// caller holds.
    pub(crate) fn first_part(&self) -> &[u8]
        ensures { result.now ≡ front_of (lent self.now.frames) }
    {
        match self.first() {
            Some(frame) => frame.first_part(),
            None => &[],
        }
    }

    /// The same bytes, if they are what is left of the payload of a body that was passed to send.
    pub(crate) fn first_body(&self) -> Option<&Bytes>
        ensures { IfSome result (λ body. body.now ≡ front_of (lent self.now.frames)) }
    {
        let frame = self.first()?;
        let body = frame.body()?;
        Some(body)
    }

    // The first frame.
    fn first(&self) -> Option<&Frame>
        ensures { MatchOption result (self.now.frames ≡ []) (λ frame. first_part frame.now ≡ lent self.now.frames) }
    {
        if let Some(frame) = &self.first {
            return Some(frame);
        }
        if let Some(frame) = &self.second {
            return Some(frame);
        }
        self.later.front()
    }

    /// Copies the first bytes to the front of `out`, over frames too, up to a payload that the caller holds and as many as fit. Returns how
    /// many, and how many of that payload follow them.
    pub(crate) fn copy_to(&self, out: &mut [u8]) -> (usize, usize)
        ensures copied { Filled (front_of (bytes_of self.now.frames)) out.old out.new result.0 }
        ensures past { AreApart self.now.frames → result.1 ≡ past_of (drop result.0 (bytes_of self.now.frames)) }
    {
        let (first, past, is_last) = put_one(&self.first, 0, out);
        if is_last {
            return (first, past);
        }
        let (second, past, is_last) = put_one(&self.second, first, out);
        if is_last || self.later.is_empty() {
            return (second, past);
        }
        put_later(&self.later, second, out)
    }

    /// Takes the first bytes, over frames too. A frame that is wholly taken is dropped.
    #[inline(always)]
    pub(crate) fn advance(&mut self, count: usize)
        requires { count ≤ length (bytes_of self.old.frames) }
        ensures { self.new.frames ≡ without_front count self.old.frames }
    {
        self.waiting -= count;
        let behind_first = count - take_of(&mut self.first, count);
        let behind_second = behind_first - take_of(&mut self.second, behind_first);
        if behind_second > 0 {
            take_later(&mut self.later, behind_second);
        }
    }
}

/// A call of its own, so that what holds frames does not have their branches in its own drop.
impl Drop for WaitingFrames {
    fn drop(self) {
        let WaitingFrames {
            first,
            second,
            later,
            waiting: _,
        } = self;
        drop(first);
        drop(second);
        drop(later);
    }
}

/// Whether one more frame has a place in front of the queue: none waits after the first.
fn has_own_place(second: &Option<Frame>, later: &VecDeque<Frame>) -> bool
    ensures { result ≡ has_own_place second.now later.now.items }
{
    second.is_none() && later.is_empty()
}

/// Takes memory for one more frame in a queue, if it has none: for as many more as there are, or for four. A place that is taken stays
/// until a frame is put in, so that this needs no memory then.
#[cold]
#[inline(never)]
fn take_place(later: &mut VecDeque<Frame>) -> Result<(), AllocError>
    ensures same { later.new.items ≡ later.old.items }
    ensures len { deque_len later.new ≡ deque_len later.old }
    ensures room { OnOk result (deque_len later.new < deque_capacity later.new) }
    ensures full { OnErr result (deque_capacity later.old ≤ deque_len later.old) }
    ensures few { deque_capacity later.new ≤ max (deque_capacity later.old) (2 * deque_len later.old + 4) }
{
    let len = later.len();
    if len < later.capacity() {
        return Ok(());
    }
    later.reserve_exact(len.max(FIRST_PLACES))
}

/// Copies what is left of a frame, if there is one, as `Frame::put` does.
fn put_one(frame: &Option<Frame>, at: usize, out: &mut [u8]) -> (usize, usize, bool)
    requires { at ≤ length out.old }
    ensures copied { FrontsAt (bytes_of (at_most_one frame.now)) at out.old result.0 result.1 result.2 out.new }
    ensures some { result.2 ≡ true → 0 < length (at_most_one frame.now) }
{
    match frame {
        Some(frame) => frame.put(at, out),
        None => (at, 0, false),
    }
}

/// The same of frames in order, without whether they are the last.
#[inline(never)]
fn put_later(frames: &VecDeque<Frame>, at: usize, out: &mut [u8]) -> (usize, usize)
    requires { at ≤ length out.old }
    ensures copied { Puts (front_of (bytes_of frames.now.items)) at out.old result.0 out.new }
    ensures past { AreApart frames.now.items → result.1 ≡ past_of (drop (result.0 - at) (bytes_of frames.now.items)) }
{
    let (count, past) = put_queue(frames, &mut out[at..]);
    (at + count, past)
}

/// The same to the front of a buffer.
fn put_queue(frames: &VecDeque<Frame>, out: &mut [u8]) -> (usize, usize)
    ensures copied { Filled (front_of (bytes_of frames.now.items)) out.old out.new result.0 }
    ensures past { AreApart frames.now.items → result.1 ≡ past_of (drop result.0 (bytes_of frames.now.items)) }
{
    let mut at = 0;
    for index in 0..frames.len() {
        let (next, past, is_last) = frames[index].put(at, out);
        if is_last {
            return (next, past);
        }
        at = next;
    }
    (at, 0)
}

/// Takes up to `count` bytes of a frame, if there is one, and returns how many. One that is wholly taken goes.
#[inline(always)]
fn take_of(place: &mut Option<Frame>, count: usize) -> usize
    requires { All (λ f. 0 < length (all_of f)) (at_most_one place.old) }
    ensures taken { result ≡ min count (length (bytes_of (at_most_one place.old))) }
    ensures rest { at_most_one place.new ≡ without_front count (at_most_one place.old) }
{
    let Some(frame) = place else {
        return 0;
    };
    let len = frame.remaining();
    if count < len {
        frame.advance(count);
        return count;
    }
    *place = None;
    len
}

/// Takes the first bytes of a queue, over frames too.
#[inline(never)]
fn take_later(later: &mut VecDeque<Frame>, count: usize)
    requires some { All (λ f. 0 < length (all_of f)) later.old.items }
    requires within { count ≤ length (bytes_of later.old.items) }
    ensures { later.new.items ≡ without_front count later.old.items }
{
    let mut left = count;
    while left > 0 {
        left -= take_first(later, left);
    }
}

/// Takes up to `count` bytes of the first frame of a queue, and answers how many.
fn take_first(later: &mut VecDeque<Frame>, count: usize) -> usize
    requires some { All (λ f. 0 < length (all_of f)) later.old.items }
    requires within { (0 < count) × (count ≤ length (bytes_of later.old.items)) }
    ensures taken { (0 < result) × (result ≤ count) }
    ensures rest { without_front (count - result) later.new.items ≡ without_front count later.old.items }
    ensures fewer { length (bytes_of later.new.items) + result ≡ length (bytes_of later.old.items) }
    ensures some { All (λ f. 0 < length (all_of f)) later.new.items }
{
    let Some(frame) = later.front_mut() else {
        return count;
    };
    let len = frame.remaining();
    if count < len {
        frame.advance(count);
        return count;
    }
    later.pop_front();
    len
}
