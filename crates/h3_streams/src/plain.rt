//! The peer's streams of which nothing is kept but their role and whether they ended, in two bytes each.
ghost use Rattle.std.specs.Prelude.{◌≡◌, ◌≤◌, ◌+◌, ◌*◌, ℕ, true, false, [], length, max, ◌/◌, ◌%◌, Some, None, IsSome, IfSome, IfNone};
ghost use Rattle.std.specs.Prelude.{unwrap_or, option_map, OnOk, OnErr, IfOk, IfErr};
ghost use Rattle.h3_connection.specs.Calls.{Sets, AllSame};
ghost use Rattle.h3_connection.specs.StrictConnection.{known_streams};
ghost use Rattle.h3_connection.specs.State.{kept_at};
ghost use Rattle.h3_connection.specs.Unidirectional.{untold, is_closed};
ghost use Rattle.h3_streams.specs.Placed.{closed_by, peer_stream, Receives};
ghost use Rattle.h3_streams.specs.Plain.{SamePlaces, HasPlace, IsPlain, stream_in, code_at, plain_streams};
ghost use Rattle.h3_unidirectional.specs.Kinds.{plain};
ghost use Rattle.h3_streams.specs.declared.plain.Place.TheVariants.{Free};

use bytes::Bytes;
use h3_connection::setup::Announced;
use h3_unidirectional::plain::{PlainRole, first_role};
use h3_unidirectional::stream::Received;
use std::alloc::{AllocError, Global};

/// What is kept of a stream: its role, and whether its end and its reset came.
#[derive(Clone, Copy)]
pub(crate) enum Place {
    Free,
    Open(PlainRole),
    Ended(PlainRole),
    Reset(PlainRole),
    EndedAndReset(PlainRole),
}

impl Place {
    /// The role, if a stream is there.
    fn role(self) -> Option<PlainRole>
        ensures some { IfSome result (λ role. (code : ℕ) → IsPlain role (stream_in self code)) }
        ensures none { IfNone result (self ≡ Free) }
    {
        match self {
            Place::Free => None,
            Place::Open(role) => Some(role),
            Place::Ended(role) => Some(role),
            Place::Reset(role) => Some(role),
            Place::EndedAndReset(role) => Some(role),
        }
    }

    /// Whether its end or its reset came.
    fn is_closed(self) -> bool
        ensures { (code : ℕ) → result ≡ is_closed (unwrap_or (stream_in self code) untold) }
    {
        match self {
            Place::Free => false,
            Place::Open(_) => false,
            Place::Ended(_) => true,
            Place::Reset(_) => true,
            Place::EndedAndReset(_) => true,
        }
    }

    /// The same stream once its end came.
    fn ended(self) -> Place
        ensures { (code : ℕ) → stream_in result code ≡ option_map (λ o. closed_by o None) (stream_in self code) }
    {
        match self {
            Place::Free => Place::Free,
            Place::Open(role) => Place::Ended(role),
            Place::Ended(role) => Place::Ended(role),
            Place::Reset(role) => Place::EndedAndReset(role),
            Place::EndedAndReset(role) => Place::EndedAndReset(role),
        }
    }

    /// The same stream once its reset came.
    fn reset(self) -> Place
        ensures { (code last : ℕ) → stream_in result code ≡ option_map (λ o. closed_by o (Some code)) (stream_in self last) }
    {
        match self {
            Place::Free => Place::Free,
            Place::Open(role) => Place::Reset(role),
            Place::Ended(role) => Place::EndedAndReset(role),
            Place::Reset(role) => Place::Reset(role),
            Place::EndedAndReset(role) => Place::EndedAndReset(role),
        }
    }
}

/// A stream that was reset, and the code. No call reads it: an endpoint is what it learned.
#[derive(Clone, Copy)]
struct ResetCode {
    id: u64,
    code: u64,
}

/// The streams whose ids have the two low bits of the first one have places by their numbers (RFC 9000, section 2.1), unless too many
/// numbers are skipped.
#[derive(Drop)]
pub(crate) struct PlainStreams {
    first: u64,
    row: Vec<Place>,
    // of those that were reset, the last one of a stream last
    codes: Vec<ResetCode>,
    // how many were put in, and how many of them are neither ended nor reset
    count: usize,
    open: usize,
}

/// The row has at most so many places for each stream that came, and so many more.
const ROW_PER_STREAM: usize = 64;

/// The low bits of an id are of its kind (RFC 9000, section 2.1).
const STEP: u64 = 4;

const _: () = prove!(size_of::<Place>() == 2);

/// Makes a row longer, by free places.
fn lengthen(row: &mut Vec<Place>, len: usize) -> Result<(), AllocError>
    ensures places { SamePlaces row.old.items row.new.items }
    ensures len { length row.new.items ≤ max (length row.old.items) len }
{
    let now = row.len();
    if now >= len {
        return Ok(());
    }
    row.reserve(len - now)?;
    for _place in now..len {
        row.push(Place::Free)?;
    }
    Ok(())
}

impl PlainStreams {
    /// None. It takes no memory.
    pub(crate) fn new(alloc: Global) -> PlainStreams
        ensures { plain_streams result ≡ [] }
    {
        PlainStreams {
            first: 0,
            row: Vec::new(alloc),
            codes: Vec::new(alloc),
            count: 0,
            open: 0,
        }
    }

    /// The place of a stream's number, if it has one.
    fn place(&self, id: u64) -> Option<usize>
        ensures some { IfSome result (λ n. (n ≡ id / 4) × HasPlace self.now id) }
        ensures none { IfNone result (kept_at (plain_streams self.now) id ≡ None) }
    {
        let place = (id / STEP) as usize;
        if id % STEP != self.first % STEP || place >= self.row.len() {
            return None;
        }
        Some(place)
    }

    /// What is kept of a stream.
    fn get(&self, id: u64) -> Place
        ensures { kept_at (plain_streams self.now) id ≡ stream_in result (code_at self.now.codes.items id) }
    {
        match self.place(id) {
            Some(place) => self.row[place],
            None => Place::Free,
        }
    }

    /// The role of a stream, if it is there.
    pub(crate) fn role(&self, id: u64) -> Option<PlainRole>
        ensures some { IfSome result (λ role. IsPlain role (kept_at (plain_streams self.now) id)) }
        ensures none { IfNone result (kept_at (plain_streams self.now) id ≡ None) }
    {
        self.get(id).role()
    }

    /// Whether the end or the reset of a stream came.
    pub(crate) fn is_closed(&self, id: u64) -> bool
        ensures { result ≡ is_closed (peer_stream (plain_streams self.now) id) }
    {
        self.get(id).is_closed()
    }

    /// Puts a stream of this role there, if its number has a place. It takes no memory.
    fn put(&mut self, id: u64, role: PlainRole) -> bool
        ensures put { result ≡ true → Sets (plain_streams self.old) (plain_streams self.new) id (record untold { role = plain role }) }
        ensures none { result ≡ false → AllSame (plain_streams self.old) (plain_streams self.new) }
    {
        let Some(place) = self.place(id) else {
            return false;
        };
        self.row[place] = Place::Open(role);
        self.count = self.count.saturating_add(1);
        self.open = self.open.saturating_add(1);
        true
    }

    /// The end of a stream came, which is there. It takes no memory.
    fn end(&mut self, id: u64)
        requires { IsSome (kept_at (plain_streams self.old) id) }
        ensures { Sets (plain_streams self.old) (plain_streams self.new) id (closed_by (peer_stream (plain_streams self.old) id) None) }
    {
        let Some(place) = self.place(id) else {
            unreachable!()
        };
        self.row[place] = self.row[place].ended();
        self.open = self.open.saturating_sub(1);
    }

    /// The reset of a stream came, which is there. If an allocation fails, nothing changes.
    fn reset(&mut self, id: u64, code: u64) -> Result<(), AllocError>
        requires { IsSome (kept_at (plain_streams self.old) id) }
        ensures ok { OnOk result (Sets (plain_streams self.old) (plain_streams self.new) id
            (closed_by (peer_stream (plain_streams self.old) id) (Some code))) }
        ensures err { OnErr result (AllSame (plain_streams self.old) (plain_streams self.new)) }
    {
        let Some(place) = self.place(id) else {
            unreachable!()
        };
        self.codes.push(ResetCode { id, code })?;
        self.row[place] = self.row[place].reset();
        self.open = self.open.saturating_sub(1);
        Ok(())
    }

    /// If there is no place, those of the row shall be like this stream.
    fn follow(&mut self, id: u64)
        ensures streams { AllSame (plain_streams self.old) (plain_streams self.new) }
        ensures rest { self.new ≡ record self.old { first = self.new.first } }
    {
        if self.row.is_empty() {
            self.first = id;
        }
    }

    /// Makes a place for the number of a stream that comes, and room for the code of its reset, if both may be had. So many other streams
    /// have no place. What is refused is asked for again when the next stream comes.
    fn make_room(&mut self, id: u64, others: usize)
        ensures same { AllSame (plain_streams self.old) (plain_streams self.new) }
        ensures short { length self.new.row.items ≤ max (length self.old.row.items) (64 * (self.old.count + others) + 64) }
    {
        self.follow(id);
        let most = self
            .count
            .saturating_add(others)
            .saturating_mul(ROW_PER_STREAM)
            .saturating_add(ROW_PER_STREAM);
        let place = (id / STEP) as usize;
        if id % STEP != self.first % STEP || place >= most {
            return;
        }
        let Ok(()) = self.codes.reserve(self.open.saturating_add(1)) else {
            return;
        };
        let _is_longer = lengthen(&mut self.row, place + 1).is_ok();
    }

    /// The end of a stream came, which is there, or its reset with this code. If an allocation fails, nothing changes.
    pub(crate) fn close(&mut self, id: u64, code: Option<u64>) -> Result<(), AllocError>
        requires { IsSome (kept_at (plain_streams self.old) id) }
        ensures ok { OnOk result (Sets (plain_streams self.old) (plain_streams self.new) id
            (closed_by (peer_stream (plain_streams self.old) id) code)) }
        ensures err { OnErr result (AllSame (plain_streams self.old) (plain_streams self.new)) }
    {
        let Some(code) = code else {
            self.end(id);
            return Ok(());
        };
        self.reset(id, code)
    }

    /// The first bytes of a stream come. If they tell its role, and its number has a place, it is put there, and the bytes after its type
    /// are passed on. Else nothing changes, and the bytes are returned. So many other streams have no place.
    pub(crate) fn begin(
        &mut self,
        own: &Announced,
        id: u64,
        others: usize,
        mut bytes: Bytes,
    ) -> Result<Received, Bytes>
        requires { kept_at (plain_streams self.old) id ≡ None }
        ensures ok { IfOk result (λ received. Receives (known_streams own.now) (plain_streams self.old)
            (plain_streams self.new) id bytes received) }
        ensures err { IfErr result (λ back. (back ≡ bytes) × AllSame (plain_streams self.old) (plain_streams self.new)) }
    {
        let Some((role, passed)) = first_role(bytes.as_slice(), own) else {
            return Err(bytes);
        };
        self.make_room(id, others);
        if !self.put(id, role) {
            return Err(bytes);
        }
        bytes.advance(passed);
        Ok(role.received(bytes))
    }
}
