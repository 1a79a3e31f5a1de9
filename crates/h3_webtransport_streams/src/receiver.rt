//! What comes on a stream of a session that no other part reads.
ghost use Rattle.std.specs.Prelude.{◌≡◌, ◌+◌, ◌<◌, ◌≤◌, ◌^◌, ℕ, length, IfErr, IfOk};
ghost use Rattle.std.specs.List.{concat};
ghost use Rattle.h3_connection.specs.Answers.{call_refused};
ghost use Rattle.h3_capsule.specs.Capsule.{read_on};
ghost use Rattle.h3_capsule.specs.ReaderStates.{place_of_state};
ghost use Rattle.h3_webtransport_streams.specs.Begun.{ArrivesAs, arrived_by, used_of};
ghost use Rattle.h3_webtransport_streams.specs.Receiver.{Receiver, answering, came, canceled, given_up, is_closed, is_done, pulled};
ghost use Rattle.h3_webtransport_streams.specs.Receiver.{raw, read_front, told_or_raw, untold, with_end, with_reset};

use crate::front::BOTH_WAYS;
use bytes::{Buf, Bytes};
use h3_capsule::capsule::{Capsule, CapsuleReader, ReaderState};
use h3_connection::event::{Fault, Item, Pull, Refusal, StreamFault};
use h3_frames::buf::BufList;
use h3_proto::webtransport::SessionId;
use std::alloc::Global;
use std::marker::Model;

/// What the bytes were that came first.
#[derive(Clone, Copy)]
pub enum Begun {
    /// They were taken, and told this session, if the front is whole with them.
    Taken(Option<SessionId>),
    /// They are no front of a session's stream.
    NoFront,
    /// The front names no session.
    NoSession,
}

/// What bytes tell of a front.
enum FrontRead {
    /// It is not whole with them: so far it is read.
    Partly(ReaderState),
    /// It is whole with so many of them, and names this session.
    Whole(SessionId, usize),
    /// No session's stream begins so.
    NoFront,
    /// It names no session.
    NoSession,
}

/// The half of a stream that comes. A contract sees it as the definitions' `Receiver`.
#[derive(Drop)]
pub(crate) struct ReceivingHalf {
    // while the front is not whole: how far it is read, as the type and length of a capsule are
    front: Option<ReaderState>,
    unread: BufList<Bytes>,
    reset_code: Option<u64>,
    is_told: bool,
    ended: bool,
    is_over: bool,
    is_canceled: bool,
}

impl Model for ReceivingHalf {
    ghost use Rattle.std.specs.Prelude.{option_map};
    ghost use Rattle.h3_capsule.specs.ReaderStates.{place_of_state};
    ghost use Rattle.h3_webtransport_streams.specs.Receiver.{Receiver};

    ghost Value = { Receiver };

    ghost view = { λ r. record {
      front = option_map place_of_state r.front;
      unread = r.unread.pieces;
      is_told = r.is_told;
      ended = r.ended;
      reset_code = r.reset_code;
      is_over = r.is_over;
      is_canceled = r.is_canceled;
    } };
}

impl ReceivingHalf {
    /// Nothing came of a stream of the peer. It takes no memory.
    pub(crate) fn untold(alloc: Global) -> ReceivingHalf
        ensures { result ≡ untold }
    {
        ReceivingHalf {
            front: Some(CapsuleReader::new().state()),
            unread: BufList::new(alloc),
            reset_code: None,
            is_told: false,
            ended: false,
            is_over: false,
            is_canceled: false,
        }
    }

    /// Nothing came of a stream whose front this side wrote. It takes no memory.
    pub(crate) fn answering(alloc: Global) -> ReceivingHalf
        ensures { result ≡ answering }
    {
        ReceivingHalf {
            front: None,
            unread: BufList::new(alloc),
            reset_code: None,
            is_told: true,
            ended: false,
            is_over: false,
            is_canceled: false,
        }
    }

    /// Nothing more is needed of a stream that another part read, whose end came there or not. It takes no memory.
    pub(crate) fn given_up(alloc: Global, ended: bool) -> ReceivingHalf
        ensures { result ≡ given_up ended }
    {
        ReceivingHalf {
            front: None,
            unread: BufList::new(alloc),
            reset_code: None,
            is_told: true,
            ended,
            is_over: false,
            is_canceled: true,
        }
    }

    /// Whether nothing more comes.
    pub(crate) fn is_closed(&self) -> bool
        ensures { result ≡ is_closed self.now }
    {
        self.ended || self.reset_code.is_some()
    }

    /// How many bytes came and were not pulled.
    pub(crate) fn unread_len(&self) -> usize
        ensures { result ≡ length (concat self.now.unread) }
    {
        self.unread.remaining()
    }

    /// Bytes come. An `Err` returns them and changes nothing: an allocation failed.
    pub(crate) fn arrive(&mut self, mut bytes: Bytes) -> Result<Begun, Bytes>
        requires { length (concat self.old.unread) + length bytes < 2 ^ 64 }
        ensures ok { IfOk result (λ begun. ArrivesAs self.old self.new begun (came self.old bytes)) }
        ensures err { IfErr result (λ back. (back ≡ bytes) × (self.new ≡ self.old)) }
    {
        if self.unread.reserve().is_err() {
            return Err(bytes);
        }
        let (session, used) = match self.front {
            None => (None, 0),
            Some(state) => match read_front(state, bytes.as_slice()) {
                FrontRead::Partly(state) => {
                    self.front = Some(state);
                    return Ok(Begun::Taken(None));
                }
                FrontRead::Whole(session, used) => (Some(session), used),
                FrontRead::NoFront => return Ok(Begun::NoFront),
                FrontRead::NoSession => return Ok(Begun::NoSession),
            },
        };
        self.front = None;
        if !self.is_canceled {
            bytes.advance(used);
            self.unread.keep_reserved(bytes);
        }
        Ok(Begun::Taken(session))
    }

    /// The end came. It takes no memory.
    pub(crate) fn end(&mut self)
        ensures { self.new ≡ with_end self.old }
    {
        self.ended = true;
    }

    /// The sender reset it, and what was not pulled is thrown away. It takes no memory.
    pub(crate) fn reset(&mut self, alloc: Global, code: u64)
        ensures { self.new ≡ with_reset self.old code }
    {
        self.unread = BufList::new(alloc);
        self.reset_code = Some(code);
    }

    // The next bytes, or the end.
    fn raw(&mut self) -> Pull
        ensures { raw self.old self.old.unread ≡ (result, self.new) }
    {
        match self.unread.take_first_chunk() {
            Some(piece) => Pull::Item(Item::Raw(piece)),
            None => {
                if self.ended {
                    self.is_over = true;
                    return Pull::Item(Item::End);
                }
                Pull::Pending
            }
        }
    }

    fn told_or_raw(&mut self, session: Option<SessionId>) -> Pull
        ensures { told_or_raw self.old session ≡ (result, self.new) }
    {
        let Some(session) = session else {
            if self.ended {
                return Pull::NoMessages;
            }
            return Pull::Pending;
        };
        if self.is_told {
            return self.raw();
        }
        self.is_told = true;
        Pull::Item(Item::Session(session))
    }

    /// What comes next, of a stream of this session, if that is known.
    pub(crate) fn pull(&mut self, session: Option<SessionId>) -> Pull
        ensures { pulled self.old session ≡ (result, self.new) }
    {
        if self.is_canceled {
            return Pull::Fault(Fault::Stream(StreamFault::Canceled));
        }
        if self.is_over {
            return Pull::Item(Item::End);
        }
        match self.reset_code {
            Some(code) => Pull::Fault(Fault::Stream(StreamFault::Reset(code))),
            None => self.told_or_raw(session),
        }
    }

    /// Nothing more of it is needed, and what is there is thrown away.
    pub(crate) fn cancel(&mut self, alloc: Global) -> Result<(), Refusal>
        ensures { canceled self.old ≡ (call_refused result, self.new) }
    {
        if self.is_over || self.is_canceled || self.reset_code.is_some() {
            return Err(Refusal::Ended);
        }
        self.unread = BufList::new(alloc);
        self.is_canceled = true;
        Ok(())
    }
}

// Reads on in a front.
#[tactic(auto, unfolding(crate::specs::Receiver::names_session))]
fn read_front(state: ReaderState, bytes: &[u8]) -> FrontRead
    ensures tells { (r : Receiver) → arrived_by result r bytes.now ≡ read_front r bytes.now (read_on (place_of_state state) bytes.now) }
    ensures within { used_of result ≤ length bytes.now }
{
    let mut reader = CapsuleReader::of_state(state);
    let (used, told) = reader.read(bytes);
    let Capsule::Head(kind, number) = told else {
        return FrontRead::Partly(reader.state());
    };
    if kind != BOTH_WAYS {
        return FrontRead::NoFront;
    }
    let Ok(session) = SessionId::try_from(number) else {
        return FrontRead::NoSession;
    };
    if number % 4 != 0 {
        return FrontRead::NoSession;
    }
    FrontRead::Whole(session, used)
}
