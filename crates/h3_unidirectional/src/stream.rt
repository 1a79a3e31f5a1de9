//! A unidirectional stream of the peer (RFC 9114, section 6.2), and what its first bytes make of it.
ghost use Rattle.std.specs.Prelude.{◌≡◌, ◌+◌, ◌-◌, ◌<◌, ◌≤◌, ◌^◌, ℕ, List, [], true, false, length, drop, Some, IfOk, IfErr, OnOk};
ghost use Rattle.std.specs.List.{concat};
ghost use Rattle.h3_coding.specs.Varint.{varint_at};
ghost use Rattle.h3_connection.specs.Keeping.{is_settled_session};
ghost use Rattle.h3_connection.specs.StrictConnection.{known_streams};
ghost use Rattle.h3_connection.specs.Unidirectional.{Role, untold, is_closed, reset_with, is_critical, role_after, with_bytes};
ghost use Rattle.h3_connection.specs.Unidirectional.{may_be_session, untold_pull, raw, if_over, pull_other, pull_unidirectional};
ghost use Rattle.h3_connection.specs.Unidirectional.Role.{Untold, Session, Other};
ghost use Rattle.h3_unidirectional.specs.Kinds.{role_of, is_told_kind, is_untold, Tells, TellsFirst, received_by};
ghost use Rattle.h3_unidirectional.specs.Told.{kind_in};

use bytes::{Buf, Bytes};
use h3_coding::coding::BufExt;
use h3_connection::event::{Fault, Item, Pull, StreamFault};
use h3_connection::setup::Announced;
use h3_frames::buf::BufList;
use h3_proto::stream::StreamType;
use h3_proto::webtransport::SessionId;
use std::alloc::Global;
use std::marker::Model;

mod unread;

/// What it is read as.
#[derive(Clone, Copy)]
pub enum Kind {
    /// Its type, or the id that follows it, is not whole.
    Untold,
    /// The control stream (RFC 9114, section 6.2.1).
    Control,
    /// The encoder stream (RFC 9204, section 4.2).
    Encoder,
    /// The decoder stream (RFC 9204, section 4.2).
    Decoder,
    /// A WebTransport stream of this session.
    Session(SessionId),
    /// The push stream of this id.
    Push(u64),
    /// A type without a meaning.
    Ignored,
    /// This type without a meaning, of a stream that is delivered.
    Other(u64),
}

/// What came is for this reader.
#[derive(Drop)]
pub enum Received {
    /// That of the control stream.
    Control(Bytes),
    /// That of the encoder stream.
    Encoder(Bytes),
    /// That of the decoder stream.
    Decoder(Bytes),
    /// The stream is a push stream.
    Push,
    /// The stream is one of the WebTransport session with this id, and its bytes are pulled.
    Session(u64),
    /// For none: the bytes are thrown away, or tell no role yet.
    Nothing,
}

/// What came on it, and how far it was pulled.
#[derive(Drop)]
pub struct UnidirectionalStream {
    kind: Kind,
    // the first bytes, while the type or the id is not whole
    front: Vec<u8>,
    // what came of a session, or of a stream of another type that is delivered, and was not pulled
    unread: BufList<Bytes>,
    // the code of a reset; apart from `is_reset`, and the flags side by side, since the first stream takes room for 15 (104 bytes each)
    reset_code: u64,
    is_reset: bool,
    ended: bool,
    is_told: bool,
    is_over: bool,
}

impl Model for UnidirectionalStream {
    ghost use Rattle.h3_connection.specs.Unidirectional.{Unidirectional};
    ghost use Rattle.h3_unidirectional.specs.Kinds.{role_of, code_of, IsUnfinished};

    ghost Value = { Unidirectional };

    ghost view = { λ s. record {
      role = role_of s.kind s.front.items;
      unread = s.unread.pieces;
      ended = s.ended;
      reset_code = code_of s.is_reset s.reset_code;
      is_told = s.is_told;
      is_over = s.is_over;
    } };

    ghost invariant = { λ s. IsUnfinished s.kind s.front.items };
}

// RFC 9114 6.2: type of a unidirectional stream
/// Reads what a stream begins with: its type, and the id after it if it is a push stream (RFC 9114, section 4.6) or one of a
/// WebTransport session. `None` if that is not whole. If sessions are not known theirs is a type without a meaning (RFC 9114, section 9). A
/// stream of such a type is ignored, or delivered if the caller asks for it.
pub(crate) fn read_kind<B: Buf>(buf: &mut B, own: &Announced) -> Option<Kind>
    ensures { Tells (known_streams own.now) (B.unread buf.old) (B.unread buf.new) result }
{
    let Ok(number) = buf.get_var() else {
        return None;
    };
    match StreamType::from_value(number) {
        StreamType::CONTROL => Some(Kind::Control),
        StreamType::PUSH => {
            let Ok(id) = buf.get_var() else {
                return None;
            };
            Some(Kind::Push(id))
        }
        StreamType::ENCODER => Some(Kind::Encoder),
        StreamType::DECODER => Some(Kind::Decoder),
        StreamType::WEBTRANSPORT_UNI => {
            let Ok(id) = buf.get_var() else {
                return None;
            };
            let Ok(session) = SessionId::try_from(id) else {
                return None;
            };
            if !own.knows_sessions() {
                return Some(Kind::Ignored);
            }
            Some(Kind::Session(session))
        }
        _ => {
            if own.hands_out(number) {
                return Some(Kind::Other(number));
            }
            Some(Kind::Ignored)
        }
    }
}

/// Whether the type of a WebTransport stream is there, or no whole type.
fn may_be_session(front: &[u8]) -> bool
    ensures { result ≡ may_be_session (varint_at front.now) }
{
    let mut ahead = front;
    match ahead.get_var() {
        Ok(number) => number == StreamType::WEBTRANSPORT_UNI.value(),
        Err(_) => true,
    }
}

impl UnidirectionalStream {
    /// A stream of which nothing came.
    #[tactic(auto, using(crate::proofs::Heads::nothing_told))]
    pub fn new(alloc: Global) -> UnidirectionalStream
        ensures { result ≡ untold }
    {
        UnidirectionalStream {
            kind: Kind::Untold,
            front: Vec::new(alloc),
            unread: BufList::new(alloc),
            reset_code: 0,
            is_reset: false,
            ended: false,
            is_told: false,
            is_over: false,
        }
    }

    /// Whether its end or its reset came.
    pub fn is_closed(&self) -> bool
        ensures { result ≡ is_closed self.now }
    {
        self.ended || self.is_reset
    }

    /// What it is read as, by the bytes that came so far.
    pub fn kind(&self) -> Kind
        ensures { result ≡ kind_in self.now.role }
    {
        self.kind
    }

    /// Whether it may not be closed: it is read as the control, encoder or decoder stream.
    pub fn is_critical(&self) -> bool
        ensures { result ≡ is_critical self.now.role }
    {
        match self.kind {
            Kind::Control => true,
            Kind::Encoder => true,
            Kind::Decoder => true,
            Kind::Untold => false,
            Kind::Session(_) => false,
            Kind::Push(_) => false,
            Kind::Ignored => false,
            Kind::Other(_) => false,
        }
    }

    /// Whether what it answers to each further pull is settled: the end of a stream that is delivered was pulled, or it was reset.
    pub fn is_settled(&self) -> bool
        ensures { result ≡ is_settled_session self.now self.now.role }
    {
        let kind = self.kind;
        match kind {
            Kind::Session(_) => self.is_over || self.is_reset,
            Kind::Other(_) => self.is_over || self.is_reset,
            Kind::Control => false,
            Kind::Encoder => false,
            Kind::Decoder => false,
            Kind::Untold => false,
            Kind::Push(_) => false,
            Kind::Ignored => false,
        }
    }

    /// How many bytes came that are delivered, and were not pulled.
    pub fn unread_len(&self) -> usize
        ensures { result ≡ length (concat self.now.unread) }
    {
        self.unread.remaining()
    }

    /// Its end came. This takes no memory.
    pub fn end(&mut self)
        ensures { self.new ≡ record self.old { ended = true } }
    {
        self.ended = true;
    }

    /// Its sender reset it, with this code. What was not pulled is freed. This takes no memory.
    pub fn reset(&mut self, alloc: Global, code: u64)
        ensures { self.new ≡ reset_with self.old code }
    {
        self.unread = BufList::new(alloc);
        self.reset_code = code;
        self.is_reset = true;
    }

    /// Stores the bytes of a session without those that were passed.
    fn keep(&mut self, session: SessionId, mut bytes: Bytes, passed: usize) -> Result<(), Bytes>
        requires inside { passed ≤ length bytes }
        requires fits { length (concat self.old.unread) + length bytes < 2 ^ 64 }
        ensures ok { OnOk result (self.new ≡ with_bytes self.old (Session session, drop passed bytes)) }
        ensures err { IfErr result (λ back. (back ≡ bytes) × (self.new ≡ self.old)) }
    {
        if self.unread.reserve().is_err() {
            return Err(bytes);
        }
        bytes.advance(passed);
        self.unread.keep_reserved(bytes);
        self.kind = Kind::Session(session);
        Ok(())
    }

    /// The same of a stream of another type that is delivered.
    fn keep_other(&mut self, number: u64, mut bytes: Bytes, passed: usize) -> Result<(), Bytes>
        requires inside { passed ≤ length bytes }
        requires fits { length (concat self.old.unread) + length bytes < 2 ^ 64 }
        ensures ok { OnOk result (self.new ≡ with_bytes self.old (Other number, drop passed bytes)) }
        ensures err { IfErr result (λ back. (back ≡ bytes) × (self.new ≡ self.old)) }
    {
        if self.unread.reserve().is_err() {
            return Err(bytes);
        }
        bytes.advance(passed);
        self.unread.keep_reserved(bytes);
        self.kind = Kind::Other(number);
        Ok(())
    }

    /// The role is known: the bytes after those that were passed are for it.
    fn take(&mut self, kind: Kind, mut bytes: Bytes, passed: usize) -> Result<Received, Bytes>
        requires told { is_told_kind kind ≡ true }
        requires inside { passed ≤ length bytes }
        requires fits { length (concat self.old.unread) + length bytes < 2 ^ 64 }
        ensures ok { IfOk result (λ received. (self.new ≡ with_bytes self.old (role_of kind [], drop passed bytes))
            × (received ≡ received_by (role_of kind [], drop passed bytes))) }
        ensures err { IfErr result (λ back. (back ≡ bytes) × (self.new ≡ self.old)) }
    {
        match kind {
            Kind::Session(session) => match self.keep(session, bytes, passed) {
                Ok(()) => Ok(Received::Session(session.into_inner())),
                Err(back) => Err(back),
            },
            Kind::Other(number) => match self.keep_other(number, bytes, passed) {
                Ok(()) => Ok(Received::Nothing),
                Err(back) => Err(back),
            },
            Kind::Control => {
                self.kind = Kind::Control;
                bytes.advance(passed);
                Ok(Received::Control(bytes))
            }
            Kind::Encoder => {
                self.kind = Kind::Encoder;
                bytes.advance(passed);
                Ok(Received::Encoder(bytes))
            }
            Kind::Decoder => {
                self.kind = Kind::Decoder;
                bytes.advance(passed);
                Ok(Received::Decoder(bytes))
            }
            Kind::Push(id) => {
                self.kind = Kind::Push(id);
                Ok(Received::Push)
            }
            Kind::Ignored => {
                self.kind = Kind::Ignored;
                Ok(Received::Nothing)
            }
            Kind::Untold => unreachable!(),
        }
    }

    /// The role is not known: the first bytes, with these after them, tell it.
    fn tell(&mut self, own: &Announced, bytes: Bytes) -> Result<Received, Bytes>
        requires untold { is_untold self.old.role ≡ true }
        requires fits { length (concat self.old.unread) + length bytes < 2 ^ 64 }
        ensures ok { IfOk result (λ received. (self.new ≡ with_bytes self.old (role_after (known_streams own.now) self.old.role bytes))
            × (received ≡ received_by (role_after (known_streams own.now) self.old.role bytes))) }
        ensures err { IfErr result (λ back. (back ≡ bytes) × (self.new ≡ self.old)) }
    {
        let mut both = self.front.as_slice().chain(bytes.as_slice());
        let kind = read_kind(&mut both, own);
        let left = both.remaining();
        match kind {
            Some(kind) => {
                let passed = bytes.len() - left;
                self.take(kind, bytes, passed)
            }
            None => {
                if self.front.extend_from_slice(bytes.as_slice()).is_err() {
                    return Err(bytes);
                }
                Ok(Received::Nothing)
            }
        }
    }

    /// Bytes come: they tell the role, or are for it. What a session got is stored as it is, with no copy but of small pieces. An `Err`
    /// changes nothing, and returns the bytes. What tells a role stands in front of the bytes that are for it.
    #[tactic(auto, using(crate::proofs::Heads::tells_first))]
    pub fn receive(&mut self, own: &Announced, bytes: Bytes) -> Result<Received, Bytes>
        requires { length (concat self.old.unread) + length bytes < 2 ^ 64 }
        ensures front { (r : Role) (rest : List ℕ) → is_untold r ≡ false
            → role_after (known_streams own.now) self.old.role bytes ≡ (r, rest)
            → TellsFirst (known_streams own.now) self.old.role bytes r rest }
        ensures ok { IfOk result (λ received. (self.new ≡ with_bytes self.old (role_after (known_streams own.now) self.old.role bytes))
            × (received ≡ received_by (role_after (known_streams own.now) self.old.role bytes))) }
        ensures err { IfErr result (λ back. (back ≡ bytes) × (self.new ≡ self.old)) }
    {
        let kind = self.kind;
        match kind {
            Kind::Untold => self.tell(own, bytes),
            Kind::Control => self.take(Kind::Control, bytes, 0),
            Kind::Encoder => self.take(Kind::Encoder, bytes, 0),
            Kind::Decoder => self.take(Kind::Decoder, bytes, 0),
            Kind::Session(session) => self.take(Kind::Session(session), bytes, 0),
            Kind::Push(id) => self.take(Kind::Push(id), bytes, 0),
            Kind::Ignored => self.take(Kind::Ignored, bytes, 0),
            Kind::Other(number) => self.take(Kind::Other(number), bytes, 0),
        }
    }

    #[tactic(auto, using(crate::proofs::Heads::untold_front))]
    fn pull_untold(&self) -> Pull
        ensures { (front : List ℕ) → self.now.role ≡ Untold front → result ≡ untold_pull self.now front }
    {
        if self.is_closed() {
            return Pull::NoMessages;
        }
        if may_be_session(self.front.as_slice()) {
            return Pull::Pending;
        }
        Pull::NoMessages
    }

    fn pull_raw(&mut self) -> Pull
        ensures { raw self.old self.old.unread ≡ (result, self.new) }
    {
        match self.unread.take_first_chunk() {
            Some(piece) => Pull::Item(Item::Raw(piece)),
            None => {
                if self.ended {
                    self.is_over = true;
                    return Pull::Item(Item::End);
                }
                Pull::Pending
            }
        }
    }

    fn pull_session(&mut self, session: SessionId) -> Pull
        ensures { if_over self.old.is_over self.old session ≡ (result, self.new) }
    {
        if self.is_over {
            return Pull::Item(Item::End);
        }
        if self.is_reset {
            return Pull::Fault(Fault::Stream(StreamFault::Reset(self.reset_code)));
        }
        if !self.is_told {
            self.is_told = true;
            return Pull::Item(Item::Session(session));
        }
        self.pull_raw()
    }

    fn pull_other(&mut self) -> Pull
        ensures { pull_other self.old.is_over self.old ≡ (result, self.new) }
    {
        if self.is_over {
            return Pull::Item(Item::End);
        }
        if !self.is_reset {
            return self.pull_raw();
        }
        Pull::Fault(Fault::Stream(StreamFault::Reset(self.reset_code)))
    }

    /// What it gives next: of a session its id, the bytes that came in pieces, and its end. A stream of another type that is delivered has
    /// its bytes and its end; any other stream no messages. While its type, or the id of a session, is not whole and it may come, that is
    /// pending. This takes no memory.
    pub fn pull(&mut self) -> Pull
        ensures { pull_unidirectional self.old self.old.role ≡ (result, self.new) }
    {
        let kind = self.kind;
        match kind {
            Kind::Untold => self.pull_untold(),
            Kind::Session(session) => self.pull_session(session),
            Kind::Control => Pull::NoMessages,
            Kind::Encoder => Pull::NoMessages,
            Kind::Decoder => Pull::NoMessages,
            Kind::Push(_) => Pull::NoMessages,
            Kind::Ignored => Pull::NoMessages,
            Kind::Other(_) => self.pull_other(),
        }
    }
}
