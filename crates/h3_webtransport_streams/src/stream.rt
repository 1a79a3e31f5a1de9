//! One stream of a session, both ways.
ghost use Rattle.std.specs.Prelude.{◌≡◌, IfOk, Some};
ghost use Rattle.h3_webtransport_streams.specs.SessionStream.{both_ways, entered, one_way, takes_turns, unseen};
ghost use Rattle.h3_webtransport_streams.specs.Sought.{is_sought};

use crate::front::{both_ways_front, one_way_front};
use crate::receiver::ReceivingHalf;
use crate::sender::SendingHalf;
use h3_proto::webtransport::SessionId;
use std::alloc::{AllocError, Global};
use std::marker::Model;

mod receiving;
mod sending;

/// A stream is looked for.
#[derive(Clone, Copy)]
pub(crate) enum Sought {
    /// On which bytes or an end wait.
    ToSend,
    /// Of the session of this id.
    Session(u64),
}

/// A stream. A contract sees it as the definitions' `SessionStream`.
#[derive(Drop)]
pub(crate) struct StoredStream {
    session: Option<SessionId>,
    sender: Option<SendingHalf>,
    receiver: Option<ReceivingHalf>,
}

impl Model for StoredStream {
    ghost use Rattle.h3_webtransport_streams.specs.SessionStream.{SessionStream};

    ghost Value = { SessionStream };

    ghost view = { λ s. record { session = s.session; sender = s.sender; receiver = s.receiver } };
}

impl StoredStream {
    /// A stream that this side opens, both ways.
    pub(crate) fn both_ways(alloc: Global, session: SessionId) -> Result<StoredStream, AllocError>
        ensures { IfOk result (λ s. s ≡ both_ways session) }
    {
        let Ok(front) = both_ways_front(alloc, session) else {
            return Err(AllocError);
        };
        let Ok(sender) = SendingHalf::new(alloc, front) else {
            return Err(AllocError);
        };
        Ok(StoredStream {
            session: Some(session),
            sender: Some(sender),
            receiver: Some(ReceivingHalf::answering(alloc)),
        })
    }

    /// A stream that this side opens, on which it alone sends.
    pub(crate) fn one_way(alloc: Global, session: SessionId) -> Result<StoredStream, AllocError>
        ensures { IfOk result (λ s. s ≡ one_way session) }
    {
        let Ok(front) = one_way_front(alloc, session) else {
            return Err(AllocError);
        };
        let Ok(sender) = SendingHalf::new(alloc, front) else {
            return Err(AllocError);
        };
        Ok(StoredStream {
            session: Some(session),
            sender: Some(sender),
            receiver: None,
        })
    }

    /// A stream of the peer that another part reads. It is answered if it goes both ways.
    pub(crate) fn entered(alloc: Global, session: SessionId, answers: bool) -> StoredStream
        ensures { result ≡ entered session answers }
    {
        let sender = if answers {
            Some(SendingHalf::behind_front(alloc))
        } else {
            None
        };
        StoredStream {
            session: Some(session),
            sender,
            receiver: None,
        }
    }

    /// A stream of the peer of which nothing came.
    pub(crate) fn unseen(alloc: Global) -> StoredStream
        ensures { result ≡ unseen }
    {
        StoredStream {
            session: None,
            sender: None,
            receiver: Some(ReceivingHalf::untold(alloc)),
        }
    }

    /// Its session.
    pub(crate) fn session(&self) -> Option<SessionId>
        ensures { result ≡ self.now.session }
    {
        self.session
    }

    /// It is of this session.
    pub(crate) fn set_session(&mut self, session: SessionId)
        ensures { self.new ≡ record self.old { session = Some session } }
    {
        self.session = Some(session);
    }

    /// Whether its turn may come: bytes or an end wait on it, and it is not held.
    pub(crate) fn takes_turns(&self) -> bool
        ensures { result ≡ takes_turns self.now }
    {
        match &self.sender {
            Some(sender) => sender.sends(),
            None => false,
        }
    }

    /// Whether it is looked for.
    pub(crate) fn is_sought(&self, sought: Sought) -> bool
        ensures { result ≡ is_sought sought self.now }
    {
        match sought {
            Sought::ToSend => match &self.sender {
                Some(sender) => sender.has_to_send(),
                None => false,
            },
            Sought::Session(session) => match self.session {
                Some(id) => id.into_inner() == session,
                None => false,
            },
        }
    }
}
