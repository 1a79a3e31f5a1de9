//! A source for cases: bytes, cut as the case says.
ghost use Rattle.std.specs.Prelude.{refl};
ghost use Rattle.h3_wire.specs.Source.{Polls};

use bytes::Bytes;
use h3_frames::proto::stream::StreamId;
use h3_frames::quic::StreamErrorIncoming;
use h3_wire::quic::{Poll, RecvStream};
use std::alloc::Global;

/// Gives `first` bytes and then `later` bytes a call, at least one, and then what `last` says.
#[derive(Drop)]
pub struct Feed<'a> {
    pub bytes: &'a [u8],
    pub first: usize,
    pub later: usize,
    pub last: Last,
    pub alloc: Global,
}

/// What comes after the bytes.
#[derive(Clone, Copy)]
pub enum Last {
    End,
    Nothing,
    Reset,
}

impl RecvStream for Feed<'_> {
    ghost rest = { λ f. f.bytes.now };

    ghost answers = { λ s answer t. Polls answer s.bytes.now t.bytes.now };

    ghost id = { λ f. 0 };

    ghost polls = { λ s t answer h. h };

    ghost same = { λ s t answer h. refl };

    fn poll_data(&mut self) -> Poll<Result<Option<Bytes>, StreamErrorIncoming>> {
        if self.bytes.is_empty() {
            return match self.last {
                Last::End => Poll::Ready(Ok(None)),
                Last::Nothing => Poll::Pending,
                Last::Reset => {
                    Poll::Ready(Err(StreamErrorIncoming::StreamTerminated { error_code: 268 }))
                }
            };
        }
        let len = self.bytes.len().min(self.first.max(1));
        let (front, rest) = self.bytes.split_at(len);
        match Bytes::copy_from_slice(self.alloc, front) {
            Ok(piece) => {
                self.bytes = rest;
                self.first = self.later;
                Poll::Ready(Ok(Some(piece)))
            }
            Err(_) => Poll::Ready(Err(StreamErrorIncoming::OutOfMemory)),
        }
    }

    fn recv_id(&self) -> StreamId {
        StreamId::FIRST_REQUEST
    }
}
